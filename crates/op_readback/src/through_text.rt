ghost use Rattle.std.specs.Prelude.{◌≡◌, ◌≤◌, ◌<◌, [], length, take, IfOk, OnOk, Err};
ghost use Rattle.op_logic.specs.Term.{IsWithin};
ghost use Rattle.op_logic.specs.Names.{IsTable, named, HasNames};
ghost use Rattle.op_writer.specs.declared.fault.TextFault.TheVariants.{TooLong as too_long};
ghost use Rattle.op_readback.specs.ReadBack.{IsReadable, AreReadBack, text_over, clause_over};

use op_desk::Bytes;
use op_reader::{DoubleQuotes, Read, ReadFault, Reading, read_term};
use op_term::{Ops, Symbols, Term, Whole};
use op_writer::{Style, TextFault, write_text};
use std::alloc::Global;

// A law for proofs: names of a table are texts and a term's integers have 64 bits, so that the law of reading back holds of a term.
fn texts_law(ops: &Ops, symbols: &Symbols, term: &Term)
    requires closed { IsWithin 0 term.now }
    requires names { HasNames (length symbols.now) term.now }
    ensures { AreReadBack ops.now (named symbols.now term.now) }
{
    let _prefix = ops.prefix("-");
    let _count = symbols.count();
    term.integers_law();
}

// A law for proofs: the names of a table differ.
fn names_law(symbols: &Symbols)
    ensures { IsTable symbols.now }
{
    let _count = symbols.count();
}

// The text of a term, as a clause.
fn clause_of(
    alloc: Global,
    ops: &Ops,
    style: Style,
    symbols: &Symbols,
    term: &Term,
    priority: u32,
    limit: u64,
) -> Result<Bytes, TextFault>
    requires { HasNames (length symbols.now) term.now }
    ensures text { IfOk result (λ b. b ≡ clause_over symbols.now ops.now style term.now priority) }
    ensures within { OnOk result (length (text_over symbols.now ops.now style term.now priority) ≤ limit) }
    ensures too_long { result ≡ Err too_long → limit < length (text_over symbols.now ops.now style term.now priority) }
{
    let mut text = Bytes::new(alloc);
    let whole = Whole::new(term);
    write_text(
        alloc,
        ops,
        style,
        symbols,
        &whole,
        &whole.root(),
        priority,
        limit,
        &mut text,
    )?;
    text.append(b" .")?;
    Ok(text)
}

/// Writes a term without variables within a priority, in the quoted style or the canonical one, with a space and a full stop behind
/// it, and reads this text: the term again. The text itself has at most `limit` bytes, or is told to be too long.
pub fn written_and_read(
    alloc: Global,
    ops: &Ops,
    style: Style,
    quotes: DoubleQuotes,
    symbols: &mut Symbols,
    term: &Term,
    priority: u32,
    limit: u64,
) -> Result<Read, TextFault>
    requires closed { IsWithin 0 term.now }
    requires names { HasNames (length symbols.old) term.now }
    requires style { IsReadable style (named symbols.old term.now) }
    requires priority { priority ≤ 1200 }
    ensures term { IfOk result (λ r. r.term ≡ term.now) }
    ensures known { IfOk result (λ r. HasNames (length symbols.new) r.term) }
    ensures unnamed { IfOk result (λ r. r.names ≡ []) }
    ensures closed { IfOk result (λ r. r.vars ≡ 0) }
    ensures all { IfOk result (λ r. r.used ≡ length (clause_over symbols.old ops.now style term.now priority)) }
    ensures within { OnOk result (length (text_over symbols.old ops.now style term.now priority) ≤ limit) }
    ensures too_long { result ≡ Err too_long → limit < length (text_over symbols.old ops.now style term.now priority) }
    ensures kept { take (length symbols.old) symbols.new ≡ symbols.old }
{
    texts_law(ops, symbols, term);
    let text = clause_of(alloc, ops, style, symbols, term, priority, limit)?;
    match read_term(alloc, ops, quotes, symbols, text.as_slice()) {
        Ok(Reading::Term(read)) => {
            names_law(symbols);
            Ok(read)
        }
        Ok(Reading::End) => unreachable!(),
        Err(ReadFault::Bad { .. }) => unreachable!(),
        Err(ReadFault::Memory) => Err(TextFault::Memory),
    }
}
