ghost use Rattle.std.specs.Prelude.{◌≡◌, ◌++◌, ◌<◌, length, IfOk, OnOk};
ghost use Rattle.op_store.specs.NumberedProcedures.{indicator_named};
ghost use Rattle.op_store.specs.Queries.{fault_named, IsKnownFault};
ghost use Rattle.op_session.specs.Words.{kind_word as the_kind, indicator_text as the_indicator};
ghost use Rattle.op_session.specs.Words.{fault_words as the_words, load_line as the_line};

use crate::decimal::add_decimal;
use op_base::Memory;
use op_desk::Bytes;
use op_reader::ReadFaultKind;
use op_store::{LoadFaultKind, Pi, Store};
use op_term::{Builder, Whole};
use op_writer::{Style, write_text};
use std::alloc::Global;

/// The word for why a text can't be read.
pub fn kind_word(kind: ReadFaultKind) -> &'static [u8]
    ensures { result.now ≡ the_kind kind }
{
    match kind {
        ReadFaultKind::Token(_) => b"token",
        ReadFaultKind::NoEnd => b"no_end",
        ReadFaultKind::Unbalanced => b"unbalanced",
        ReadFaultKind::NoOperand => b"no_operand",
        ReadFaultKind::Priority => b"priority",
    }
}

// Adds a procedure's name, quoted, and how many arguments it has.
fn add_indicator(alloc: Global, store: &Store, pi: Pi, words: &mut Bytes) -> Result<(), Memory>
    requires { pi.name.0 < length store.now.names }
    ensures { OnOk result (words.new ≡ words.old ++ the_indicator (indicator_named store.now.names pi)) }
{
    let mut builder = Builder::new(alloc);
    let root = builder.atom(pi.name)?;
    let term = builder.finish(root);
    let whole = Whole::new(&term);
    let written = write_text(
        alloc,
        store.ops(),
        Style::Quoted,
        store.symbols(),
        &whole,
        &whole.root(),
        1200,
        u64::MAX,
        words,
    );
    if written.is_err() {
        return Err(Memory);
    }
    words.append(b"/")?;
    add_decimal(words, pi.arity)
}

/// The words for why a term of a program or a goal is refused.
pub fn fault_words(alloc: Global, store: &Store, kind: LoadFaultKind) -> Result<Bytes, Memory>
    requires { IsKnownFault (length store.now.names) kind }
    ensures { IfOk result (λ words. words ≡ the_words (fault_named store.now.names kind)) }
{
    let mut words = Bytes::new(alloc);
    match kind {
        LoadFaultKind::Syntax(kind) => words.append(kind_word(kind))?,
        LoadFaultKind::Trailing => words.append(b"trailing")?,
        LoadFaultKind::Head => words.append(b"head")?,
        LoadFaultKind::Body => words.append(b"body")?,
        LoadFaultKind::Locked(pi) => {
            words.append(b"locked ")?;
            add_indicator(alloc, store, pi, &mut words)?;
        }
        LoadFaultKind::Directive => words.append(b"directive")?,
    }
    Ok(words)
}

/// The line of a refusal: the name of the text, the line of the fault, counted from 1, and why.
pub fn load_line(alloc: Global, name: &str, line: u64, words: &[u8]) -> Result<Bytes, Memory>
    ensures { IfOk result (λ bytes. bytes ≡ the_line name.now line words.now) }
{
    let mut bytes = Bytes::new(alloc);
    bytes.append(b"opium: load ")?;
    bytes.append(name.as_bytes())?;
    bytes.append(b":")?;
    add_decimal(&mut bytes, line)?;
    bytes.append(b" ")?;
    bytes.append(words)?;
    bytes.append(b"\n")?;
    Ok(bytes)
}
