ghost use Rattle.std.specs.Prelude.{◌≡◌, ◌<◌, All, length, take, OnOk, IfOk};
ghost use Rattle.op_logic.specs.Names.{name_at};
ghost use Rattle.op_logic.specs.Term.{atom};
ghost use Rattle.op_reader.specs.Words.{as_operator as the_as_operator, is_infix_alone, is_infix_name, is_infix_only as the_is_infix_only};
ghost use Rattle.op_reader.specs.Words.{stands_alone as the_stands_alone, bare_name as the_bare_name};
ghost use Rattle.op_reader.specs.Words.{name_as_operand as the_name_as_operand};
ghost use Rattle.op_reader.specs.inner.Shown.{HasText, ShowsOperator, ShowsOperand, ShowsTerm};

use crate::ahead::{ends_operand, negative, opens};
use crate::token_text::{as_text, read_text};
use crate::word::{AsOperand, AsOperator, Operator};
use op_base::Memory;
use op_term::{Builder, Meaning, Ops, Sym, Symbols};
use op_token::{Token, TokenKind};
use std::alloc::Global;

fn operator(name: Sym, meaning: Meaning) -> Operator
    requires { 0 < meaning.priority }
    ensures name { result.name ≡ name }
    ensures meaning { result.meaning ≡ meaning }
{
    Operator { name, meaning }
}

/// What a name is where an operator is expected.
pub(crate) fn as_operator(ops: &Ops, symbols: &Symbols, name: &str, sym: Sym) -> AsOperator
    requires known { sym.0 < length symbols.now }
    requires named { name_at symbols.now sym.0 ≡ name.now }
    ensures { ShowsOperator symbols.now result (the_as_operator ops.now name.now) }
{
    match ops.infix(name) {
        Some(meaning) => AsOperator::Joins(operator(sym, meaning)),
        None => match ops.postfix(name) {
            Some(meaning) => AsOperator::Joins(operator(sym, meaning)),
            None => AsOperator::Misplaced,
        },
    }
}

fn is_infix_alone(ops: &Ops, name: &str) -> bool
    ensures { result ≡ is_infix_alone ops.now name.now }
{
    ops.infix(name).is_some() && !ops.prefix(name).is_some()
}

fn is_infix_name(alloc: Global, ops: &Ops, bytes: &[u8], token: Token) -> Result<bool, Memory>
    requires { HasText bytes.now token }
    ensures { IfOk result (λ b. b ≡ is_infix_name ops.now bytes.now token) }
{
    match token.kind {
        TokenKind::Name => {
            let mut name = Vec::new(alloc);
            read_text(bytes, token, &mut name)?;
            Ok(is_infix_alone(ops, as_text(&name)))
        }
        TokenKind::QuotedName => {
            let mut name = Vec::new(alloc);
            read_text(bytes, token, &mut name)?;
            Ok(is_infix_alone(ops, as_text(&name)))
        }
        _ => Ok(false),
    }
}

fn is_infix_only(
    alloc: Global,
    ops: &Ops,
    bytes: &[u8],
    token: Token,
    rest: &[Token],
) -> Result<bool, Memory>
    requires { HasText bytes.now token }
    ensures { IfOk result (λ b. b ≡ the_is_infix_only ops.now bytes.now token rest.now) }
{
    let is_name = is_infix_name(alloc, ops, bytes, token)?;
    Ok(is_name && !opens(rest) && !negative(bytes, token, rest).is_some())
}

/// Whether a prefix operator's name before these tokens is an operand.
fn stands_alone(alloc: Global, ops: &Ops, bytes: &[u8], rest: &[Token]) -> Result<bool, Memory>
    requires { All (HasText bytes.now) rest.now }
    ensures { IfOk result (λ b. b ≡ the_stands_alone ops.now bytes.now rest.now) }
{
    match rest {
        [] => Ok(true),
        [next, further @ ..] => {
            if ends_operand(next.kind) {
                Ok(true)
            } else {
                is_infix_only(alloc, ops, bytes, *next, further)
            }
        }
    }
}

/// The node of an atom.
pub(crate) fn atom_node(
    symbols: &Symbols,
    nodes: &mut Builder,
    name: &str,
    sym: Sym,
) -> Result<u64, Memory>
    requires known { sym.0 < length symbols.now }
    requires named { name_at symbols.now sym.0 ≡ name.now }
    ensures shown { IfOk result (λ n. ShowsTerm symbols.now nodes.new n (atom name.now)) }
    ensures kept { take (length nodes.old) nodes.new ≡ nodes.old }
{
    let _named = name;
    let _known = symbols;
    nodes.atom(sym)
}

fn bare_name(
    alloc: Global,
    ops: &Ops,
    bytes: &[u8],
    symbols: &Symbols,
    nodes: &mut Builder,
    name: &str,
    sym: Sym,
    rest: &[Token],
) -> Result<AsOperand, Memory>
    requires text { All (HasText bytes.now) rest.now }
    requires known { sym.0 < length symbols.now }
    requires named { name_at symbols.now sym.0 ≡ name.now }
    ensures shown { IfOk result (λ a. ShowsOperand symbols.now nodes.new a (the_bare_name ops.now bytes.now name.now rest.now)) }
    ensures kept { take (length nodes.old) nodes.new ≡ nodes.old }
{
    if let Some(meaning) = ops.prefix(name) {
        if !stands_alone(alloc, ops, bytes, rest)? {
            return Ok(AsOperand::Prefix(operator(sym, meaning)));
        }
    }
    Ok(AsOperand::Plain(atom_node(symbols, nodes, name, sym)?))
}

/// What a name is where an operand is expected.
pub(crate) fn as_operand(
    alloc: Global,
    ops: &Ops,
    bytes: &[u8],
    symbols: &Symbols,
    nodes: &mut Builder,
    token: Token,
    name: &str,
    sym: Sym,
    rest: &[Token],
) -> Result<AsOperand, Memory>
    requires token { HasText bytes.now token }
    requires text { All (HasText bytes.now) rest.now }
    requires known { sym.0 < length symbols.now }
    requires named { name_at symbols.now sym.0 ≡ name.now }
    ensures shown { IfOk result (λ a. ShowsOperand symbols.now nodes.new a
        (the_name_as_operand ops.now bytes.now token name.now rest.now)) }
    ensures kept { take (length nodes.old) nodes.new ≡ nodes.old }
{
    if opens(rest) {
        return Ok(AsOperand::Functor(sym));
    }
    if let Some(number) = negative(bytes, token, rest) {
        return Ok(AsOperand::Minus(nodes.int(number)?));
    }
    bare_name(alloc, ops, bytes, symbols, nodes, name, sym, rest)
}
