ghost use Rattle.std.specs.Prelude.{◌≡◌, ◌<◌, ◌≤◌, ◌+◌, ◌^◌, ℕ, suc, List, [], All, length, take, drop, slice_index_or, codes, IfOk, OnOk};
ghost use Rattle.std.specs.Str.{IsUtf8};
ghost use Rattle.op_logic.specs.Term.{Term, var};
ghost use Rattle.op_reader.specs.Words.{source, name_word as the_name_word, integer_word as the_integer_word, operand_word};
ghost use Rattle.op_reader.specs.Words.{empty_name as the_empty_name, empty_word as the_empty_word, opening_word as the_opening_word};
ghost use Rattle.op_reader.specs.Words.{comma};
ghost use Rattle.op_reader.specs.Words.{word_of as the_word_of, words_of as the_words_of, as_operator as the_as_operator, text_term};
ghost use Rattle.op_reader.specs.Words.{variables_of, named_from, met_behind, spelling, number_of};
ghost use Rattle.op_reader.specs.inner.Shown.{HasText, HasMet, ShowsWord, ShowsOperator, ShowsWords, Worded, text_in};

use crate::ahead::{is_empty_pair, opens};
use crate::bracket::Bracket;
use crate::name_word::{as_operand, as_operator, atom_node};
use crate::names::Names;
use crate::text_node::text_node;
use crate::token_text::{as_text, read_text};
use crate::variable::variable;
use crate::word::{AsOperand, AsOperator, Word};
use op_base::Memory;
use op_term::{Builder, DoubleQuotes, Ops, Symbols};
use op_token::{Token, TokenKind};
use std::alloc::Global;

fn name_word(
    alloc: Global,
    ops: &Ops,
    bytes: &[u8],
    symbols: &mut Symbols,
    nodes: &mut Builder,
    token: Token,
    rest: &[Token],
) -> Result<Word, Memory>
    requires token { HasText bytes.now token }
    requires text { All (HasText bytes.now) rest.now }
    requires utf8 { IsUtf8 (text_in bytes.now token) }
    ensures shown { IfOk result (λ w.
        ShowsWord symbols.new nodes.new w (the_name_word ops.now bytes.now token (text_in bytes.now token) rest.now)) }
    ensures names_kept { take (length symbols.old) symbols.new ≡ symbols.old }
    ensures kept { take (length nodes.old) nodes.new ≡ nodes.old }
{
    let mut text = Vec::new(alloc);
    read_text(bytes, token, &mut text)?;
    let name = as_text(&text);
    let sym = symbols.intern(name)?;
    let operand = as_operand(alloc, ops, bytes, symbols, nodes, token, name, sym, rest)?;
    let operator = as_operator(ops, symbols, name, sym);
    Ok(Word::Other(token.from, operand, operator))
}

fn integer_word(nodes: &mut Builder, token: Token, magnitude: u64) -> Result<Word, Memory>
    ensures shown { IfOk result (λ w. (names : List (List ℕ)) → ShowsWord names nodes.new w (the_integer_word token magnitude)) }
    ensures kept { take (length nodes.old) nodes.new ≡ nodes.old }
{
    if magnitude < 9223372036854775808 {
        let node = nodes.int(magnitude as i64)?;
        Ok(Word::Other(token.from, AsOperand::Plain(node), AsOperator::Misplaced))
    } else {
        Ok(Word::Other(token.from, AsOperand::Excess, AsOperator::Misplaced))
    }
}

fn text_word(
    alloc: Global,
    quotes: DoubleQuotes,
    bytes: &[u8],
    symbols: &mut Symbols,
    nodes: &mut Builder,
    token: Token,
) -> Result<Word, Memory>
    requires token { HasText bytes.now token }
    requires utf8 { IsUtf8 (text_in bytes.now token) }
    ensures shown { IfOk result (λ w. ShowsWord symbols.new nodes.new w (operand_word token (text_term quotes (text_in bytes.now token)))) }
    ensures names_kept { take (length symbols.old) symbols.new ≡ symbols.old }
    ensures kept { take (length nodes.old) nodes.new ≡ nodes.old }
{
    let mut text = Vec::new(alloc);
    read_text(bytes, token, &mut text)?;
    let node = text_node(alloc, symbols, nodes, quotes, as_text(&text))?;
    Ok(Word::Other(token.from, AsOperand::Plain(node), AsOperator::Misplaced))
}

fn empty_word(
    symbols: &mut Symbols,
    nodes: &mut Builder,
    token: Token,
    name: &str,
    behind: &[Token],
) -> Result<Word, Memory>
    ensures shown { IfOk result (λ w. ShowsWord symbols.new nodes.new w (the_empty_word token name.now behind.now)) }
    ensures names_kept { take (length symbols.old) symbols.new ≡ symbols.old }
    ensures kept { take (length nodes.old) nodes.new ≡ nodes.old }
{
    let sym = symbols.intern(name)?;
    if opens(behind) {
        return Ok(Word::Other(token.from, AsOperand::Functor(sym), AsOperator::Misplaced));
    }
    let node = atom_node(symbols, nodes, name, sym)?;
    Ok(Word::Other(token.from, AsOperand::Plain(node), AsOperator::Misplaced))
}

fn empty_name(bracket: Bracket) -> &'static str
    ensures { result.now ≡ the_empty_name bracket }
{
    match bracket {
        Bracket::Square => "[]",
        _ => "{}",
    }
}

fn opening_word(
    symbols: &mut Symbols,
    nodes: &mut Builder,
    token: Token,
    bracket: Bracket,
    rest: &[Token],
) -> Result<Word, Memory>
    ensures shown { IfOk result (λ w. ShowsWord symbols.new nodes.new w (the_opening_word token bracket rest.now)) }
    ensures names_kept { take (length symbols.old) symbols.new ≡ symbols.old }
    ensures kept { take (length nodes.old) nodes.new ≡ nodes.old }
{
    match rest {
        [_, behind @ ..] => {
            if is_empty_pair(token.kind, rest) {
                empty_word(symbols, nodes, token, empty_name(bracket), behind)
            } else {
                Ok(Word::Opened(token.from, bracket))
            }
        }
        [] => Ok(Word::Opened(token.from, bracket)),
    }
}

fn comma_word(ops: &Ops, symbols: &mut Symbols, token: Token) -> Result<Word, Memory>
    ensures shown { IfOk result (λ w. (terms : List (Term ℕ)) →
        ShowsWord symbols.new terms w (comma token.from (the_as_operator ops.now (codes ",")))) }
    ensures names_kept { take (length symbols.old) symbols.new ≡ symbols.old }
{
    let sym = symbols.intern(",")?;
    let operator = as_operator(ops, symbols, ",", sym);
    Ok(Word::Comma(token.from, operator))
}

/// What is made of the words so far: their nodes, the named variables, and how many variables there are.
#[derive(Drop)]
pub(crate) struct Made {
    pub nodes: Builder,
    pub names: Names,
    pub count: u64,
}

fn variable_word(alloc: Global, bytes: &[u8], made: &mut Made, token: Token) -> Result<Word, Memory>
    requires token { HasText bytes.now token }
    requires variable { token.kind ≡ TokenKind.Variable }
    requires few { made.old.count + 1 < 2 ^ 64 }
    ensures shown { IfOk result (λ w. (names met : List (List ℕ)) → HasMet made.old.names made.old.count met →
        ShowsWord names made.new.nodes w (operand_word token (var (number_of met (spelling bytes.now token))))) }
    ensures met { OnOk result ((met : List (List ℕ)) → HasMet made.old.names made.old.count met →
        HasMet made.new.names made.new.count (met_behind bytes.now met token)) }
    ensures kept { take (length made.old.nodes) made.new.nodes ≡ made.old.nodes }
    ensures few { made.new.count ≤ made.old.count + 1 }
{
    let mut text = Vec::new(alloc);
    read_text(bytes, token, &mut text)?;
    let number = variable(&mut made.names, &mut made.count, as_text(&text))?;
    let node = made.nodes.var(number)?;
    Ok(Word::Other(token.from, AsOperand::Plain(node), AsOperator::Misplaced))
}

// The word of a token before these tokens.
fn word_of(
    alloc: Global,
    ops: &Ops,
    quotes: DoubleQuotes,
    bytes: &[u8],
    symbols: &mut Symbols,
    made: &mut Made,
    token: Token,
    rest: &[Token],
) -> Result<Word, Memory>
    requires token { HasText bytes.now token }
    requires text { All (HasText bytes.now) rest.now }
    requires few { made.old.count + 1 < 2 ^ 64 }
    ensures shown { IfOk result (λ w. (met : List (List ℕ)) → HasMet made.old.names made.old.count met →
        ShowsWord symbols.new made.new.nodes w (the_word_of (source ops.now quotes bytes.now) met token rest.now)) }
    ensures met { OnOk result ((met : List (List ℕ)) → HasMet made.old.names made.old.count met →
        HasMet made.new.names made.new.count (met_behind bytes.now met token)) }
    ensures names_kept { take (length symbols.old) symbols.new ≡ symbols.old }
    ensures kept { take (length made.old.nodes) made.new.nodes ≡ made.old.nodes }
    ensures few { made.new.count ≤ made.old.count + 1 }
{
    match token.kind {
        TokenKind::Name => name_word(alloc, ops, bytes, symbols, &mut made.nodes, token, rest),
        TokenKind::QuotedName => {
            name_word(alloc, ops, bytes, symbols, &mut made.nodes, token, rest)
        }
        TokenKind::Variable => {
            let word = variable_word(alloc, bytes, made, token)?;
            Ok(word)
        }
        TokenKind::Integer(magnitude) => {
            let word = integer_word(&mut made.nodes, token, magnitude)?;
            Ok(word)
        }
        TokenKind::Text => text_word(alloc, quotes, bytes, symbols, &mut made.nodes, token),
        TokenKind::OpenRound => {
            opening_word(symbols, &mut made.nodes, token, Bracket::Round, rest)
        }
        TokenKind::OpenSquare => {
            opening_word(symbols, &mut made.nodes, token, Bracket::Square, rest)
        }
        TokenKind::OpenCurly => {
            opening_word(symbols, &mut made.nodes, token, Bracket::Curly, rest)
        }
        TokenKind::Comma => {
            let word = comma_word(ops, symbols, token)?;
            Ok(word)
        }
        TokenKind::Bar => Ok(Word::Bar(token.from)),
        TokenKind::CloseRound => Ok(Word::Closed(token.from)),
        TokenKind::CloseSquare => Ok(Word::Closed(token.from)),
        TokenKind::CloseCurly => Ok(Word::Closed(token.from)),
        TokenKind::End => Ok(Word::Bar(token.from)),
    }
}

fn token_at(tokens: &[Token], at: usize) -> Token
    requires { at < length tokens.now }
    ensures { result ≡ slice_index_or tokens.now at result }
{
    tokens[at]
}

fn tokens_behind(tokens: &[Token], at: usize) -> &[Token]
    requires { at < length tokens.now }
    ensures { result.now ≡ drop (suc at) tokens.now }
{
    &tokens[at + 1..]
}

// Puts the word at a place behind the others, and gives the place of the next.
fn add_word(
    alloc: Global,
    ops: &Ops,
    quotes: DoubleQuotes,
    bytes: &[u8],
    symbols: &mut Symbols,
    made: &mut Made,
    words: &mut Vec<Word>,
    tokens: &[Token],
    at: usize,
) -> Result<usize, Memory>
    requires inside { at < length tokens.now }
    requires text { All (HasText bytes.now) tokens.now }
    requires few { made.old.count ≤ at }
    ensures further { IfOk result (λ n. at < n) }
    ensures within { IfOk result (λ n. n ≤ length tokens.now) }
    ensures worded { IfOk result (λ n. let s = source ops.now quotes bytes.now in
        Worded s tokens.now at symbols.old made.old words.old.items → Worded s tokens.now n symbols.new made.new words.new.items) }
    ensures names_kept { take (length symbols.old) symbols.new ≡ symbols.old }
{
    let token = token_at(tokens, at);
    let rest = tokens_behind(tokens, at);
    let word = word_of(alloc, ops, quotes, bytes, symbols, made, token, rest)?;
    words.push(word)?;
    if is_empty_pair(token.kind, rest) {
        Ok(at + 2)
    } else {
        Ok(at + 1)
    }
}

/// The words of a clause's tokens.
pub(crate) fn words_of(
    alloc: Global,
    ops: &Ops,
    quotes: DoubleQuotes,
    bytes: &[u8],
    symbols: &mut Symbols,
    tokens: &[Token],
) -> Result<(Vec<Word>, Made), Memory>
    requires { All (HasText bytes.now) tokens.now }
    ensures words { IfOk result (λ r.
        ShowsWords symbols.new r.1.nodes r.0.items (the_words_of (source ops.now quotes bytes.now) tokens.now)) }
    ensures names { IfOk result (λ r. r.1.names ≡ named_from 0 (variables_of bytes.now [] tokens.now)) }
    ensures count { IfOk result (λ r. r.1.count ≡ length (variables_of bytes.now [] tokens.now)) }
    ensures names_kept { take (length symbols.old) symbols.new ≡ symbols.old }
{
    let mut made = Made {
        nodes: Builder::new(alloc),
        names: Names::new(alloc),
        count: 0,
    };
    let mut words = Vec::new(alloc);
    let mut at = 0;
    'words: while at < tokens.len() {
        at = add_word(
            alloc, ops, quotes, bytes, symbols, &mut made, &mut words, tokens, at,
        )?;
    }
    Ok((words, made))
}
