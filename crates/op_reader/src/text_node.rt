ghost use Rattle.std.specs.Prelude.{◌≡◌, length, take, map, codes, IfOk, OnOk};
ghost use Rattle.std.specs.Str.{chars};
ghost use Rattle.op_logic.specs.Term.{atom};
ghost use Rattle.op_reader.specs.Words.{list_of, char_term, text_term};
ghost use Rattle.op_reader.specs.inner.Shown.{ShowsTerm, ShowsTerms};

use crate::list_node::list_node;
use crate::name_word::atom_node;
use op_base::Memory;
use op_term::{Builder, DoubleQuotes, Symbols};
use std::alloc::Global;

/// The node of the atom with a name.
pub(crate) fn named_node(
    symbols: &mut Symbols,
    nodes: &mut Builder,
    name: &str,
) -> Result<u64, Memory>
    ensures shown { IfOk result (λ n. ShowsTerm symbols.new nodes.new n (atom name.now)) }
    ensures names_kept { take (length symbols.old) symbols.new ≡ symbols.old }
    ensures kept { take (length nodes.old) nodes.new ≡ nodes.old }
{
    let sym = symbols.intern(name)?;
    atom_node(symbols, nodes, name, sym)
}

fn char_node(
    symbols: &mut Symbols,
    nodes: &mut Builder,
    quotes: DoubleQuotes,
    character: char,
) -> Result<u64, Memory>
    ensures shown { IfOk result (λ n. ShowsTerm symbols.new nodes.new n (char_term quotes character)) }
    ensures names_kept { take (length symbols.old) symbols.new ≡ symbols.old }
    ensures kept { take (length nodes.old) nodes.new ≡ nodes.old }
{
    match quotes {
        DoubleQuotes::Codes => nodes.int(character as i64),
        _ => {
            let mut buffer = [0; 4];
            named_node(symbols, nodes, character.encode_utf8(&mut buffer))
        }
    }
}

fn char_nodes(
    alloc: Global,
    symbols: &mut Symbols,
    nodes: &mut Builder,
    quotes: DoubleQuotes,
    characters: &[char],
) -> Result<Vec<u64>, Memory>
    ensures shown { IfOk result (λ ns. ShowsTerms symbols.new nodes.new ns.items (map (char_term quotes) characters.now)) }
    ensures names_kept { take (length symbols.old) symbols.new ≡ symbols.old }
    ensures kept { take (length nodes.old) nodes.new ≡ nodes.old }
{
    let mut elements = Vec::new(alloc);
    for character in characters {
        elements.push(char_node(symbols, nodes, quotes, *character)?)?;
    }
    Ok(elements)
}

fn characters_of(alloc: Global, text: &str) -> Result<Vec<char>, Memory>
    ensures { IfOk result (λ cs. cs.items ≡ chars text.now) }
{
    let characters: Vec<char> = text.chars().collect(alloc)?;
    Ok(characters)
}

fn list_of_text(
    alloc: Global,
    symbols: &mut Symbols,
    nodes: &mut Builder,
    quotes: DoubleQuotes,
    text: &str,
) -> Result<u64, Memory>
    ensures shown { IfOk result (λ n. ShowsTerm symbols.new nodes.new n
        (list_of (codes ".") (atom (codes "[]")) (map (char_term quotes) (chars text.now)))) }
    ensures names_kept { take (length symbols.old) symbols.new ≡ symbols.old }
    ensures kept { take (length nodes.old) nodes.new ≡ nodes.old }
{
    let characters = characters_of(alloc, text)?;
    let elements = char_nodes(alloc, symbols, nodes, quotes, &characters)?;
    let end = named_node(symbols, nodes, "[]")?;
    let dot = symbols.intern(".")?;
    let list = list_node(nodes, dot, end, &elements)?;
    Ok(list)
}

/// The node of what text in double quotes stands for.
pub(crate) fn text_node(
    alloc: Global,
    symbols: &mut Symbols,
    nodes: &mut Builder,
    quotes: DoubleQuotes,
    text: &str,
) -> Result<u64, Memory>
    ensures shown { IfOk result (λ n. ShowsTerm symbols.new nodes.new n (text_term quotes text.now)) }
    ensures names_kept { take (length symbols.old) symbols.new ≡ symbols.old }
    ensures kept { take (length nodes.old) nodes.new ≡ nodes.old }
{
    match quotes {
        DoubleQuotes::Atom => named_node(symbols, nodes, text),
        DoubleQuotes::Codes => list_of_text(alloc, symbols, nodes, quotes, text),
        DoubleQuotes::Chars => list_of_text(alloc, symbols, nodes, quotes, text),
    }
}
