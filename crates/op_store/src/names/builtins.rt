ghost use Rattle.std.specs.Prelude.{◌≡◌};
ghost use Rattle.op_store.specs.Locked.{builtins as the_builtins, calls, commands as the_commands, is_among as the_among, is_locked};
ghost use Rattle.op_trace.specs.Database.{name_arity};
ghost use Rattle.std.specs.Prelude.{bytes_eq};
ghost use Rattle.std.specs.List.{list_any};

use crate::names::locked::Locked;

fn is_among(name: &str, names: &[&str]) -> bool
    ensures { result ≡ list_any (λ n. bytes_eq name.now n.now) names.now }
{
    names.iter().any(|n| name == *n)
}

fn is_builtin(name: &str, arity: u64) -> bool
    ensures { result ≡ the_among (the_builtins arity) name.now }
{
    if arity == 0 {
        is_among(
            name,
            &["true", "fail", "false", "!", "repeat", "halt", "nl"],
        )
    } else if arity == 1 {
        is_among(
            name,
            &[
                "var",
                "nonvar",
                "atom",
                "integer",
                "number",
                "atomic",
                "compound",
                "callable",
                "ground",
                "call",
                "throw",
                "\\+",
                "once",
                "halt",
                "asserta",
                "assertz",
                "assert",
                "retract",
                "retractall",
                "abolish",
                "write",
                "print",
                "writeq",
                "write_canonical",
                "put_char",
                "get_char",
                "peek_char",
                "read",
            ],
        )
    } else if arity == 2 {
        is_among(
            name,
            &[
                ",",
                ";",
                "->",
                "-->",
                "=",
                "\\=",
                "==",
                "\\==",
                "@<",
                "@=<",
                "@>",
                "@>=",
                "=..",
                "copy_term",
                "term_variables",
                "is",
                "=:=",
                "=\\=",
                "<",
                "=<",
                ">",
                ">=",
                "call",
                "clause",
                "atom_length",
                "atom_chars",
                "atom_codes",
                "char_code",
                "number_chars",
                "number_codes",
                "set_prolog_flag",
            ],
        )
    } else if arity == 3 {
        is_among(
            name,
            &[
                "compare",
                "functor",
                "arg",
                "call",
                "catch",
                "findall",
                "atom_concat",
                "op",
            ],
        )
    } else if arity == 5 {
        is_among(name, &["call", "sub_atom"])
    } else {
        is_call(name, arity)
    }
}

// call/N, but for those with other names of as many arguments
fn is_call(name: &str, arity: u64) -> bool
    ensures { result ≡ the_among (calls arity) name.now }
{
    match arity {
        4 | 6 | 7 | 8 => is_among(name, &["call"]),
        _ => false,
    }
}

fn is_command(name: &str, arity: u64) -> bool
    ensures { result ≡ the_among (the_commands arity) name.now }
{
    if arity == 0 {
        is_among(
            name,
            &[
                "next",
                "prev",
                "first",
                "last",
                "parent",
                "finish",
                "retry",
                "failing_path",
                "stack",
                "profile",
                "more",
            ],
        )
    } else if arity == 1 {
        is_among(
            name,
            &[
                "goto",
                "seek",
                "seek_back",
                "fget",
                "bget",
                "place",
                "ending",
            ],
        )
    } else if arity == 3 {
        is_among(name, &["calls_tree"])
    } else if arity == 6 {
        is_among(name, &["event"])
    } else {
        false
    }
}

/// Whether no clause may be for a name with so many arguments.
pub(crate) fn is_locked_name(locked: Locked, name: &str, arity: u64) -> bool
    ensures { result ≡ is_locked locked (name_arity name.now arity) }
{
    match locked {
        Locked::Program => is_builtin(name, arity),
        Locked::Analysis => is_builtin(name, arity) || is_command(name, arity),
    }
}
