//! Terms that are made under bindings, with names by their texts.

ghost use Rattle.std.specs.Prelude.{◌≡◌, ◌<◌, IfOk, pos, codes, length};
ghost use Rattle.op_logic.specs.Term.{atom, int, node, arg, no_args};
ghost use Rattle.op_logic.specs.Names.{name_at};
ghost use Rattle.op_trace.specs.Body.{pair};
ghost use Rattle.op_trace.specs.Builtins.{error_of, instantiation_error};
ghost use Rattle.op_inspect.specs.Errors.{name_and_arity};
ghost use Rattle.op_inspect.specs.Outcomes.{text_at, IsKnown};
ghost use Rattle.op_inspect.specs.inner.Problems.{problem_text, IsKnownProblem};
ghost use Rattle.op_inspect.specs.inner.Settings.{Makes, Stays};

use crate::problem::Problem;
use op_base::Memory;
use op_bind::{Bindings, Ref};
use op_term::{Builder, Sym, Symbols};

/// An atom that has a number.
pub(crate) fn make_known_atom(
    name: Sym,
    symbols: &Symbols,
    bindings: &mut Bindings,
) -> Result<Ref, Memory>
    requires { name.0 < length symbols.now }
    ensures made { IfOk result (λ r. Makes symbols.now bindings.old symbols.now bindings.new r (atom (name_at symbols.now name.0))) }
    ensures stays { Stays symbols.now symbols.now bindings.old bindings.new }
{
    let _count = symbols.count();
    let mut builder = Builder::new(bindings.alloc());
    let root = builder.atom(name)?;
    bindings.load(&builder.finish(root), 0)
}

/// An atom.
pub(crate) fn make_atom(
    text: &str,
    symbols: &mut Symbols,
    bindings: &mut Bindings,
) -> Result<Ref, Memory>
    ensures made { IfOk result (λ r. Makes symbols.old bindings.old symbols.new bindings.new r (atom text.now)) }
    ensures stays { Stays symbols.old symbols.new bindings.old bindings.new }
{
    let name = symbols.intern(text)?;
    make_known_atom(name, symbols, bindings)
}

/// An integer.
pub(crate) fn make_integer(
    number: i64,
    symbols: &Symbols,
    bindings: &mut Bindings,
) -> Result<Ref, Memory>
    ensures made { IfOk result (λ r. Makes symbols.now bindings.old symbols.now bindings.new r (int number)) }
    ensures stays { Stays symbols.now symbols.now bindings.old bindings.new }
{
    let _count = symbols.count();
    let mut builder = Builder::new(bindings.alloc());
    let root = builder.int(number)?;
    bindings.load(&builder.finish(root), 0)
}

/// A compound of one part.
fn make_single(
    text: &str,
    part: &Ref,
    symbols: &mut Symbols,
    bindings: &mut Bindings,
) -> Result<Ref, Memory>
    requires part { IsKnown symbols.old bindings.old part.now }
    ensures made { IfOk result (λ r. Makes symbols.old bindings.old symbols.new bindings.new r
        (node text.now (arg (text_at symbols.old bindings.old part.now) no_args))) }
    ensures stays { Stays symbols.old symbols.new bindings.old bindings.new }
{
    let name = symbols.intern(text)?;
    bindings.compound(name, &[*part])
}

/// A compound of two parts.
pub(crate) fn make_pair(
    text: &str,
    first: &Ref,
    second: &Ref,
    symbols: &mut Symbols,
    bindings: &mut Bindings,
) -> Result<Ref, Memory>
    requires first { IsKnown symbols.old bindings.old first.now }
    requires second { IsKnown symbols.old bindings.old second.now }
    ensures made { IfOk result (λ r. Makes symbols.old bindings.old symbols.new bindings.new r
        (pair text.now (text_at symbols.old bindings.old first.now) (text_at symbols.old bindings.old second.now))) }
    ensures stays { Stays symbols.old symbols.new bindings.old bindings.new }
{
    let name = symbols.intern(text)?;
    bindings.compound(name, &[*first, *second])
}

// The ball of an error.
fn make_error(error: &Ref, symbols: &mut Symbols, bindings: &mut Bindings) -> Result<Ref, Memory>
    requires error { IsKnown symbols.old bindings.old error.now }
    ensures made { IfOk result (λ r. Makes symbols.old bindings.old symbols.new bindings.new r
        (error_of (text_at symbols.old bindings.old error.now))) }
    ensures stays { Stays symbols.old symbols.new bindings.old bindings.new }
{
    let origin = make_atom("opium", symbols, bindings)?;
    make_pair("error", error, &origin, symbols, bindings)
}

// The ball of an error that tells a word and a culprit.
fn make_culprit_error(
    kind: &str,
    word: &str,
    culprit: &Ref,
    symbols: &mut Symbols,
    bindings: &mut Bindings,
) -> Result<Ref, Memory>
    requires culprit { IsKnown symbols.old bindings.old culprit.now }
    ensures made { IfOk result (λ r. Makes symbols.old bindings.old symbols.new bindings.new r
        (error_of (pair kind.now (atom word.now) (text_at symbols.old bindings.old culprit.now)))) }
    ensures stays { Stays symbols.old symbols.new bindings.old bindings.new }
{
    let word = make_atom(word, symbols, bindings)?;
    let error = make_pair(kind, &word, culprit, symbols, bindings)?;
    make_error(&error, symbols, bindings)
}

// A name with a number of arguments.
fn make_indicator(
    name: Sym,
    arity: u64,
    symbols: &mut Symbols,
    bindings: &mut Bindings,
) -> Result<Ref, Memory>
    requires { name.0 < length symbols.old }
    ensures made { IfOk result (λ r. Makes symbols.old bindings.old symbols.new bindings.new r
        (name_and_arity (name_at symbols.old name.0) arity)) }
    ensures stays { Stays symbols.old symbols.new bindings.old bindings.new }
{
    let Ok(number) = i64::try_from(arity) else {
        return Err(Memory);
    };
    let name = make_known_atom(name, symbols, bindings)?;
    let count = make_integer(number, symbols, bindings)?;
    make_pair("/", &name, &count, symbols, bindings)
}

/// The ball of a problem.
pub(crate) fn make_ball(
    problem: Problem,
    symbols: &mut Symbols,
    bindings: &mut Bindings,
) -> Result<Ref, Memory>
    requires { IsKnownProblem symbols.old bindings.old problem }
    ensures made { IfOk result (λ r. Makes symbols.old bindings.old symbols.new bindings.new r
        (problem_text symbols.old bindings.old problem)) }
    ensures stays { Stays symbols.old symbols.new bindings.old bindings.new }
{
    match problem {
        Problem::Instantiation => {
            let error = make_atom("instantiation_error", symbols, bindings)?;
            make_error(&error, symbols, bindings)
        }
        Problem::NotOfType(expected, culprit) => {
            make_culprit_error("type_error", expected.word(), &culprit, symbols, bindings)
        }
        Problem::NotInDomain(domain, culprit) => {
            make_culprit_error("domain_error", domain.word(), &culprit, symbols, bindings)
        }
        Problem::Evaluable(name, arity) => {
            let culprit = make_indicator(name, arity, symbols, bindings)?;
            make_culprit_error("type_error", "evaluable", &culprit, symbols, bindings)
        }
        Problem::Evaluation(error) => {
            let word = make_atom(error.word(), symbols, bindings)?;
            let error = make_single("evaluation_error", &word, symbols, bindings)?;
            make_error(&error, symbols, bindings)
        }
    }
}
