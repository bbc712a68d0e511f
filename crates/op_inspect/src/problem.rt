ghost use Rattle.std.specs.Prelude.{◌≡◌};
ghost use Rattle.op_inspect.specs.inner.Problems.{expected_word, domain_word};
ghost use Rattle.op_inspect.specs.Errors.{word_of};

use crate::fault::EvaluationError;
use op_bind::Ref;
use op_term::Sym;

/// The types that an argument may be wanted to have.
#[derive(Clone, Copy, Debug, PartialEq, Eq)]
pub enum Expected {
    Atom,
    Atomic,
    Compound,
    Integer,
    List,
}

/// The domains that an argument may be wanted to be in.
#[derive(Clone, Copy, Debug, PartialEq, Eq)]
pub enum Domain {
    NonEmptyList,
    NotLessThanZero,
    Order,
}

/// Why a builtin refuses its arguments (ISO/IEC 13211-1, 7.12.2).
#[derive(Clone, Copy)]
pub enum Problem {
    Instantiation,
    NotOfType(Expected, Ref),
    NotInDomain(Domain, Ref),
    /// A name and a number of arguments that are no function's.
    Evaluable(Sym, u64),
    Evaluation(EvaluationError),
}

impl Expected {
    /// The word that a ball has for it.
    pub(crate) fn word(self) -> &'static str
        ensures { result.now ≡ expected_word self }
    {
        match self {
            Expected::Atom => "atom",
            Expected::Atomic => "atomic",
            Expected::Compound => "compound",
            Expected::Integer => "integer",
            Expected::List => "list",
        }
    }
}

impl Domain {
    /// The word that a ball has for it.
    pub(crate) fn word(self) -> &'static str
        ensures { result.now ≡ domain_word self }
    {
        match self {
            Domain::NonEmptyList => "non_empty_list",
            Domain::NotLessThanZero => "not_less_than_zero",
            Domain::Order => "order",
        }
    }
}

impl EvaluationError {
    /// The word that a ball has for it.
    pub(crate) fn word(self) -> &'static str
        ensures { result.now ≡ word_of self }
    {
        match self {
            EvaluationError::Overflow => "int_overflow",
            EvaluationError::ZeroDivisor => "zero_divisor",
            EvaluationError::Undefined => "undefined",
        }
    }
}
