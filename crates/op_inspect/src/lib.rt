//! Builtins on terms: unification, tests of types, comparison, construction, copies and arithmetic.
#![tactic(auto)]

mod argument;
mod arithmetic;
mod builtin;
mod comparison;
mod copies;
mod count;
mod division;
mod evaluation;
mod fault;
mod function;
mod functor;
mod inspection;
mod laws;
mod lists;
mod making;
mod naming;
mod outcome;
mod pending;
mod problem;
mod refusing;
mod relation;
mod skeleton;
mod throwing;
mod type_test;
mod unification;
mod univ;
mod value;
mod variables;

pub use arithmetic::evaluate;
pub use fault::EvalFault;
pub use inspection::{inspect, is_inspected};
pub use laws::{acts_keep_rules, acts_only_give_out};
pub use outcome::Outcome;
