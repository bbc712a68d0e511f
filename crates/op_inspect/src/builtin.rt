//! The builtins on terms by their names.

ghost use Rattle.std.specs.Prelude.{◌≡◌};
ghost use Rattle.op_inspect.specs.Inspected.{test_of as the_test, of_one as the_one, order_of as the_order, values_of as the_values};
ghost use Rattle.op_inspect.specs.Inspected.{of_two as the_two, of_three as the_three, relation_of as the_relation};

use crate::relation::Relation;
use crate::type_test::TypeTest;

/// Those of one argument.
#[derive(Clone, Copy, Debug, PartialEq, Eq)]
pub enum OfOne {
    Test(TypeTest),
    Ground,
}

/// Those of two arguments.
#[derive(Clone, Copy, Debug, PartialEq, Eq)]
pub enum OfTwo {
    Equal,
    Different,
    /// In the standard order.
    Order(Relation),
    /// Of the values of expressions.
    Values(Relation),
    Is,
    Univ,
    Copy,
    Variables,
}

/// Those of three arguments.
#[derive(Clone, Copy, Debug, PartialEq, Eq)]
pub enum OfThree {
    Functor,
    Arg,
    Compare,
}

fn test_of(name: &str) -> Option<TypeTest>
    ensures { result ≡ the_test name.now }
{
    if name == "var" {
        Some(TypeTest::Variable)
    } else if name == "nonvar" {
        Some(TypeTest::Nonvariable)
    } else if name == "atom" {
        Some(TypeTest::Atom)
    } else if name == "integer" {
        Some(TypeTest::Integer)
    } else if name == "number" {
        Some(TypeTest::Integer)
    } else if name == "atomic" {
        Some(TypeTest::Atomic)
    } else if name == "compound" {
        Some(TypeTest::Compound)
    } else if name == "callable" {
        Some(TypeTest::Callable)
    } else {
        None
    }
}

pub(crate) fn of_one(name: &str) -> Option<OfOne>
    ensures { result ≡ the_one name.now }
{
    if name == "ground" {
        return Some(OfOne::Ground);
    }
    match test_of(name) {
        Some(test) => Some(OfOne::Test(test)),
        None => None,
    }
}

fn order_of(name: &str) -> Option<Relation>
    ensures { result ≡ the_order name.now }
{
    if name == "==" {
        Some(Relation::Same)
    } else if name == "\\==" {
        Some(Relation::Different)
    } else if name == "@<" {
        Some(Relation::Below)
    } else if name == "@=<" {
        Some(Relation::AtMost)
    } else if name == "@>" {
        Some(Relation::Above)
    } else if name == "@>=" {
        Some(Relation::AtLeast)
    } else {
        None
    }
}

fn values_of(name: &str) -> Option<Relation>
    ensures { result ≡ the_values name.now }
{
    if name == "=:=" {
        Some(Relation::Same)
    } else if name == "=\\=" {
        Some(Relation::Different)
    } else if name == "<" {
        Some(Relation::Below)
    } else if name == "=<" {
        Some(Relation::AtMost)
    } else if name == ">" {
        Some(Relation::Above)
    } else if name == ">=" {
        Some(Relation::AtLeast)
    } else {
        None
    }
}

fn relation_of(order: Option<Relation>, values: Option<Relation>) -> Option<OfTwo>
    ensures { result ≡ the_relation order values }
{
    match (order, values) {
        (Some(relation), _) => Some(OfTwo::Order(relation)),
        (None, Some(relation)) => Some(OfTwo::Values(relation)),
        (None, None) => None,
    }
}

pub(crate) fn of_two(name: &str) -> Option<OfTwo>
    ensures { result ≡ the_two name.now }
{
    if name == "=" {
        Some(OfTwo::Equal)
    } else if name == "\\=" {
        Some(OfTwo::Different)
    } else if name == "is" {
        Some(OfTwo::Is)
    } else if name == "=.." {
        Some(OfTwo::Univ)
    } else if name == "copy_term" {
        Some(OfTwo::Copy)
    } else if name == "term_variables" {
        Some(OfTwo::Variables)
    } else {
        relation_of(order_of(name), values_of(name))
    }
}

pub(crate) fn of_three(name: &str) -> Option<OfThree>
    ensures { result ≡ the_three name.now }
{
    if name == "functor" {
        Some(OfThree::Functor)
    } else if name == "arg" {
        Some(OfThree::Arg)
    } else if name == "compare" {
        Some(OfThree::Compare)
    } else {
        None
    }
}
