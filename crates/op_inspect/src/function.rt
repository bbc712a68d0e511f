//! The functions of arithmetic by their names (ISO/IEC 13211-1, 9.1, 9.3 and 9.4).

ghost use Rattle.std.specs.Prelude.{◌≡◌};
ghost use Rattle.op_inspect.specs.Arithmetic.{unary_of as the_unary, binary_of as the_binary, other_binary_of as the_other};

/// The functions of one argument.
#[derive(Clone, Copy, Debug, PartialEq, Eq)]
pub enum Unary {
    Identity,
    Negation,
    Magnitude,
    Sign,
    Complement,
}

/// The functions of two arguments.
#[derive(Clone, Copy, Debug, PartialEq, Eq)]
pub enum Binary {
    Sum,
    Difference,
    Product,
    /// The quotient, cut toward zero.
    Quotient,
    /// What is left behind it.
    Remainder,
    /// The quotient, rounded down.
    Floor,
    /// What is left behind that.
    Modulus,
    Least,
    Greatest,
    And,
    Or,
    ShiftLeft,
    ShiftRight,
}

/// The function of one argument with a name.
pub fn unary_of(name: &str) -> Option<Unary>
    ensures { result ≡ the_unary name.now }
{
    if name == "+" {
        Some(Unary::Identity)
    } else if name == "-" {
        Some(Unary::Negation)
    } else if name == "abs" {
        Some(Unary::Magnitude)
    } else if name == "sign" {
        Some(Unary::Sign)
    } else if name == "\\" {
        Some(Unary::Complement)
    } else {
        None
    }
}

/// The function of two arguments with a name.
pub fn binary_of(name: &str) -> Option<Binary>
    ensures { result ≡ the_binary name.now }
{
    if name == "+" {
        Some(Binary::Sum)
    } else if name == "-" {
        Some(Binary::Difference)
    } else if name == "*" {
        Some(Binary::Product)
    } else if name == "//" {
        Some(Binary::Quotient)
    } else if name == "rem" {
        Some(Binary::Remainder)
    } else if name == "div" {
        Some(Binary::Floor)
    } else if name == "mod" {
        Some(Binary::Modulus)
    } else {
        other_binary_of(name)
    }
}

fn other_binary_of(name: &str) -> Option<Binary>
    ensures { result ≡ the_other name.now }
{
    if name == "min" {
        Some(Binary::Least)
    } else if name == "max" {
        Some(Binary::Greatest)
    } else if name == "/\\" {
        Some(Binary::And)
    } else if name == "\\/" {
        Some(Binary::Or)
    } else if name == "<<" {
        Some(Binary::ShiftLeft)
    } else if name == ">>" {
        Some(Binary::ShiftRight)
    } else {
        None
    }
}
