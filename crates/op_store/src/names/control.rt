//! The names of the control constructs (ISO/IEC 13211-1, 7.8), of the builtins of control (8.15 and 8.17) and of their errors (7.12.2), by
//! the numbers that they have in every store.

use op_term::Sym;

/// `true`.
pub const TRUE: Sym = Sym(0);
/// `fail`.
pub const FAIL: Sym = Sym(1);
/// `false`.
pub const FALSE: Sym = Sym(2);
/// `,`, of a conjunction.
pub const COMMA: Sym = Sym(3);
/// `;`, of a disjunction or an if-then-else.
pub const SEMICOLON: Sym = Sym(4);
/// `->`, of an if-then.
pub const ARROW: Sym = Sym(5);
/// `!`, a cut.
pub const CUT: Sym = Sym(6);
/// `call`, with any number of arguments.
pub const CALL: Sym = Sym(7);
/// `once`.
pub const ONCE: Sym = Sym(8);
/// `\+`.
pub const NOT: Sym = Sym(9);
/// `throw`.
pub const THROW: Sym = Sym(10);
/// `halt`.
pub const HALT: Sym = Sym(11);
/// `catch`.
pub const CATCH: Sym = Sym(12);
/// `error`, the name of error terms.
pub const ERROR: Sym = Sym(13);
/// `opium`, the second argument of error terms.
pub const OPIUM: Sym = Sym(14);
/// `instantiation_error`.
pub const INSTANTIATION_ERROR: Sym = Sym(15);
/// `type_error`.
pub const TYPE_ERROR: Sym = Sym(16);
/// `callable`.
pub const CALLABLE: Sym = Sym(17);
/// `integer`.
pub const INTEGER: Sym = Sym(18);
/// `existence_error`.
pub const EXISTENCE_ERROR: Sym = Sym(19);
/// `procedure`.
pub const PROCEDURE: Sym = Sym(20);
/// `/`.
pub const SLASH: Sym = Sym(21);
