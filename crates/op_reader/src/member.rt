use crate::word::Operator;

/// An operand, which is a node, or an operator.
#[derive(Clone, Copy, Debug)]
pub(crate) enum Member {
    Operand(u64),
    Operator(Operator),
}
