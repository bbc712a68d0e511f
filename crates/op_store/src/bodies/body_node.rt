/// A node of a body: a goal, a variable `X` that stands for `call(X)`, or a control construct with the numbers of its two parts.
#[derive(Clone, Copy)]
pub enum BodyNode<P> {
    Goal(P),
    CallOf(P),
    And(u64, u64),
    Or(u64, u64),
    Then(u64, u64),
}
