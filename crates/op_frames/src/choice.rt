use op_bind::Mark;

/// A choice point: the bindings to return to, the items that go on in the machine's own list, and what else the machine keeps with it,
/// first of all what is to be done on backtracking.
#[derive(Drop)]
pub struct Choice<T> {
    pub mark: Mark,
    pub rest: u64,
    pub kept: T,
}
