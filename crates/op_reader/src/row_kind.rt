/// The kind of a row says what a comma and a bar are in it.
#[derive(Clone, Copy, Debug)]
pub enum RowKind {
    /// A clause, or the inside of `( )` and `{ }`.
    Clause,
    /// The arguments of a compound.
    Arguments,
    /// The elements of a list.
    Elements,
    /// The tail of a list.
    Last,
}
