/// What text in double quotes stands for.
#[derive(Clone, Copy, Debug, PartialEq, Eq)]
pub enum DoubleQuotes {
    /// The list of its characters' codes.
    Codes,
    /// The list of its characters, each an atom.
    Chars,
    /// The atom of that name.
    Atom,
}
