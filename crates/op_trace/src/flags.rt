use op_term::DoubleQuotes;

/// The flags of a program (ISO/IEC 13211-1, 7.11): what text in double quotes stands for, and whether a goal without a procedure fails
/// instead of raising an error.
#[derive(Clone, Copy, Debug, PartialEq, Eq)]
pub struct Flags {
    pub quotes: DoubleQuotes,
    pub unknown_fails: bool,
}
