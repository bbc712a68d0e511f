use op_term::Sym;

/// A procedure, by its name and how many arguments it has (ISO/IEC 13211-1, 7.5).
#[derive(Clone, Copy, Debug, PartialEq, Eq, Hash)]
pub struct Pi {
    pub name: Sym,
    pub arity: u64,
}
