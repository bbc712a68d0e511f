/// The names that no clause may be for: the builtins, or the builtins and the commands of the analysis.
#[derive(Clone, Copy, Debug, PartialEq, Eq)]
pub enum Locked {
    Program,
    Analysis,
}
