/// At which port of its box a goal is seen (the box model of Byrd).
#[derive(Clone, Copy, Debug, PartialEq, Eq)]
pub enum Port {
    /// The goal is invoked.
    Call,
    /// The goal has succeeded.
    Exit,
    /// Backtracking enters the box again after an exit.
    Redo,
    /// The alternatives of the box are used up.
    Fail,
    /// A ball leaves the box while it is open.
    Exception,
}
