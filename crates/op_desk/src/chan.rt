ghost use Rattle.std.specs.Prelude.{◌≡◌};
ghost use Rattle.op_desk.specs.Channel.{is_read};

/// A channel of a desk. `Commands` and `Input` are read, the others are written.
#[derive(Clone, Copy, Debug, PartialEq, Eq)]
pub enum Chan {
    /// The commands of a session.
    Commands,
    /// The input of the traced program.
    Input,
    /// The output of the traced program.
    Output,
    /// The answers to the commands.
    Talk,
    /// The transcript.
    Note,
}

impl Chan {
    /// Whether the channel is read.
    pub fn is_read(self) -> bool
        ensures { result ≡ is_read self }
    {
        match self {
            Chan::Commands | Chan::Input => true,
            Chan::Output | Chan::Talk | Chan::Note => false,
        }
    }
}
