ghost use Rattle.std.specs.Prelude.{◌≡◌, ◌++◌, OnOk, OnErr};
ghost use Rattle.op_desk.specs.Channels.{at};
ghost use Rattle.op_desk.specs.Frame.{Becomes, Same};

use crate::bytes::Bytes;
use crate::chan::Chan;
use op_base::Memory;

/// A value for each channel.
#[derive(Drop)]
pub(crate) struct ByChan<T> {
    commands: T,
    input: T,
    output: T,
    talk: T,
    note: T,
}

impl<T> ByChan<T> {
    pub(crate) fn new(commands: T, input: T, output: T, talk: T, note: T) -> ByChan<T>
        ensures commands { result.commands ≡ commands }
        ensures input { result.input ≡ input }
        ensures output { result.output ≡ output }
        ensures talk { result.talk ≡ talk }
        ensures note { result.note ≡ note }
    {
        ByChan {
            commands,
            input,
            output,
            talk,
            note,
        }
    }

    /// Lends the channel's value.
    pub(crate) fn get(&self, chan: Chan) -> &T
        ensures { result.now ≡ at self.now chan }
    {
        match chan {
            Chan::Commands => &self.commands,
            Chan::Input => &self.input,
            Chan::Output => &self.output,
            Chan::Talk => &self.talk,
            Chan::Note => &self.note,
        }
    }

    /// Gives the channel another value.
    pub(crate) fn set(&mut self, chan: Chan, value: T)
    where
        T: Drop,
        ensures { Becomes chan value (at self.old) (at self.new) }
    {
        match chan {
            Chan::Commands => self.commands = value,
            Chan::Input => self.input = value,
            Chan::Output => self.output = value,
            Chan::Talk => self.talk = value,
            Chan::Note => self.note = value,
        }
    }
}

impl ByChan<Bytes> {
    /// Adds bytes at the end of the channel's.
    pub(crate) fn append(&mut self, chan: Chan, bytes: &[u8]) -> Result<(), Memory>
        ensures ok { OnOk result (Becomes chan (at self.old chan ++ bytes.now) (at self.old) (at self.new)) }
        ensures err { OnErr result (Same (at self.old) (at self.new)) }
    {
        match chan {
            Chan::Commands => self.commands.append(bytes),
            Chan::Input => self.input.append(bytes),
            Chan::Output => self.output.append(bytes),
            Chan::Talk => self.talk.append(bytes),
            Chan::Note => self.note.append(bytes),
        }
    }
}
