ghost use Rattle.std.specs.Prelude.{◌≡◌, ◌<◌, ◌⊎◌, ◌↔◌, true, false, Some, None, IsTrue, IsErrOf, OnOk, OnErr, [], length, min, take};
ghost use Rattle.std.specs.Io.{ReadsAtMost};
ghost use Rattle.op_desk.specs.Channel.{is_read, is_dash};
ghost use Rattle.op_desk.specs.Contents.{attached, bytes_of};
ghost use Rattle.op_desk.specs.Frame.{Becomes, Same, SameBut};
ghost use Rattle.op_desk.specs.Source.{TakesFront, left_in, standard_in, told, rest_of};

use crate::bytes::Bytes;
use crate::chan::Chan;
use crate::fault::DeskFault;
use crate::shelf::Shelf;
use crate::source::Source;
use std::alloc::Global;

/// The sources of the two channels that are read.
#[derive(Drop)]
pub(crate) struct Sources {
    commands: Source,
    input: Source,
}

impl Sources {
    /// The sources over what `-` means. Commands is connected with it, and Input with nothing.
    pub(crate) fn new(commands: Bytes, input: Bytes) -> Sources
        ensures commands { left_in result Chan.Commands ≡ commands }
        ensures input { left_in result Chan.Input ≡ [] }
        ensures standard_commands { standard_in result Chan.Commands ≡ commands }
        ensures standard_input { standard_in result Chan.Input ≡ input }
    {
        Sources {
            commands: Source::connected(commands),
            input: Source::unconnected(input),
        }
    }

    /// Lends what a channel has left, which is nothing for a channel that is written.
    pub(crate) fn rest(&self, chan: Chan) -> &[u8]
        ensures { result.now ≡ left_in self.now chan }
    {
        match chan {
            Chan::Commands => self.commands.rest(),
            Chan::Input => self.input.rest(),
            Chan::Output | Chan::Talk | Chan::Note => &[],
        }
    }

    /// Takes bytes of a channel, as many as there are and fit.
    pub(crate) fn take(&mut self, chan: Chan, into: &mut [u8]) -> usize
        ensures taken { TakesFront (left_in self.old chan) (left_in self.new chan) into.new result }
        ensures others { SameBut chan (left_in self.old) (left_in self.new) }
        ensures standard { Same (standard_in self.old) (standard_in self.new) }
    {
        match chan {
            Chan::Commands => self.commands.take(into),
            Chan::Input => self.input.take(into),
            Chan::Output | Chan::Talk | Chan::Note => 0,
        }
    }

    /// Attaches the standard bytes or a copy of a file's bytes, unless the call is to fail.
    pub(crate) fn attach(
        &mut self,
        alloc: Global,
        is_failing: bool,
        shelf: &Shelf,
        chan: Chan,
        name: &str,
    ) -> Result<(), DeskFault>
        requires { is_read chan ≡ true }
        ensures ok { OnOk result (Becomes chan (attached (Some shelf.now) (Some (standard_in self.old chan)) name.now)
            (told (left_in self.old)) (told (left_in self.new))) }
        ensures err { OnErr result (Same (left_in self.old) (left_in self.new)) }
        ensures standard { Same (standard_in self.old) (standard_in self.new) }
        ensures exactly { IsErrOf result DeskFault.Failed
            ↔ (IsTrue is_failing ⊎ ((is_dash name.now ≡ false) × (bytes_of shelf.now name.now ≡ None))) }
    {
        match chan {
            Chan::Commands => {
                attach_source(alloc, is_failing, shelf, &mut self.commands, name)?;
                Ok(())
            }
            Chan::Input => {
                attach_source(alloc, is_failing, shelf, &mut self.input, name)?;
                Ok(())
            }
            Chan::Output | Chan::Talk | Chan::Note => unreachable!(),
        }
    }
}

fn attach_source(
    alloc: Global,
    is_failing: bool,
    shelf: &Shelf,
    source: &mut Source,
    name: &str,
) -> Result<(), DeskFault>
    ensures ok { OnOk result (attached (Some shelf.now) (Some source.old.standard) name.now ≡ Some (rest_of source.new)) }
    ensures err { OnErr result (rest_of source.new ≡ rest_of source.old) }
    ensures standard { source.new.standard ≡ source.old.standard }
    ensures exactly { IsErrOf result DeskFault.Failed
        ↔ (IsTrue is_failing ⊎ ((is_dash name.now ≡ false) × (bytes_of shelf.now name.now ≡ None))) }
{
    if is_failing {
        return Err(DeskFault::Failed);
    }
    if name == "-" {
        source.attach_standard();
        return Ok(());
    }
    match shelf.find(name) {
        None => Err(DeskFault::Failed),
        Some(bytes) => match source.attach(alloc, bytes.as_slice()) {
            Ok(()) => Ok(()),
            Err(_) => Err(DeskFault::Memory),
        },
    }
}
