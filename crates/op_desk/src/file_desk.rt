ghost use Rattle.std.specs.Prelude.{◌≡◌, true, false, None};
ghost use Rattle.op_desk.specs.Frame.{Each};
ghost use Rattle.op_desk.specs.System.{unused_of, reading_faults_of, writing_faults_of};

use crate::by_chan::ByChan;
use crate::chan::Chan;
use crate::desk::Desk;
use crate::fail::one_more;
use crate::fault::DeskFault;
use crate::stream::{Stream, read_at};
use std::alloc::Global;
use std::io;

/// A desk over the files and the standard streams of the system. It tells nothing of what they hold. Until a channel is
/// attached, Commands is standard input, Talk standard output and Output standard error; Input is empty, and Note takes
/// nothing.
#[derive(Drop)]
pub struct FileDesk {
    rt: HostRuntime,
    streams: ByChan<Stream>,
    fresh: ByChan<bool>,
    read_faults: u64,
    write_faults: u64,
}

impl FileDesk {
    /// A desk that was not used.
    pub fn new(rt: HostRuntime, _alloc: Global) -> FileDesk
        ensures fresh { Each (λ c. unused_of result c ≡ true) }
        ensures read_faults { reading_faults_of result ≡ 0 }
        ensures write_faults { writing_faults_of result ≡ 0 }
    {
        FileDesk {
            rt,
            streams: ByChan::new(
                Stream::Input,
                Stream::Nothing,
                Stream::Error,
                Stream::Output,
                Stream::Nothing,
            ),
            fresh: ByChan::new(true, true, true, true, true),
            read_faults: 0,
            write_faults: 0,
        }
    }
}

// Want of memory is no fault of the system's.
fn is_memory(error: io::Error) -> bool {
    match error.kind() {
        io::ErrorKind::OutOfMemory => true,
        _ => false,
    }
}

impl Desk for FileDesk {
    ghost left = { λ d c. None };

    ghost written = { λ d c. None };

    ghost shelf = { λ d. None };

    ghost standard = { λ d c. None };

    ghost fresh = { unused_of };

    ghost steady = { λ d. false };

    ghost read_faults = { reading_faults_of };

    ghost write_faults = { writing_faults_of };

    fn attach(&mut self, chan: Chan, name: &str) -> Result<(), DeskFault> {
        let is_read = chan.is_read();
        match Stream::open(&self.rt, is_read, name) {
            Ok(stream) => {
                self.streams.set(chan, stream);
                self.fresh.set(chan, false);
                Ok(())
            }
            Err(error) => {
                if is_memory(error) {
                    return Err(DeskFault::Memory);
                }
                if is_read {
                    self.read_faults = one_more(self.read_faults);
                } else {
                    self.write_faults = one_more(self.write_faults);
                }
                Err(DeskFault::Failed)
            }
        }
    }

    fn take(&mut self, chan: Chan, into: &mut [u8]) -> Result<usize, DeskFault> {
        self.fresh.set(chan, false);
        match self.streams.get(chan).read(&self.rt, into) {
            Ok(count) => Ok(count),
            Err(error) => {
                if is_memory(error) {
                    return Err(DeskFault::Memory);
                }
                self.read_faults = one_more(self.read_faults);
                Err(DeskFault::Failed)
            }
        }
    }

    fn put(&mut self, chan: Chan, bytes: &[u8]) -> Result<usize, DeskFault> {
        self.fresh.set(chan, false);
        match self.streams.get(chan).write(&self.rt, bytes) {
            Ok(count) => Ok(count),
            Err(error) => {
                if is_memory(error) {
                    return Err(DeskFault::Memory);
                }
                self.write_faults = one_more(self.write_faults);
                Err(DeskFault::Failed)
            }
        }
    }

    fn fetch(&mut self, name: &str, from: u64, into: &mut [u8]) -> Result<usize, DeskFault> {
        match read_at(&self.rt, name, from, into) {
            Ok(count) => Ok(count),
            Err(error) => {
                if is_memory(error) {
                    return Err(DeskFault::Memory);
                }
                self.read_faults = one_more(self.read_faults);
                Err(DeskFault::Failed)
            }
        }
    }

    ghost tells = { λ d h. Prim.cc };
}
