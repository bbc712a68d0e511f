ghost use Rattle.std.specs.Prelude.{◌<◌, IfOk, length};
ghost use Rattle.std.specs.Io.{ReadsAtMost, WritesAtMost};

use std::fs::File;
use std::io;
use std::io::{Read, Seek, SeekFrom, Write};

/// What a channel of the system's desk is connected with.
#[derive(Drop)]
pub(crate) enum Stream {
    /// Nothing: it ends at once, and takes no bytes.
    Nothing,
    /// Standard input.
    Input,
    /// Standard output.
    Output,
    /// Standard error.
    Error,
    /// An open file.
    File(File),
}

impl Stream {
    /// Opens what a channel is attached to: the name `-` is a standard stream, another one a file. A file that is
    /// written begins empty.
    pub(crate) fn open(rt: &HostRuntime, is_read: bool, name: &str) -> io::Result<Stream> {
        if name == "-" {
            return Ok(if is_read {
                Stream::Input
            } else {
                Stream::Output
            });
        }
        let file = if is_read {
            File::open(rt, name)?
        } else {
            File::create(rt, name)?
        };
        Ok(Stream::File(file))
    }

    /// Reads the next bytes. Nothing is read ahead.
    pub(crate) fn read(&self, rt: &HostRuntime, into: &mut [u8]) -> io::Result<usize>
        ensures { ReadsAtMost result into.new }
    {
        match self {
            Stream::Input => rt.stdin().read(into),
            Stream::File(file) => {
                let mut file = file;
                file.read(into)
            }
            Stream::Nothing | Stream::Output | Stream::Error => Ok(0),
        }
    }

    /// Writes a front of the bytes, and flushes it.
    pub(crate) fn write(&self, rt: &HostRuntime, bytes: &[u8]) -> io::Result<usize>
        ensures bound { WritesAtMost result bytes.now }
        ensures some { 0 < length bytes.now → IfOk result (λ n. 0 < n) }
    {
        match self {
            Stream::Output => write_to(&mut rt.stdout(), bytes),
            Stream::Error => write_to(&mut rt.stderr(), bytes),
            Stream::File(file) => {
                let mut file = file;
                write_to(&mut file, bytes)
            }
            Stream::Nothing | Stream::Input if bytes.is_empty() => Ok(0),
            Stream::Nothing | Stream::Input => Err(io::Error::from(io::ErrorKind::WriteZero)),
        }
    }
}

fn write_to<W: Write>(to: &mut W, bytes: &[u8]) -> io::Result<usize>
    ensures bound { WritesAtMost result bytes.now }
    ensures some { 0 < length bytes.now → IfOk result (λ n. 0 < n) }
{
    if bytes.is_empty() {
        return Ok(0);
    }
    let count = to.write(bytes)?;
    to.flush()?;
    if count == 0 {
        return Err(io::Error::from(io::ErrorKind::WriteZero));
    }
    Ok(count)
}

/// Reads a file from a place on.
pub(crate) fn read_at(rt: &HostRuntime, name: &str, from: u64, into: &mut [u8]) -> io::Result<usize>
    ensures { ReadsAtMost result into.new }
{
    let mut file = File::open(rt, name)?;
    file.seek(SeekFrom::Start(from))?;
    file.read(into)
}
