ghost use Rattle.std.specs.Prelude.{◌≡◌, ◌+◌, ◌^◌, ◌<◌, ◌≤◌, None, Some, [], IfOk, OnOk, OnErr, length, min, take, drop};
ghost use Rattle.op_desk.specs.Source.{TakesFront, rest_of, content_of};

use crate::bytes::Bytes;
use op_base::Memory;
use std::alloc::Global;

/// What a channel that is read is connected with.
#[derive(Drop)]
pub(crate) enum Content {
    /// Nothing.
    Nothing,
    /// The standard stream.
    Standard,
    /// A file's bytes.
    File(Bytes),
}

/// The bytes of a channel that is read, with those of the standard stream.
#[derive(Drop)]
pub(crate) struct Source {
    standard: Bytes,
    content: Content,
    taken: usize,
}

impl Source {
    /// A source that is connected with the standard stream.
    pub(crate) fn connected(standard: Bytes) -> Source
        ensures rest { rest_of result ≡ standard }
        ensures standard { result.standard ≡ standard }
    {
        Source {
            standard,
            content: Content::Standard,
            taken: 0,
        }
    }

    /// A source that is connected with nothing.
    pub(crate) fn unconnected(standard: Bytes) -> Source
        ensures rest { rest_of result ≡ [] }
        ensures standard { result.standard ≡ standard }
    {
        Source {
            standard,
            content: Content::Nothing,
            taken: 0,
        }
    }

    /// Lends the bytes that were not yet taken.
    pub(crate) fn rest(&self) -> &[u8]
        ensures rest { result.now ≡ rest_of self.now }
        ensures fits { self.now.taken + length result.now < 2 ^ 64 }
    {
        rest_from(bytes_in(&self.content, &self.standard), self.taken)
    }

    /// Takes bytes into the buffer, as many as there are and fit.
    pub(crate) fn take(&mut self, into: &mut [u8]) -> usize
        ensures taken { TakesFront (rest_of self.old) (rest_of self.new) into.new result }
        ensures standard { self.new.standard ≡ self.old.standard }
    {
        let count = copy_front(self.rest(), into);
        self.taken += count;
        count
    }

    /// Attaches a copy of these bytes.
    pub(crate) fn attach(&mut self, alloc: Global, bytes: &[u8]) -> Result<(), Memory>
        ensures ok { OnOk result (rest_of self.new ≡ bytes.now) }
        ensures err { OnErr result (rest_of self.new ≡ rest_of self.old) }
        ensures standard { self.new.standard ≡ self.old.standard }
    {
        let mut copy = Bytes::new(alloc);
        copy.append(bytes)?;
        self.content = Content::File(copy);
        self.taken = 0;
        Ok(())
    }

    /// Goes back to the standard stream's first byte.
    pub(crate) fn attach_standard(&mut self)
        ensures rest { rest_of self.new ≡ self.old.standard }
        ensures standard { self.new.standard ≡ self.old.standard }
    {
        self.content = Content::Standard;
        self.taken = 0;
    }
}

fn bytes_in<'a>(content: &'a Content, standard: &'a Bytes) -> &'a [u8]
    ensures { result.now ≡ content_of content.now standard.now }
{
    match content {
        Content::Nothing => &[],
        Content::Standard => standard.as_slice(),
        Content::File(bytes) => bytes.as_slice(),
    }
}

fn rest_from(bytes: &[u8], taken: usize) -> &[u8]
    ensures rest { result.now ≡ drop taken bytes.now }
    ensures fits { taken + length result.now < 2 ^ 64 }
{
    let start = taken.min(bytes.len());
    &bytes[start..]
}

/// Copies a front of the bytes, as much as fits, and says how much.
pub(crate) fn copy_front(bytes: &[u8], into: &mut [u8]) -> usize
    ensures count { result ≡ min (length bytes.now) (length into.old) }
    ensures bytes { take result into.new ≡ take result bytes.now }
{
    let count = bytes.len().min(into.len());
    into[..count].copy_from_slice(&bytes[..count]);
    count
}
