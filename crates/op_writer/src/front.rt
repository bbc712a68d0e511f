ghost use Rattle.std.specs.Prelude.{◌≡◌, ◌≤◌, ◌++◌, [], length, nat_lt, OnOk};
ghost use Rattle.op_writer.specs.Cut.{front_of};

use crate::cut::beginning;
use op_base::Memory;
use op_desk::Bytes;
use std::alloc::Global;

/// The front of a text that grows at its end: all of it, or one byte more than a limit. A full one takes no further bytes.
#[derive(Drop)]
pub struct Front {
    pub bytes: Bytes,
    pub limit: usize,
}

impl Front {
    pub fn new(alloc: Global, limit: usize) -> Front
        ensures bytes { result.bytes ≡ [] }
        ensures limit { result.limit ≡ limit }
    {
        Front {
            bytes: Bytes::new(alloc),
            limit,
        }
    }

    /// Whether there are more bytes than the limit.
    pub fn is_full(&self) -> bool
        ensures { result ≡ nat_lt self.now.limit (length self.now.bytes) }
    {
        self.bytes.len() > self.limit
    }

    /// Adds bytes, so far as they belong to it.
    pub fn add(&mut self, more: &[u8]) -> Result<(), Memory>
        requires room { length self.old.bytes ≤ self.old.limit }
        ensures bytes { OnOk result (self.new.bytes ≡ front_of self.old.limit (self.old.bytes ++ more.now)) }
        ensures limit { self.new.limit ≡ self.old.limit }
    {
        let room = self.limit - self.bytes.len();
        if more.len() <= room {
            return self.bytes.append(more);
        }
        self.bytes.append(beginning(more, room + 1))?;
        Ok(())
    }
}
