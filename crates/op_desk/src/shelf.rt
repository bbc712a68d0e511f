ghost use Rattle.std.specs.Prelude.{◌≡◌, ◌<◌, ◌≤◌, [], ◌++◌, ◌∷◌, None, Some, OnOk, OnErr, IfOk, IfSome, IfNone, MatchOption, vec_len};
ghost use Rattle.std.specs.Prelude.{length, string_bytes, slice_index_or, slice_set};
ghost use Rattle.op_desk.specs.Contents.{FileGives, Gives, IsNamedOnce, bytes_of, with_file};
ghost use Rattle.op_desk.specs.inner.Entries.{files_of, Holds};

use crate::bytes::Bytes;
use crate::source::copy_front;
use op_base::Memory;
use std::alloc::Global;
use std::marker::Model;

/// A name with its bytes.
#[derive(Debug, Drop)]
struct Entry {
    name: Bytes,
    bytes: Bytes,
}

/// Files by name, each name once, in the order in which the names came.
#[derive(Drop)]
pub struct Shelf {
    alloc: Global,
    entries: Vec<Entry>,
}

impl Model for Shelf {
    ghost use Rattle.op_desk.specs.Contents.{Files, IsNamedOnce};

    ghost Value = { Files };

    ghost use Rattle.op_desk.specs.inner.Entries.{files_of};

    ghost view = { λ a. files_of a.entries.items };

    ghost invariant = { λ a. IsNamedOnce (files_of a.entries.items) };
}

impl Shelf {
    /// No files.
    pub fn new(alloc: Global) -> Shelf
        ensures { result ≡ [] }
    {
        Shelf {
            alloc,
            entries: Vec::new(alloc),
        }
    }

    /// Gives a name these bytes, in place of those that it had. A new name goes to the end.
    pub fn add(&mut self, name: &str, bytes: &[u8]) -> Result<(), Memory>
        ensures ok { OnOk result (self.new ≡ with_file self.old name.now bytes.now) }
        ensures err { OnErr result (self.new ≡ self.old) }
        ensures once { IsNamedOnce self.new }
    {
        let entry = entry_of(self.alloc, name, bytes)?;
        put_entry(&mut self.entries, entry)
    }

    /// Lends the bytes of a name, or None where the name is not there.
    pub(crate) fn find(&self, name: &str) -> Option<&Bytes>
        ensures { MatchOption result (bytes_of self.now name.now ≡ None)
            (λ bytes. bytes_of self.now name.now ≡ Some bytes.now) }
    {
        let place = place_of(&self.entries, name.as_bytes())?;
        Some(&self.entries[place].bytes)
    }

    /// Reads a file from a place on, or answers None where the name is not there.
    pub(crate) fn read(&self, name: &str, from: u64, into: &mut [u8]) -> Option<usize>
        ensures missing { IfNone result (bytes_of self.now name.now ≡ None) }
        ensures within { IfSome result (λ n. n ≤ length into.new) }
        ensures gives { IfSome result (λ n. Gives (Some self.now) name.now from into.new n) }
    {
        match self.find(name) {
            None => None,
            Some(bytes) => Some(copy_from(bytes.as_slice(), from, into)),
        }
    }
}

// Copies bytes from a place on into the buffer, as many as there are and fit.
fn copy_from(bytes: &[u8], from: u64, into: &mut [u8]) -> usize
    ensures within { result ≤ length into.new }
    ensures gives { FileGives bytes.now from into.new result }
{
    let start = from.min(bytes.len() as u64) as usize;
    copy_front(&bytes[start..], into)
}

fn entry_of(alloc: Global, name: &str, bytes: &[u8]) -> Result<Entry, Memory>
    ensures { IfOk result (λ entry. (entry.name ≡ name.now) × (entry.bytes ≡ bytes.now)) }
{
    let mut kept_name = Bytes::new(alloc);
    kept_name.append(name.as_bytes())?;
    let mut kept_bytes = Bytes::new(alloc);
    kept_bytes.append(bytes)?;
    Ok(Entry {
        name: kept_name,
        bytes: kept_bytes,
    })
}

// The place of the first entry of that name.
fn place_of(entries: &[Entry], name: &[u8]) -> Option<usize>
    ensures { MatchOption result (bytes_of (files_of entries.now) name.now ≡ None)
        (λ place. Holds entries.now name.now place) }
{
    for (i, entry) in entries.iter().enumerate() {
        if entry.name.as_slice() == name {
            return Some(i);
        }
    }
    None
}

// Puts the entry in the place of the one of its name, or at the end.
fn put_entry(entries: &mut Vec<Entry>, entry: Entry) -> Result<(), Memory>
    ensures ok { OnOk result (files_of entries.new.items ≡ with_file (files_of entries.old.items) entry.name entry.bytes) }
    ensures err { OnErr result (entries.new.items ≡ entries.old.items) }
    ensures once { IsNamedOnce (files_of entries.old.items) → IsNamedOnce (files_of entries.new.items) }
{
    match place_of(entries, entry.name.as_slice()) {
        Some(place) => {
            entries[place] = entry;
            Ok(())
        }
        None => {
            entries.push(entry)?;
            Ok(())
        }
    }
}
