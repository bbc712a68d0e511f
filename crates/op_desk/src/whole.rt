ghost use Rattle.std.specs.Prelude.{◌≡◌, ◌<◌, ◌≤◌, false, IsErr, IsErrOf, OnOk, OnErr, IfOk, length, take, drop, vec_len};
ghost use Rattle.std.specs.Io.{ReadsAtMost};
ghost use Rattle.std.specs.Io.KnownBytes.{Appends};
ghost use Rattle.op_desk.specs.Answer.{Counts, Steady, TakeCounts, TakeSteady};
ghost use Rattle.op_desk.specs.Contents.{AppendsFront, Gives, IsFile, IsLonger, IsMissing};
ghost use Rattle.op_desk.specs.Frame.{Same, SameBut};

use crate::bytes::Bytes;
use crate::chan::Chan;
use crate::desk::Desk;
use crate::fault::{DeskFault, TakeFault};
use op_base::Memory;
use std::alloc::Global;

// How many bytes of a file are asked for at a time.
const BLOCK: usize = 65536;

/// Puts all the bytes on a channel. After a fault a front of them was put.
pub fn put_all<D: Desk>(desk: &mut D, chan: Chan, bytes: &[u8]) -> Result<(), DeskFault>
    ensures ok { OnOk result (Appends (D.written desk.old chan) (D.written desk.new chan) bytes.now) }
    ensures front { AppendsFront (D.written desk.old chan) (D.written desk.new chan) bytes.now }
    ensures others { SameBut chan (D.written desk.old) (D.written desk.new) }
    ensures same_left { Same (D.left desk.old) (D.left desk.new) }
    ensures same_fresh { SameBut chan (D.fresh desk.old) (D.fresh desk.new) }
    ensures used { 0 < length bytes.now → D.fresh desk.new chan ≡ false }
    ensures unused { length bytes.now ≡ 0 → D.fresh desk.new chan ≡ D.fresh desk.old chan }
    ensures same_shelf { D.shelf desk.new ≡ D.shelf desk.old }
    ensures same_standard { Same (D.standard desk.old) (D.standard desk.new) }
    ensures steady { Steady (D.steady desk.old) (D.steady desk.new) ⊥ result }
    ensures counts { Counts (D.write_faults desk.old) (D.write_faults desk.new)
        (D.read_faults desk.old) (D.read_faults desk.new) result }
{
    let mut done = 0;
    while done < bytes.len() {
        done += desk.put(chan, &bytes[done..])?;
    }
    Ok(())
}

/// Takes a whole file of the shelf, of at most `limit` bytes.
pub fn take_all<D: Desk>(
    alloc: Global,
    desk: &mut D,
    name: &str,
    limit: u64,
) -> Result<Bytes, TakeFault>
    ensures ok { IfOk result (λ bytes. IsFile (D.shelf desk.old) name.now bytes) }
    ensures short { IfOk result (λ bytes. length bytes ≤ limit) }
    ensures too_long { IsErrOf result TakeFault.TooLong → IsLonger (D.shelf desk.old) name.now limit }
    ensures same_left { Same (D.left desk.old) (D.left desk.new) }
    ensures same_written { Same (D.written desk.old) (D.written desk.new) }
    ensures same_fresh { Same (D.fresh desk.old) (D.fresh desk.new) }
    ensures same_shelf { D.shelf desk.new ≡ D.shelf desk.old }
    ensures same_standard { Same (D.standard desk.old) (D.standard desk.new) }
    ensures steady { TakeSteady (D.steady desk.old) (D.steady desk.new)
        (IsMissing (D.shelf desk.old) name.now) result }
    ensures counts { TakeCounts (D.read_faults desk.old) (D.read_faults desk.new)
        (D.write_faults desk.old) (D.write_faults desk.new) result }
{
    let mut block = buffer(alloc)?;
    let mut bytes = Bytes::new(alloc);
    loop {
        let count = fetch_block(desk, name, bytes.len() as u64, &mut block)?;
        if count == 0 {
            return Ok(bytes);
        }
        if limit - (bytes.len() as u64) < count as u64 {
            return Err(TakeFault::TooLong);
        }
        bytes.append(&block[..count])?;
    }
}

// Room for one block.
fn buffer(alloc: Global) -> Result<Vec<u8>, Memory>
    ensures { IfOk result (λ v. 0 < vec_len v) }
{
    let block = vec![in alloc; 0u8; BLOCK]?;
    Ok(block)
}

// The desk's `fetch`, with its fault as that of a whole file.
fn fetch_block<D: Desk>(
    desk: &mut D,
    name: &str,
    from: u64,
    into: &mut [u8],
) -> Result<usize, TakeFault>
    ensures bound { ReadsAtMost result into.new }
    ensures bytes { IfOk result (λ n. Gives (D.shelf desk.old) name.now from into.new n) }
    ensures not_too_long { IsErrOf result TakeFault.TooLong → ⊥ }
    ensures same_left { Same (D.left desk.old) (D.left desk.new) }
    ensures same_written { Same (D.written desk.old) (D.written desk.new) }
    ensures same_fresh { Same (D.fresh desk.old) (D.fresh desk.new) }
    ensures same_shelf { D.shelf desk.new ≡ D.shelf desk.old }
    ensures same_standard { Same (D.standard desk.old) (D.standard desk.new) }
    ensures steady { TakeSteady (D.steady desk.old) (D.steady desk.new)
        (IsMissing (D.shelf desk.old) name.now) result }
    ensures counts { TakeCounts (D.read_faults desk.old) (D.read_faults desk.new)
        (D.write_faults desk.old) (D.write_faults desk.new) result }
{
    match desk.fetch(name, from, into) {
        Ok(count) => Ok(count),
        Err(DeskFault::Memory) => Err(TakeFault::Memory),
        Err(DeskFault::Failed) => Err(TakeFault::Failed),
    }
}
