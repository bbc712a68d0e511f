ghost use Rattle.std.specs.Prelude.{◌≡◌, ℕ, ◌<◌, Bool, true, false, Option, IsTrue, IsSome, IsErr, OnOk, OnErr, IfOk, length};
ghost use Rattle.std.specs.Io.{ReadsAtMost, WritesAtMost};
ghost use Rattle.std.specs.Io.KnownBytes.{ReadConsumes, WriteAppends};
ghost use Rattle.op_desk.specs.declared.chan.Chan.{Chan};
ghost use Rattle.op_desk.specs.Answer.{Counts, Steady, own_count, other_count};
ghost use Rattle.op_desk.specs.Channel.{is_read};
ghost use Rattle.op_desk.specs.Contents.{Known, Files, IsMissing, CannotAttach, Gives, attached, emptied};
ghost use Rattle.op_desk.specs.Frame.{Same, SameBut, Becomes};

use crate::chan::Chan;
use crate::fault::DeskFault;

/// Five channels of bytes and a shelf of named files. A desk may tell what they hold; where it does, the clauses are
/// exact. Each fault of reading or writing raises a count.
pub trait Desk {
    /// The bytes of a channel that were not yet taken.
    ghost left: { Self → Chan → Known };

    /// The bytes that were put on a channel so far.
    ghost written: { Self → Chan → Known };

    /// The files by name.
    ghost shelf: { Self → Option Files };

    /// The bytes that the name `-` gives to a channel that is read.
    ghost standard: { Self → Chan → Known };

    /// Whether nothing was attached to, taken from or put on a channel.
    ghost fresh: { Self → Chan → Bool };

    /// Whether calls fail only for a name that is not on the shelf.
    ghost steady: { Self → Bool };

    /// How many faults of reading there were.
    ghost read_faults: { Self → ℕ };

    /// How many faults of writing there were.
    ghost write_faults: { Self → ℕ };

    /// Connects a channel with a file, or by `-` with a standard stream.
    fn attach(&mut self, chan: Chan, name: &str) -> Result<(), DeskFault>
        requires { IsTrue (fresh self.old chan) }
        ensures reads { OnOk result (is_read chan ≡ true → Becomes chan
            (attached (shelf self.old) (standard self.old chan) name.now) (left self.old) (left self.new)) }
        ensures writes { OnOk result (is_read chan ≡ false → Becomes chan
            (emptied (written self.old chan)) (written self.old) (written self.new)) }
        ensures left_stays { OnOk result (is_read chan ≡ false → Same (left self.old) (left self.new)) }
        ensures written_stays { OnOk result (is_read chan ≡ true → Same (written self.old) (written self.new)) }
        ensures used { OnOk result (Becomes chan false (fresh self.old) (fresh self.new)) }
        ensures err { OnErr result (Same (left self.old) (left self.new)
            × Same (written self.old) (written self.new) × Same (fresh self.old) (fresh self.new)) }
        ensures missing { CannotAttach (shelf self.old) chan name.now → IsErr result }
        ensures same_shelf { shelf self.new ≡ shelf self.old }
        ensures same_standard { Same (standard self.old) (standard self.new) }
        ensures steady { Steady (steady self.old) (steady self.new)
            (CannotAttach (shelf self.old) chan name.now) result }
        ensures counts { Counts
            (own_count chan (read_faults self.old) (write_faults self.old))
            (own_count chan (read_faults self.new) (write_faults self.new))
            (other_count chan (read_faults self.old) (write_faults self.old))
            (other_count chan (read_faults self.new) (write_faults self.new)) result };

    /// Takes the next bytes of a channel: some, or none at its end.
    fn take(&mut self, chan: Chan, into: &mut [u8]) -> Result<usize, DeskFault>
        ensures bound { ReadsAtMost result into.new }
        ensures bytes { ReadConsumes (left self.old chan) (left self.new chan) result into.new }
        ensures others { SameBut chan (left self.old) (left self.new) }
        ensures err { OnErr result (left self.new chan ≡ left self.old chan) }
        ensures same_written { Same (written self.old) (written self.new) }
        ensures used { Becomes chan false (fresh self.old) (fresh self.new) }
        ensures same_shelf { shelf self.new ≡ shelf self.old }
        ensures same_standard { Same (standard self.old) (standard self.new) }
        ensures steady { Steady (steady self.old) (steady self.new) ⊥ result }
        ensures counts { Counts (read_faults self.old) (read_faults self.new)
            (write_faults self.old) (write_faults self.new) result };

    /// Puts a front of the bytes on a channel: at least one byte, if there is one.
    fn put(&mut self, chan: Chan, bytes: &[u8]) -> Result<usize, DeskFault>
        ensures bound { WritesAtMost result bytes.now }
        ensures some { 0 < length bytes.now → IfOk result (λ n. 0 < n) }
        ensures bytes { WriteAppends (written self.old chan) (written self.new chan) result bytes.now }
        ensures others { SameBut chan (written self.old) (written self.new) }
        ensures err { OnErr result (written self.new chan ≡ written self.old chan) }
        ensures same_left { Same (left self.old) (left self.new) }
        ensures used { Becomes chan false (fresh self.old) (fresh self.new) }
        ensures same_shelf { shelf self.new ≡ shelf self.old }
        ensures same_standard { Same (standard self.old) (standard self.new) }
        ensures steady { Steady (steady self.old) (steady self.new) ⊥ result }
        ensures counts { Counts (write_faults self.old) (write_faults self.new)
            (read_faults self.old) (read_faults self.new) result };

    /// Reads a file from a place on: some bytes, or none at its end.
    fn fetch(&mut self, name: &str, from: u64, into: &mut [u8]) -> Result<usize, DeskFault>
        ensures bound { ReadsAtMost result into.new }
        ensures bytes { IfOk result (λ n. Gives (shelf self.old) name.now from into.new n) }
        ensures missing { IsMissing (shelf self.old) name.now → IsErr result }
        ensures same_left { Same (left self.old) (left self.new) }
        ensures same_written { Same (written self.old) (written self.new) }
        ensures same_fresh { Same (fresh self.old) (fresh self.new) }
        ensures same_shelf { shelf self.new ≡ shelf self.old }
        ensures same_standard { Same (standard self.old) (standard self.new) }
        ensures steady { Steady (steady self.old) (steady self.new) (IsMissing (shelf self.old) name.now) result }
        ensures counts { Counts (read_faults self.old) (read_faults self.new)
            (write_faults self.old) (write_faults self.new) result };

    /// A steady desk tells its shelf.
    ghost tells: { (desk : Self) → IsTrue (steady desk) → IsSome (shelf desk) };
}
