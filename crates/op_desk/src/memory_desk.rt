ghost use Rattle.std.specs.Prelude.{◌≡◌, ℕ, ◌<◌, ◌⊎◌, ◌↔◌, Bool, true, false, Some, [], ◌++◌, refl, IsTrue, IsErr, IsErrOf, OnOk, OnErr};
ghost use Rattle.std.specs.Prelude.{IfOk, Contains, List, length};
ghost use Rattle.std.specs.Io.{ReadsAtMost, WritesAtMost};
ghost use Rattle.std.specs.Io.KnownBytes.{ReadConsumes, WriteAppends};
ghost use Rattle.op_desk.specs.Answer.{Counts, Steady, own_count, other_count};
ghost use Rattle.op_desk.specs.Channel.{is_read};
ghost use Rattle.op_desk.specs.Contents.{IsMissing, CannotAttach, Gives, attached, emptied};
ghost use Rattle.op_desk.specs.Frame.{Each, Same, SameBut, Becomes};
ghost use Rattle.op_desk.specs.Memory.{left_of, written_of, shelf_of, standard_of, fresh_of, failing_of, never_fails, read_faults_of};
ghost use Rattle.op_desk.specs.Memory.{write_faults_of, attaches_of, takes_of, puts_of, fetches_of, one_more, AttachFails, TakeFails};
ghost use Rattle.op_desk.specs.Memory.{PutFails, FetchFails, is_empty};
ghost use Rattle.op_desk.specs.Channels.{at};
ghost use Rattle.op_desk.specs.Source.{told};

use crate::by_chan::ByChan;
use crate::bytes::Bytes;
use crate::chan::Chan;
use crate::desk::Desk;
use crate::fail::{Fail, is_listed, one_more};
use crate::fault::DeskFault;
use crate::shelf::Shelf;
use crate::sources::Sources;
use std::alloc::Global;

/// A desk over bytes in memory, which tells all that it holds. Of its calls the listed ones fail, and those that read
/// a name that is not on the shelf.
#[derive(Drop)]
pub struct MemoryDesk {
    alloc: Global,
    shelf: Shelf,
    sources: Sources,
    written: ByChan<Bytes>,
    fresh: ByChan<bool>,
    failing: Vec<Fail>,
    attaches: u64,
    takes: ByChan<u64>,
    puts: ByChan<u64>,
    fetches: u64,
    read_faults: u64,
    write_faults: u64,
}

impl MemoryDesk {
    /// A desk that was not used. `commands` and `input` are what the name `-` means. Until a channel is attached,
    /// Commands has `commands` left, and Input nothing.
    pub fn new(
        alloc: Global,
        shelf: Shelf,
        commands: Bytes,
        input: Bytes,
        failing: Vec<Fail>,
    ) -> MemoryDesk
        ensures commands { left_of result Chan.Commands ≡ commands }
        ensures input { left_of result Chan.Input ≡ [] }
        ensures standard_commands { standard_of result Chan.Commands ≡ commands }
        ensures standard_input { standard_of result Chan.Input ≡ input }
        ensures written { Each (λ c. written_of result c ≡ []) }
        ensures shelf { shelf_of result ≡ shelf }
        ensures fresh { Each (λ c. fresh_of result c ≡ true) }
        ensures failing { failing_of result ≡ failing.items }
        ensures steady { never_fails result ≡ is_empty failing.items }
        ensures read_faults { read_faults_of result ≡ 0 }
        ensures write_faults { write_faults_of result ≡ 0 }
        ensures attaches { attaches_of result ≡ 0 }
        ensures takes { Each (λ c. takes_of result c ≡ 0) }
        ensures puts { Each (λ c. puts_of result c ≡ 0) }
        ensures fetches { fetches_of result ≡ 0 }
    {
        MemoryDesk {
            alloc,
            shelf,
            sources: Sources::new(commands, input),
            written: no_bytes(alloc),
            fresh: ByChan::new(true, true, true, true, true),
            failing,
            attaches: 0,
            takes: ByChan::new(0, 0, 0, 0, 0),
            puts: ByChan::new(0, 0, 0, 0, 0),
            fetches: 0,
            read_faults: 0,
            write_faults: 0,
        }
    }

    /// Lends the bytes that were put on a channel.
    pub fn bytes_written(&self, chan: Chan) -> &[u8]
        ensures { result.now ≡ written_of self.now chan }
    {
        self.written.get(chan).as_slice()
    }

    /// Lends the bytes that a channel has left: none, if it is written.
    pub fn bytes_left(&self, chan: Chan) -> &[u8]
        ensures left { result.now ≡ left_of self.now chan }
        ensures none { is_read chan ≡ false → result.now ≡ [] }
    {
        self.sources.rest(chan)
    }
}

fn no_bytes(alloc: Global) -> ByChan<Bytes>
    ensures { Each (λ c. at result c ≡ []) }
{
    let commands = Bytes::new(alloc);
    let input = Bytes::new(alloc);
    let output = Bytes::new(alloc);
    let talk = Bytes::new(alloc);
    let note = Bytes::new(alloc);
    ByChan::new(commands, input, output, talk, note)
}

impl Desk for MemoryDesk {
    ghost left = { λ d. told (left_of d) };

    ghost written = { λ d. told (written_of d) };

    ghost shelf = { λ d. Some (shelf_of d) };

    ghost standard = { λ d. told (standard_of d) };

    ghost fresh = { fresh_of };

    ghost steady = { never_fails };

    ghost read_faults = { read_faults_of };

    ghost write_faults = { write_faults_of };

    fn attach(&mut self, chan: Chan, name: &str) -> Result<(), DeskFault>
        requires { IsTrue (fresh_of self.old chan) }
        ensures reads { OnOk result (is_read chan ≡ true → Becomes chan
            (attached (Some (shelf_of self.old)) (Some (standard_of self.old chan)) name.now)
            (told (left_of self.old)) (told (left_of self.new))) }
        ensures writes { OnOk result (is_read chan ≡ false → Becomes chan
            (emptied (Some (written_of self.old chan))) (told (written_of self.old)) (told (written_of self.new))) }
        ensures left_stays { OnOk result (is_read chan ≡ false → Same (told (left_of self.old)) (told (left_of self.new))) }
        ensures written_stays { OnOk result (is_read chan ≡ true → Same (told (written_of self.old)) (told (written_of self.new))) }
        ensures used { OnOk result (Becomes chan false (fresh_of self.old) (fresh_of self.new)) }
        ensures err { OnErr result (Same (told (left_of self.old)) (told (left_of self.new))
            × Same (told (written_of self.old)) (told (written_of self.new)) × Same (fresh_of self.old) (fresh_of self.new)) }
        ensures missing { CannotAttach (Some (shelf_of self.old)) chan name.now → IsErr result }
        ensures same_shelf { shelf_of self.new ≡ shelf_of self.old }
        ensures same_standard { Same (told (standard_of self.old)) (told (standard_of self.new)) }
        ensures steady { Steady (never_fails self.old) (never_fails self.new)
            (CannotAttach (Some (shelf_of self.old)) chan name.now) result }
        ensures counts { Counts
            (own_count chan (read_faults_of self.old) (write_faults_of self.old))
            (own_count chan (read_faults_of self.new) (write_faults_of self.new))
            (other_count chan (read_faults_of self.old) (write_faults_of self.old))
            (other_count chan (read_faults_of self.new) (write_faults_of self.new)) result }
        ensures exactly { IsErrOf result DeskFault.Failed ↔ (AttachFails self.old ⊎ CannotAttach (Some (shelf_of self.old)) chan name.now) }
        ensures counted { attaches_of self.new ≡ one_more (attaches_of self.old) }
        ensures same_takes { Same (takes_of self.old) (takes_of self.new) }
        ensures same_puts { Same (puts_of self.old) (puts_of self.new) }
        ensures same_fetches { fetches_of self.new ≡ fetches_of self.old }
        ensures same_failing { failing_of self.new ≡ failing_of self.old }
    {
        self.attaches = one_more(self.attaches);
        let is_failing = is_listed(self.failing.as_slice(), Fail::Attach(self.attaches));
        if chan.is_read() {
            return match self
                .sources
                .attach(self.alloc, is_failing, &self.shelf, chan, name)
            {
                Ok(()) => {
                    self.fresh.set(chan, false);
                    Ok(())
                }
                Err(DeskFault::Memory) => Err(DeskFault::Memory),
                Err(DeskFault::Failed) => {
                    self.read_faults = one_more(self.read_faults);
                    Err(DeskFault::Failed)
                }
            };
        }
        if is_failing {
            self.write_faults = one_more(self.write_faults);
            return Err(DeskFault::Failed);
        }
        self.fresh.set(chan, false);
        self.written.set(chan, Bytes::new(self.alloc));
        Ok(())
    }

    fn take(&mut self, chan: Chan, into: &mut [u8]) -> Result<usize, DeskFault>
        ensures bound { ReadsAtMost result into.new }
        ensures bytes { ReadConsumes (Some (left_of self.old chan)) (Some (left_of self.new chan)) result into.new }
        ensures others { SameBut chan (told (left_of self.old)) (told (left_of self.new)) }
        ensures err { OnErr result (left_of self.new chan ≡ left_of self.old chan) }
        ensures same_written { Same (told (written_of self.old)) (told (written_of self.new)) }
        ensures used { Becomes chan false (fresh_of self.old) (fresh_of self.new) }
        ensures same_shelf { shelf_of self.new ≡ shelf_of self.old }
        ensures same_standard { Same (told (standard_of self.old)) (told (standard_of self.new)) }
        ensures steady { Steady (never_fails self.old) (never_fails self.new) ⊥ result }
        ensures counts { Counts (read_faults_of self.old) (read_faults_of self.new)
            (write_faults_of self.old) (write_faults_of self.new) result }
        ensures exactly { IsErrOf result DeskFault.Failed ↔ TakeFails self.old chan }
        ensures counted { Becomes chan (one_more (takes_of self.old chan)) (takes_of self.old) (takes_of self.new) }
        ensures same_attaches { attaches_of self.new ≡ attaches_of self.old }
        ensures same_puts { Same (puts_of self.old) (puts_of self.new) }
        ensures same_fetches { fetches_of self.new ≡ fetches_of self.old }
        ensures same_failing { failing_of self.new ≡ failing_of self.old }
    {
        let call = one_more(*self.takes.get(chan));
        self.takes.set(chan, call);
        self.fresh.set(chan, false);
        if is_listed(self.failing.as_slice(), Fail::Take(chan, call)) {
            self.read_faults = one_more(self.read_faults);
            return Err(DeskFault::Failed);
        }
        let count = self.sources.take(chan, into);
        Ok(count)
    }

    fn put(&mut self, chan: Chan, bytes: &[u8]) -> Result<usize, DeskFault>
        ensures bound { WritesAtMost result bytes.now }
        ensures some { 0 < length bytes.now → IfOk result (λ n. 0 < n) }
        ensures bytes { WriteAppends (Some (written_of self.old chan)) (Some (written_of self.new chan)) result bytes.now }
        ensures others { SameBut chan (told (written_of self.old)) (told (written_of self.new)) }
        ensures err { OnErr result (written_of self.new chan ≡ written_of self.old chan) }
        ensures same_left { Same (told (left_of self.old)) (told (left_of self.new)) }
        ensures used { Becomes chan false (fresh_of self.old) (fresh_of self.new) }
        ensures same_shelf { shelf_of self.new ≡ shelf_of self.old }
        ensures same_standard { Same (told (standard_of self.old)) (told (standard_of self.new)) }
        ensures steady { Steady (never_fails self.old) (never_fails self.new) ⊥ result }
        ensures counts { Counts (write_faults_of self.old) (write_faults_of self.new)
            (read_faults_of self.old) (read_faults_of self.new) result }
        ensures whole { IfOk result (λ n. n ≡ length bytes.now) }
        ensures exactly { IsErrOf result DeskFault.Failed ↔ PutFails self.old chan }
        ensures counted { Becomes chan (one_more (puts_of self.old chan)) (puts_of self.old) (puts_of self.new) }
        ensures same_attaches { attaches_of self.new ≡ attaches_of self.old }
        ensures same_takes { Same (takes_of self.old) (takes_of self.new) }
        ensures same_fetches { fetches_of self.new ≡ fetches_of self.old }
        ensures same_failing { failing_of self.new ≡ failing_of self.old }
    {
        let call = one_more(*self.puts.get(chan));
        self.puts.set(chan, call);
        self.fresh.set(chan, false);
        if is_listed(self.failing.as_slice(), Fail::Put(chan, call)) {
            self.write_faults = one_more(self.write_faults);
            return Err(DeskFault::Failed);
        }
        self.written.append(chan, bytes)?;
        Ok(bytes.len())
    }

    fn fetch(&mut self, name: &str, from: u64, into: &mut [u8]) -> Result<usize, DeskFault>
        ensures bound { ReadsAtMost result into.new }
        ensures bytes { IfOk result (λ n. Gives (Some (shelf_of self.old)) name.now from into.new n) }
        ensures missing { IsMissing (Some (shelf_of self.old)) name.now → IsErr result }
        ensures same_left { Same (told (left_of self.old)) (told (left_of self.new)) }
        ensures same_written { Same (told (written_of self.old)) (told (written_of self.new)) }
        ensures same_fresh { Same (fresh_of self.old) (fresh_of self.new) }
        ensures same_shelf { shelf_of self.new ≡ shelf_of self.old }
        ensures same_standard { Same (told (standard_of self.old)) (told (standard_of self.new)) }
        ensures steady { Steady (never_fails self.old) (never_fails self.new) (IsMissing (Some (shelf_of self.old)) name.now) result }
        ensures counts { Counts (read_faults_of self.old) (read_faults_of self.new)
            (write_faults_of self.old) (write_faults_of self.new) result }
        ensures exactly { IsErrOf result DeskFault.Failed ↔ (FetchFails self.old ⊎ IsMissing (Some (shelf_of self.old)) name.now) }
        ensures counted { fetches_of self.new ≡ one_more (fetches_of self.old) }
        ensures same_attaches { attaches_of self.new ≡ attaches_of self.old }
        ensures same_takes { Same (takes_of self.old) (takes_of self.new) }
        ensures same_puts { Same (puts_of self.old) (puts_of self.new) }
        ensures same_failing { failing_of self.new ≡ failing_of self.old }
    {
        self.fetches = one_more(self.fetches);
        if is_listed(self.failing.as_slice(), Fail::Fetch(self.fetches)) {
            self.read_faults = one_more(self.read_faults);
            return Err(DeskFault::Failed);
        }
        match self.shelf.read(name, from, into) {
            Some(count) => Ok(count),
            None => {
                self.read_faults = one_more(self.read_faults);
                Err(DeskFault::Failed)
            }
        }
    }

    ghost tells = { λ d h. refl };
}
