//! The completion of what is under way, as one act.

ghost use Rattle.std.specs.Prelude.{◌≡◌, ℕ, ◌+◌, ◌*◌, ◌<◌, ◌≤◌, ◌-◌, ◌%◌, None, true, false, ◌&&◌};
ghost use Rattle.std.specs.Prelude.{length, map};
ghost use Rattle.pdp_word.specs.Physical.{physical_words};
ghost use Rattle.pdp_rk11.specs.Handbook.Completion.{address_after, rk_completed};
ghost use Rattle.pdp_rk11.specs.Handbook.Completion.{disk_address_after};
ghost use Rattle.pdp_rk11.specs.Handbook.Completion.{LosesStamps, drive_of, stored_world};
ghost use Rattle.pdp_rk11.specs.Handbook.Completion.{rk_finished, is_read_check, is_write_check};
ghost use Rattle.pdp_rk11.specs.Handbook.Completion.{lists_after, names_sector};
ghost use Rattle.pdp_rk11.specs.Handbook.Completion.{run_unless_refused, refusal, registers_after};
ghost use Rattle.pdp_rk11.specs.Handbook.Completion.{stop_of};
ghost use Rattle.pdp_rk11.specs.Handbook.Completion.{transfer_of, rk_transferred};
ghost use Rattle.pdp_rk11.specs.Handbook.Completion.{core_word_of_bus_address, within_core};
ghost use Rattle.pdp_rk11.specs.Handbook.Completion.{run_function};
ghost use Rattle.pdp_rk11.specs.Handbook.Completion.{words_asked, write_locked};
ghost use Rattle.pdp_rk11.specs.Handbook.Completion.{stamps_after, stamps_completed};
ghost use Rattle.pdp_rk11.specs.Handbook.Geometry.{drive_in, most_words_asked};
ghost use Rattle.pdp_rk11.specs.Handbook.Geometry.{sector_number};
ghost use Rattle.pdp_rk11.specs.Handbook.Geometry.{sectors_of_drive, words_of_sector};
ghost use Rattle.pdp_rk11.specs.Trace.{completion_touches, touches_unless_refused};
ghost use Rattle.pdp_rk11.specs.Trace.{transfer_touches};
ghost use Rattle.pdp_store.specs.FirstTouches.{first_touches_after};
ghost use Rattle.pdp_rk11.specs.Touched.{KeepsWritten, stored_touches};
ghost use Rattle.pdp_rk11.specs.Handbook.Transfer.{core_word, disk_word, is_different};

use crate::geometry::{
    MOST_WORDS, PHYSICAL_ADDRESSES, WORDS_OF_SECTOR, address_of_sector, drive_in, has_cylinder,
    has_sector, sector_number,
};
use crate::transfer::Transfer;
use crate::{Failure, Function, Rk};
use pdp_device::Operation;
use pdp_store::{Agent, Stamp, Store};

impl Rk {
    /// The function that is under way is done in this turn, as one act over core and the drives,
    /// numbered from 0 on: words move or are compared, the registers tell how it ended, and the
    /// controller is ready again. If none is under way, nothing happens.
    ///
    /// RKER tells the first of these that holds, and then nothing is moved: no drive if the drive
    /// isn't there; no cylinder, then no sector, if write, read, write check, seek or read check
    /// names one that no drive has; write locked if a locked drive would be written. It tells of a
    /// transfer that stops before its count is up: overrun past the last sector of the drive,
    /// otherwise no memory at an address outside core, which no read check asks for. A write check
    /// sets bit 0 if any word differs.
    ///
    /// Words read into core take the stamp of this turn and of the disk. A write fills the rest of
    /// its last sector with zeros. No word of a drive takes a stamp; if drives have any, a write
    /// takes those of the words that it writes away.
    ///
    /// The words that are moved, compared or checked are touched in this turn, in core and on the
    /// drive, and so are the words of the zero fill. A read check touches no word of core. None of
    /// this goes into a log of the processor's bus cycles.
    ///
    /// PDP-11 Peripherals Handbook, RK11; that it is one act, the order of the tests, the fill, and
    /// where the registers are left [6.72] [6.80] [6.93] [6.95] [6.96].
    #[tactic(auto, unfolding(crate::proofs::Rules::completions), using(crate::proofs::Rules::maps))]
    pub fn complete<S: Store, D: Store>(&mut self, core: &mut S, drives: &mut [D], turn: u32)
        ensures world { stored_world S.words S.stamps D.words self.new core.new drives.new
            ≡ rk_completed turn
            (stored_world S.words S.stamps D.words self.old core.old drives.old) }
        ensures stamps { map D.stamps drives.new
            ≡ stamps_completed (stored_world S.words S.stamps D.words self.old core.old drives.old)
            (map D.stamps drives.old) }
        ensures first_touches { stored_touches S.first_touches D.first_touches core.new drives.new
            ≡ first_touches_after (completion_touches turn
            (stored_world S.words S.stamps D.words self.old core.old drives.old))
            (stored_touches S.first_touches D.first_touches core.old drives.old) }
        ensures log { S.log core.new ≡ S.log core.old }
    {
        if self.operation.is_under_way() {
            self.run_unless_refused(core, drives, turn);
            self.finish_function();
        }
    }

    /// Ready again.
    fn finish_function(&mut self)
        ensures { self.new ≡ rk_finished self.old }
    {
        self.ready_enable.set_ready(true);
        self.operation = Operation::Idle;
    }

    /// What is under way, or why it can't be done.
    fn run_unless_refused<S: Store, D: Store>(&mut self, core: &mut S, drives: &mut [D], turn: u32)
        ensures world { stored_world S.words S.stamps D.words self.new core.new drives.new
            ≡ run_unless_refused (refusal self.old (length drives.old)) turn
            (stored_world S.words S.stamps D.words self.old core.old drives.old) }
        ensures stamps { LosesStamps D.stamps (refusal self.old (length drives.old))
            (stored_world S.words S.stamps D.words self.old core.old drives.old)
            drives.old drives.new }
        ensures first_touches { stored_touches S.first_touches D.first_touches core.new drives.new
            ≡ first_touches_after (touches_unless_refused (refusal self.old (length drives.old))
            turn
            (stored_world S.words S.stamps D.words self.old core.old drives.old))
            (stored_touches S.first_touches D.first_touches core.old drives.old) }
        ensures log { S.log core.new ≡ S.log core.old }
    {
        match self.refusal(drives.len()) {
            Some(failure) => self.failure = Some(failure),
            None => self.run_function(core, drives, turn),
        }
    }

    /// Why the function can't be done with this number of drives, if so.
    #[tactic(auto, unfolding(crate::specs::Handbook::Completion::refusal))]
    pub(crate) fn refusal(&self, drives: usize) -> Option<Failure>
        ensures value { result ≡ refusal self.now drives }
        ensures drive { result ≡ None → drive_in self.now.disk_address < drives }
        ensures sector { result ≡ None → names_sector self.now.function ≡ true
            → sector_number self.now.disk_address < sectors_of_drive }
    {
        if self.drive() >= drives {
            Some(Failure::NoDrive)
        } else if self.function.names_sector() && !has_cylinder(self.disk_address) {
            Some(Failure::NoCylinder)
        } else if self.function.names_sector() && !has_sector(self.disk_address) {
            Some(Failure::NoSector)
        } else if self.function == Function::Write && self.is_locked() {
            Some(Failure::WriteLocked)
        } else {
            None
        }
    }

    /// What the function does, if nothing forbids it.
    fn run_function<S: Store, D: Store>(&mut self, core: &mut S, drives: &mut [D], turn: u32)
        requires drive { drive_in self.old.disk_address < length drives.old }
        requires sector { names_sector self.old.function ≡ true → sector_number
            self.old.disk_address < sectors_of_drive }
        ensures world { stored_world S.words S.stamps D.words self.new core.new drives.new
            ≡ run_function self.old.function turn
            (stored_world S.words S.stamps D.words self.old core.old drives.old) }
        ensures stamps { LosesStamps D.stamps None
            (stored_world S.words S.stamps D.words self.old core.old drives.old)
            drives.old drives.new }
        ensures first_touches { stored_touches S.first_touches D.first_touches core.new drives.new
            ≡ first_touches_after (touches_unless_refused None turn
            (stored_world S.words S.stamps D.words self.old core.old drives.old))
            (stored_touches S.first_touches D.first_touches core.old drives.old) }
        ensures log { S.log core.new ≡ S.log core.old }
    {
        match self.function {
            Function::ControlReset => {}
            Function::Seek => self.search_complete = true,
            Function::DriveReset => self.search_complete = true,
            Function::WriteLock => self.lock(),
            Function::Write | Function::Read | Function::WriteCheck | Function::ReadCheck => {
                self.transfer(core, drives, turn)
            }
        }
    }

    /// The drive that RKDA names is locked, for good.
    fn lock(&mut self)
        ensures { self.new ≡ write_locked self.old }
    {
        let drive = self.drive();
        self.locked[drive] = true;
    }

    /// Words are moved or compared.
    #[tactic(auto, unfolding(crate::specs::rk_transferred), using(crate::proofs::Rules::maps))]
    fn transfer<S: Store, D: Store>(&mut self, core: &mut S, drives: &mut [D], turn: u32)
        requires drive { drive_in self.old.disk_address < length drives.old }
        requires sector { sector_number self.old.disk_address < sectors_of_drive }
        ensures world { stored_world S.words S.stamps D.words self.new core.new drives.new
            ≡ rk_transferred turn
            (stored_world S.words S.stamps D.words self.old core.old drives.old) }
        ensures stamps { LosesStamps D.stamps None
            (stored_world S.words S.stamps D.words self.old core.old drives.old)
            drives.old drives.new }
        ensures first_touches { stored_touches S.first_touches D.first_touches core.new drives.new
            ≡ first_touches_after (touches_unless_refused None turn
            (stored_world S.words S.stamps D.words self.old core.old drives.old))
            (stored_touches S.first_touches D.first_touches core.old drives.old) }
        ensures log { S.log core.new ≡ S.log core.old }
    {
        let size = drives[self.drive()].len();
        let transfer = self.transfer_of(core.len(), size);
        self.touch_words(transfer, core, drives, turn);
        let different = self.move_words(transfer, core, drives, turn);
        self.end_transfer(size, transfer, different);
    }

    /// The words of a transfer, with `words` words of core and a drive of `size` words.
    #[tactic(auto, unfolding(crate::specs::Handbook::Completion::transfer_of))]
    pub(crate) fn transfer_of(&self, words: usize, size: usize) -> Transfer
        requires { sector_number self.now.disk_address < sectors_of_drive }
        ensures value { result ≡ transfer_of self.now words size }
        ensures on_disk { (i : ℕ) → i < result.count → disk_word result i < size }
        ensures in_core { is_read_check self.now.function ≡ false → (i : ℕ) → i < result.count
            → core_word result i < words }
        ensures count { result.count ≤ most_words_asked }
        ensures core_start { result.core_start < physical_words }
        ensures aligned { result.disk_start % words_of_sector ≡ 0 }
        ensures disk_start { result.disk_start < sectors_of_drive * words_of_sector }
    {
        let disk_start = sector_number(self.disk_address) * WORDS_OF_SECTOR;
        let left = size.saturating_sub(disk_start as usize);
        let asked = self.words_asked() as usize;
        let count = asked.min(left.min(self.within_core(words)));
        Transfer {
            no_increment: self.no_increment,
            core_start: self.core_word(),
            disk_start,
            count: count as u32,
        }
    }

    /// The number of the word of core at the bus address.
    fn core_word(&self) -> u32
        ensures { result ≡ core_word_of_bus_address self.now.address }
    {
        self.address % PHYSICAL_ADDRESSES / 2
    }

    /// How many words were asked for.
    fn words_asked(&self) -> u32
        ensures { result ≡ words_asked self.now }
    {
        MOST_WORDS - u32::from(self.word_count)
    }

    /// How many of the words asked for come before an address outside a core of `words` words.
    fn within_core(&self, words: usize) -> usize
        ensures { result ≡ within_core self.now words }
    {
        let start = self.core_word() as usize;
        if self.function == Function::ReadCheck || self.no_increment && start < words {
            self.words_asked() as usize
        } else {
            words.saturating_sub(start)
        }
    }

    /// Touches the words of a transfer.
    #[tactic(auto, using(crate::proofs::Names::map_get, crate::proofs::Names::map_with))]
    fn touch_words<S: Store, D: Store>(
        &self,
        transfer: Transfer,
        core: &mut S,
        drives: &mut [D],
        turn: u32,
    )
        requires drive { drive_in self.now.disk_address < length drives.old }
        requires on_disk { (i : ℕ) → i < transfer.count
            → disk_word transfer i < length (drive_of
            (stored_world S.words S.stamps D.words self.now core.old drives.old)) }
        requires in_core { is_read_check self.now.function ≡ false → (i : ℕ) → i < transfer.count
            → core_word transfer i < length (S.words core.old) }
        requires aligned { transfer.disk_start % words_of_sector ≡ 0 }
        ensures core { KeepsWritten S.words S.stamps core.old core.new }
        ensures disks { map D.words drives.new ≡ map D.words drives.old }
        ensures stamps { map D.stamps drives.new ≡ map D.stamps drives.old }
        ensures first_touches { stored_touches S.first_touches D.first_touches core.new drives.new
            ≡ first_touches_after
            (transfer_touches self.now.function transfer (drive_in self.now.disk_address) turn)
            (stored_touches S.first_touches D.first_touches core.old drives.old) }
        ensures log { S.log core.new ≡ S.log core.old }
    {
        let drive = self.drive();
        transfer.touch(self.function, core, &mut drives[drive], turn);
    }

    /// Moves or compares the words. Whether a write check found words that differ.
    #[tactic(auto, using(crate::proofs::Names::map_get, crate::proofs::Names::map_with))]
    fn move_words<S: Store, D: Store>(
        &self,
        transfer: Transfer,
        core: &mut S,
        drives: &mut [D],
        turn: u32,
    ) -> bool
        requires drive { drive_in self.now.disk_address < length drives.old }
        requires on_disk { (i : ℕ) → i < transfer.count
            → disk_word transfer i < length (drive_of
            (stored_world S.words S.stamps D.words self.now core.old drives.old)) }
        requires in_core { is_read_check self.now.function ≡ false → (i : ℕ) → i < transfer.count
            → core_word transfer i < length (S.words core.old) }
        ensures words { stored_world S.words S.stamps D.words self.now core.new drives.new
            ≡ lists_after self.now.function transfer turn
            (stored_world S.words S.stamps D.words self.now core.old drives.old) }
        ensures stamps { map D.stamps drives.new
            ≡ stamps_after self.now.function transfer (drive_in self.now.disk_address)
            (map D.stamps drives.old) }
        ensures first_touches { stored_touches S.first_touches D.first_touches core.new drives.new
            ≡ stored_touches S.first_touches D.first_touches core.old drives.old }
        ensures different { result
            ≡ (is_write_check self.now.function
            && is_different transfer (S.words core.old)
            (drive_of (stored_world S.words S.stamps D.words self.now core.old drives.old))) }
        ensures log { S.log core.new ≡ S.log core.old }
    {
        let drive = self.drive();
        match self.function {
            Function::Read => {
                let agent = Agent::Disk;
                transfer.read(core, &drives[drive], Stamp { turn, agent });
                false
            }
            Function::Write => {
                transfer.write(core, &mut drives[drive]);
                false
            }
            Function::WriteCheck => transfer.is_different(core, &drives[drive]),
            _ => false,
        }
    }

    /// The registers tell how the transfer with a drive of this size (words) ended, and whether a
    /// write check differed.
    #[tactic(auto, unfolding(crate::specs::Handbook::Completion::registers_after))]
    fn end_transfer(&mut self, size: usize, transfer: Transfer, different: bool)
        requires count { transfer.count ≤ most_words_asked }
        requires core_start { transfer.core_start < physical_words }
        requires disk_start { transfer.disk_start < sectors_of_drive * words_of_sector }
        ensures { self.new ≡ registers_after size transfer different self.old }
    {
        *self = Rk {
            word_count: ((u32::from(self.word_count) + transfer.count) % MOST_WORDS) as u16,
            address: self.address_after(transfer),
            disk_address: self.disk_address_after(transfer),
            write_check: different,
            failure: self.stop_of(transfer, size),
            ..*self
        };
    }

    /// Where the bus address is left.
    fn address_after(&self, transfer: Transfer) -> u32
        requires count { transfer.count ≤ most_words_asked }
        requires core_start { transfer.core_start < physical_words }
        ensures { result ≡ address_after self.now transfer }
    {
        if self.no_increment || self.function == Function::ReadCheck {
            transfer.core_start * 2
        } else {
            (transfer.core_start + transfer.count) * 2
        }
    }

    /// Where the disk address is left: past the last sector in which a word was done.
    fn disk_address_after(&self, transfer: Transfer) -> u16
        requires count { transfer.count ≤ most_words_asked }
        requires disk_start { transfer.disk_start < sectors_of_drive * words_of_sector }
        ensures { result ≡ disk_address_after self.now.disk_address transfer }
    {
        if transfer.count == 0 {
            self.disk_address
        } else {
            let last = (transfer.disk_start + transfer.count - 1) / WORDS_OF_SECTOR;
            address_of_sector(drive_in(self.disk_address), last + 1)
        }
    }

    /// Why the transfer stopped before its end, if it did.
    fn stop_of(&self, transfer: Transfer, size: usize) -> Option<Failure>
        ensures { result ≡ stop_of transfer.count (words_asked self.now)
            (size - transfer.disk_start) }
    {
        if transfer.count == self.words_asked() {
            None
        } else if transfer.count as usize == size.saturating_sub(transfer.disk_start as usize) {
            Some(Failure::Overrun)
        } else {
            Some(Failure::NoMemory)
        }
    }
}
