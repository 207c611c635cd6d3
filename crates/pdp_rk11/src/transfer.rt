//! The words of a transfer, moved or compared.

ghost use Rattle.std.specs.Prelude.{◌≡◌, ℕ, ◌+◌, ◌-◌, ◌*◌, ◌/◌, ◌^◌, ◌<◌, ◌%◌, None, false, length};
ghost use Rattle.std.specs.Prelude.{slice_index};
ghost use Rattle.pdp_rk11.specs.Handbook.Geometry.{words_of_sector};
ghost use Rattle.pdp_rk11.specs.Touched.{KeepsWritten, run_touched, after_steps};

use crate::Function;
use crate::geometry::WORDS_OF_SECTOR;
use pdp_store::{PAGE_WORDS, Stamp, Store};

/// The words that a transfer moves or compares: `count` words, starting at `core_start` in core and
/// at its first word on the drive.
#[derive(Clone, Copy)]
pub struct Transfer {
    /// The bus address isn't incremented: each move is of the first word of core.
    pub no_increment: bool,
    /// The number of the first word of core.
    pub core_start: u32,
    /// The number of the first word of the drive.
    pub disk_start: u32,
    /// How many words are done.
    pub count: u32,
}

impl Transfer {
    ghost use Rattle.pdp_rk11.specs.Handbook.Completion.{is_read_check};
    ghost use Rattle.pdp_rk11.specs.Touched.{core_after, disk_after, disk_touched};
    ghost use Rattle.pdp_rk11.specs.Touched.{fill_touched, after_steps, words_named};
    ghost use Rattle.pdp_rk11.specs.Moves.{moved_items, moved_to_one};
    ghost use Rattle.pdp_rk11.specs.Handbook.Transfer.{core_after_read, core_word, disk_word};
    ghost use Rattle.pdp_rk11.specs.Handbook.Transfer.{disk_written};
    ghost use Rattle.pdp_rk11.specs.Handbook.Transfer.{is_different, stamps_read};
    ghost use Rattle.pdp_rk11.specs.Handbook.Transfer.{moved_to_disk, rest_of_sector};
    ghost use Rattle.pdp_rk11.specs.Handbook.Transfer.{stamps_written};
    ghost use Rattle.pdp_rk11.specs.Handbook.Transfer.{without_stamps};

    /// A read: words of the drive go to core, with this stamp.
    pub(crate) fn read<S: Store, D: Store>(self, core: &mut S, disk: &D, stamp: Stamp)
        requires on_disk { (i : ℕ) → i < self.count → disk_word self i < length (D.words disk.now) }
        requires in_core { (i : ℕ) → i < self.count → core_word self i < length (S.words core.old) }
        ensures words { S.words core.new ≡ core_after_read self (D.words disk.now)
            (S.words core.old) }
        ensures stamps { S.stamps core.new ≡ stamps_read self stamp (S.stamps core.old) }
        ensures first_touches { S.first_touches core.new ≡ S.first_touches core.old }
        ensures log { S.log core.new ≡ S.log core.old }
    {
        if self.no_increment {
            self.read_last(core, disk, stamp);
        } else {
            self.read_all(core, disk, stamp);
        }
    }

    /// Each word goes to a word of its own.
    #[tactic(auto, using(crate::proofs::Rules::memory_moves))]
    fn read_all<S: Store, D: Store>(self, core: &mut S, disk: &D, stamp: Stamp)
        requires on_disk { (i : ℕ) → i < self.count → self.disk_start + i < length
            (D.words disk.now) }
        requires in_core { (i : ℕ) → i < self.count → self.core_start + i < length
            (S.words core.old) }
        ensures words { S.words core.new
            ≡ moved_items self.core_start self.count (λ i. slice_index (D.words disk.now)
            (self.disk_start + i)) (S.words core.old) }
        ensures stamps { S.stamps core.new
            ≡ moved_items self.core_start self.count (λ i. Some stamp)
            (S.stamps core.old) }
        ensures first_touches { S.first_touches core.new ≡ S.first_touches core.old }
        ensures log { S.log core.new ≡ S.log core.old }
    {
        let core_start = self.core_start as usize;
        let disk_start = self.disk_start as usize;
        for i in 0..self.count as usize {
            core.write(core_start + i, disk.read(disk_start + i), stamp);
        }
    }

    /// All words go to one word of core: the last stays.
    #[tactic(auto, using(crate::proofs::Rules::moves_to_one))]
    fn read_last<S: Store, D: Store>(self, core: &mut S, disk: &D, stamp: Stamp)
        requires on_disk { (i : ℕ) → i < self.count → self.disk_start + i < length
            (D.words disk.now) }
        requires in_core { (i : ℕ) → i < self.count → self.core_start < length (S.words core.old) }
        ensures words { S.words core.new
            ≡ moved_to_one self.core_start self.count (λ i. slice_index (D.words disk.now)
            (self.disk_start + i)) (S.words core.old) }
        ensures stamps { S.stamps core.new ≡ moved_to_one self.core_start self.count
            (λ i. Some stamp) (S.stamps core.old) }
        ensures first_touches { S.first_touches core.new ≡ S.first_touches core.old }
        ensures log { S.log core.new ≡ S.log core.old }
    {
        if self.count > 0 {
            let last = self.disk_start as usize + (self.count - 1) as usize;
            core.write(self.core_start as usize, disk.read(last), stamp);
        }
    }

    /// A write: words of core go to the drive, and zeros to the rest of the last sector.
    pub(crate) fn write<S: Store, D: Store>(self, core: &S, disk: &mut D)
        requires on_disk { (i : ℕ) → i < self.count → disk_word self i < length (D.words disk.old) }
        requires in_core { (i : ℕ) → i < self.count → core_word self i < length (S.words core.now) }
        ensures words { D.words disk.new ≡ disk_written self (S.words core.now) (D.words disk.old) }
        ensures stamps { D.stamps disk.new ≡ stamps_written self (D.stamps disk.old) }
        ensures first_touches { D.first_touches disk.new ≡ D.first_touches disk.old }
    {
        self.write_all(core, disk);
        self.fill_sector(disk);
    }

    /// Words of core go to the drive.
    #[tactic(auto, using(crate::proofs::Rules::memory_moves))]
    fn write_all<S: Store, D: Store>(self, core: &S, disk: &mut D)
        requires on_disk { (i : ℕ) → i < self.count → disk_word self i < length (D.words disk.old) }
        requires in_core { (i : ℕ) → i < self.count → core_word self i < length (S.words core.now) }
        ensures words { D.words disk.new ≡ moved_to_disk self (S.words core.now)
            (D.words disk.old) }
        ensures stamps { D.stamps disk.new
            ≡ without_stamps self.disk_start self.count (D.stamps disk.old) }
        ensures first_touches { D.first_touches disk.new ≡ D.first_touches disk.old }
    {
        let disk_start = self.disk_start as usize;
        for i in 0..self.count as usize {
            disk.set(disk_start + i, core.read(self.core_word(i)));
        }
    }

    /// Zeros go to the rest of the last sector.
    #[tactic(auto, using(crate::proofs::Rules::memory_moves))]
    fn fill_sector<D: Store>(self, disk: &mut D)
        ensures words { D.words disk.new
            ≡ moved_items (disk_word self self.count) (rest_of_sector self) (λ i. 0)
            (D.words disk.old) }
        ensures stamps { D.stamps disk.new
            ≡ without_stamps (disk_word self self.count) (rest_of_sector self)
            (D.stamps disk.old) }
        ensures first_touches { D.first_touches disk.new ≡ D.first_touches disk.old }
    {
        let start = self.disk_start as usize + self.count as usize;
        let left = disk.len().saturating_sub(start);
        for i in 0..self.rest_of_sector().min(left) {
            disk.set(start + i, 0);
        }
    }

    /// Whether any word of core differs from the drive's.
    pub(crate) fn is_different<S: Store, D: Store>(self, core: &S, disk: &D) -> bool
        requires on_disk { (i : ℕ) → i < self.count → disk_word self i < length (D.words disk.now) }
        requires in_core { (i : ℕ) → i < self.count → core_word self i < length (S.words core.now) }
        ensures { result ≡ is_different self (S.words core.now) (D.words disk.now) }
    {
        let disk_start = self.disk_start as usize;
        let mut different = false;
        for i in 0..self.count as usize {
            different = core.read(self.core_word(i)) != disk.read(disk_start + i) || different;
        }
        different
    }

    /// Touches the words of the transfer: each word that it moves, compares or checks, and each
    /// word that a write fills with zeros. A read check touches no word of core.
    pub(crate) fn touch<S: Store, D: Store>(
        self,
        function: Function,
        core: &mut S,
        disk: &mut D,
        turn: u32,
    )
        requires on_disk { (i : ℕ) → i < self.count → disk_word self i < length (D.words disk.old) }
        requires in_core { is_read_check function ≡ false → (i : ℕ) → i < self.count
            → core_word self i < length (S.words core.old) }
        requires aligned { self.disk_start % words_of_sector ≡ 0 }
        ensures core { KeepsWritten S.words S.stamps core.old core.new }
        ensures disk { KeepsWritten D.words D.stamps disk.old disk.new }
        ensures core_first_touches { S.first_touches core.new
            ≡ core_after function self turn (S.first_touches core.old) }
        ensures disk_first_touches { D.first_touches disk.new
            ≡ disk_after function self turn (D.first_touches disk.old) }
        ensures log { S.log core.new ≡ S.log core.old }
    {
        self.touch_core(function, core, turn);
        self.touch_disk(function, disk, turn);
        if function == Function::Write {
            self.touch_fill(disk, turn);
        }
    }

    /// Touches the words of core of the moves.
    fn touch_core<S: Store>(self, function: Function, core: &mut S, turn: u32)
        requires in_core { is_read_check function ≡ false → (i : ℕ) → i < self.count
            → core_word self i < length (S.words core.old) }
        ensures kept { KeepsWritten S.words S.stamps core.old core.new }
        ensures first_touches { S.first_touches core.new
            ≡ core_after function self turn (S.first_touches core.old) }
        ensures log { S.log core.new ≡ S.log core.old }
    {
        match function {
            Function::Read | Function::Write | Function::WriteCheck => {
                let count = self.words_named();
                touch_run(core, self.core_start as usize, count as usize, turn);
            }
            _ => {}
        }
    }

    /// How many words of core the moves name.
    fn words_named(self) -> u32
        ensures { result ≡ words_named self }
    {
        if self.no_increment {
            self.count.min(1)
        } else {
            self.count
        }
    }

    /// Touches the words of the drive of the moves.
    fn touch_disk<D: Store>(self, function: Function, disk: &mut D, turn: u32)
        requires on_disk { (i : ℕ) → i < self.count → disk_word self i < length (D.words disk.old) }
        ensures kept { KeepsWritten D.words D.stamps disk.old disk.new }
        ensures first_touches { D.first_touches disk.new
            ≡ after_steps (disk_touched function self turn) self.count (D.first_touches disk.old) }
    {
        match function {
            Function::Read | Function::Write | Function::WriteCheck | Function::ReadCheck => {
                touch_run(disk, self.disk_start as usize, self.count as usize, turn);
            }
            _ => {}
        }
    }

    /// Touches the words that a write fills with zeros, which are in the page of its last word.
    fn touch_fill<D: Store>(self, disk: &mut D, turn: u32)
        requires on_disk { (i : ℕ) → i < self.count → disk_word self i < length (D.words disk.old) }
        requires aligned { self.disk_start % words_of_sector ≡ 0 }
        ensures kept { KeepsWritten D.words D.stamps disk.old disk.new }
        ensures first_touches { D.first_touches disk.new
            ≡ after_steps (fill_touched self turn) (rest_of_sector self)
            (D.first_touches disk.old) }
    {
        let start = self.disk_start as usize + self.count as usize;
        touch_run(disk, start, self.rest_of_sector(), turn);
    }

    /// The number of the word of core of move i, counted from 0.
    #[inline(always)]
    fn core_word(self, i: usize) -> usize
        requires { i < self.count }
        ensures { result ≡ core_word self i }
    {
        if self.no_increment {
            self.core_start as usize
        } else {
            self.core_start as usize + i
        }
    }

    /// How many words are left of the last sector.
    fn rest_of_sector(self) -> usize
        ensures { result ≡ rest_of_sector self }
    {
        let count = self.count as usize;
        let words = WORDS_OF_SECTOR as usize;
        count.div_ceil(words) * words - count
    }
}

/// Touches `count` words from word `start` on. Each page is touched once, by its first word.
fn touch_run<S: Store>(store: &mut S, start: usize, count: usize, turn: u32)
    requires room { 0 < count → (start + count - 1) / 256 * 256 < length (S.words store.old) }
    requires range { start + count < 2 ^ 40 }
    ensures kept { KeepsWritten S.words S.stamps store.old store.new }
    ensures first_touches { S.first_touches store.new
        ≡ after_steps (run_touched start turn) count (S.first_touches store.old) }
    ensures log { S.log store.new ≡ S.log store.old }
{
    if count > 0 {
        let last = (start + count - 1) / PAGE_WORDS;
        for page in start / PAGE_WORDS..last + 1 {
            store.touch(page * PAGE_WORDS, turn);
        }
    }
}
