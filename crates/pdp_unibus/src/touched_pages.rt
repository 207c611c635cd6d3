//! The first touches of the pages of core and of the drives.

ghost use Rattle.std.specs.Prelude.{◌≡◌, ◌<◌, [], length, map, slice_index_or, slice_set};
ghost use Rattle.pdp_store.specs.FirstTouches.{all_first_touches_before, first_touches_before};
ghost use Rattle.pdp_store.specs.FirstTouches.{first_touches_in, first_turn, never};
ghost use Rattle.pdp_unibus.specs.Handbook.BusWorld.{with_first_touches};

use crate::bus::Bus;
use crate::known::shut_all;
use pdp_store::{Part, Store};

impl<S: Store, D: Store> Bus<S, D> {
    /// Returns the first turn with an access to a word of this page of a part. `None` if the page
    /// has no first touch, if every touch of it was forgotten, and if there is no such page. A page
    /// is 256 words; pages count from 0.
    pub fn first(&self, part: Part, page: usize) -> Option<u32>
        ensures { result ≡ first_turn
            (slice_index_or (first_touches_in part self.now.first_touches) page never) }
    {
        match part {
            Part::Core => self.core.first(page),
            Part::Drive(number) => first_of(&self.drives, number, page),
        }
    }

    /// Drops the first touches of this turn and of later turns; earlier ones stay. Takes no memory.
    pub fn forget(&mut self, turn: u32)
        ensures { self.new
            ≡ with_first_touches self.old (all_first_touches_before turn self.old.first_touches) }
    {
        shut_all(&mut self.known);
        self.core.forget(turn);
        forget_each(&mut self.drives, turn);
    }
}

/// Returns the first touch of this page of the drive of this number; `None` if it isn't there.
#[tactic(auto, using(crate::proofs::SavedDrives::seen))]
fn first_of<D: Store>(drives: &Vec<D>, number: u8, page: usize) -> Option<u32>
    ensures { result ≡ first_turn (slice_index_or
        (slice_index_or (map D.first_touches drives.now.items) number []) page never) }
{
    drives.get(usize::from(number))?.first(page)
}

/// Drops the first touches of this turn and of later turns on each drive.
#[tactic(auto, using(crate::proofs::SavedDrives::same_for_one))]
fn forget_each<D: Store>(drives: &mut Vec<D>, turn: u32)
    ensures words { map D.words drives.new.items ≡ map D.words drives.old.items }
    ensures first_touches { map D.first_touches drives.new.items
        ≡ map (first_touches_before turn) (map D.first_touches drives.old.items) }
{
    for number in 0..drives.len() {
        forget_one(drives, turn, number);
    }
}

/// Drops them on the drive of this number.
#[tactic(auto, using(crate::proofs::Rules::changed_drive))]
fn forget_one<D: Store>(drives: &mut Vec<D>, turn: u32, number: usize)
    requires { number < length drives.old.items }
    ensures count { length drives.new.items ≡ length drives.old.items }
    ensures words { map D.words drives.new.items ≡ map D.words drives.old.items }
    ensures first_touches { map D.first_touches drives.new.items
        ≡ slice_set (map D.first_touches drives.old.items) number
        (first_touches_before turn
        (slice_index_or (map D.first_touches drives.old.items) number [])) }
{
    drives[number].forget(turn);
}
