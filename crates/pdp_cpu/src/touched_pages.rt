//! The first touches of the pages of core and of the drives.

ghost use Rattle.std.specs.Prelude.{◌≡◌, slice_index_or};
ghost use Rattle.pdp_store.specs.FirstTouches.{all_first_touches_before, first_touches_in};
ghost use Rattle.pdp_store.specs.FirstTouches.{first_turn, never};

use crate::machine::Machine;
use pdp_store::{Part, Store};

impl<S: Store, D: Store> Machine<S, D> {
    /// Returns the first turn with an access to a word of this page of a part. `None` if the page
    /// has no first touch, if every touch of it was forgotten, and if there is no such page. A page
    /// is 256 words; pages count from 0.
    pub fn first(&self, part: Part, page: usize) -> Option<u32>
        ensures { result ≡ first_turn
            (slice_index_or (first_touches_in part self.now.first_touches) page never) }
    {
        self.computer.bus.first(part, page)
    }

    /// Drops the first touches of this turn and of later turns; earlier ones stay. Takes no memory.
    pub fn forget(&mut self, turn: u32)
        ensures first_touches { self.new.first_touches
            ≡ all_first_touches_before turn self.old.first_touches }
        ensures state { self.new.state ≡ self.old.state }
        ensures kept_text { self.new.kept_text ≡ self.old.kept_text }
        ensures kept_punched { self.new.kept_punched ≡ self.old.kept_punched }
    {
        self.computer.bus.forget(turn);
    }
}
