//! A store with a log of bus cycles beside it.

ghost use Rattle.std.specs.Prelude.{◌≡◌, ◌<◌, length, nat_lt};
ghost use Rattle.pdp_store.specs.Stored.{HasLastOfEachOrNone};

use crate::{BusCycle, CycleLog, Stamp, Store};

/// A store, and a log of the bus cycles that are noted there.
#[derive(Drop)]
pub struct Logging<S> {
    pub store: S,
    pub log: CycleLog,
}

impl<S: Store> Store for Logging<S> {
    ghost words = { λ s. S.words s.store };

    ghost stamps = { λ s. S.stamps s.store };

    ghost first_touches = { λ s. S.first_touches s.store };

    ghost log = { λ s. s.log };

    fn len(&self) -> usize {
        self.store.len()
    }

    fn read(&self, i: usize) -> u16 {
        self.store.read(i)
    }

    fn write(&mut self, i: usize, w: u16, stamp: Stamp) {
        self.store.write(i, w, stamp);
    }

    fn last(&self, i: usize) -> Option<Stamp> {
        self.store.last(i)
    }

    fn set(&mut self, i: usize, w: u16) {
        self.store.set(i, w);
    }

    fn touch(&mut self, i: usize, turn: u32) {
        self.store.touch(i, turn);
    }

    fn first(&self, page: usize) -> Option<u32> {
        self.store.first(page)
    }

    fn is_touched(&self, i: usize, turn: u32) -> bool {
        self.store.is_touched(i, turn)
    }

    fn is_quiet_read(&self, i: usize, turn: u32) -> bool {
        !self.log.has_room() && self.store.is_touched(i, turn)
    }

    fn forget(&mut self, turn: u32) {
        self.store.forget(turn);
    }

    fn note(&mut self, cycle: BusCycle) {
        self.log.note(cycle);
    }

    fn is_logging(&self) -> bool {
        self.log.has_room()
    }
}
