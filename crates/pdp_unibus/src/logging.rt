//! A bus that keeps a log of the processor's cycles, made of one that keeps none, and back.

ghost use Rattle.std.specs.Prelude.{◌≡◌};
ghost use Rattle.pdp_store.specs.CycleLogs.{without_cycles, no_log};
ghost use Rattle.pdp_unibus.specs.Handbook.BusWorld.{with_log};

use crate::bus::Bus;
use crate::known::shut_all;
use pdp_store::{BusCycle, CycleLog, Logging, Paged, PagedDrive, Store};

impl<S: Store, D: Store> Bus<S, D> {
    /// The same bus, which puts each cycle of the processor into this log. Takes no memory.
    pub fn logging(self, log: CycleLog) -> Bus<Logging<S>, D>
        ensures { result ≡ with_log self log }
    {
        let mut known = self.known;
        shut_all(&mut known);
        Bus {
            turn: self.turn,
            known,
            core: Logging {
                store: self.core,
                log,
            },
            drives: self.drives,
            io_page: self.io_page,
            tape: self.tape,
            watch: self.watch,
            lines: self.lines,
        }
    }
}

impl<S: Store, D: Store> Bus<Logging<S>, D> {
    /// The cycles that the log has kept, in their order.
    pub fn cycles(&self) -> &[BusCycle]
        ensures { result.now ≡ self.now.log.told }
    {
        self.core.log.cycles()
    }

    /// Drops the cycles that the log has kept.
    pub fn clear_log(&mut self)
        ensures { self.new ≡ with_log self.old (without_cycles self.old.log) }
    {
        self.core.log.clear();
    }
}

impl Bus<Logging<Paged>, PagedDrive> {
    /// The same bus without its log. Takes no memory.
    pub fn unlogged(self) -> Bus<Paged, PagedDrive>
        ensures { result ≡ with_log self no_log }
    {
        let core = self.core;
        let mut known = self.known;
        shut_all(&mut known);
        Bus {
            turn: self.turn,
            known,
            core: core.store,
            drives: self.drives,
            io_page: self.io_page,
            tape: self.tape,
            watch: self.watch,
            lines: self.lines,
        }
    }
}
