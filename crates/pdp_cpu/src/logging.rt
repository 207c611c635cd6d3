//! A machine that keeps a log of the processor's bus cycles, made of one that keeps none, and back.

ghost use Rattle.std.specs.Prelude.{◌≡◌};
ghost use Rattle.pdp_store.specs.CycleLogs.{without_cycles, no_log};
ghost use Rattle.pdp_cpu.specs.Handbook.MachineState.{machine_with_log};

use crate::machine::Machine;
use pdp_quick::Computer;
use pdp_store::{BusCycle, CycleLog, Logging, Paged, PagedDrive, Store};

impl<S: Store, D: Store> Machine<S, D> {
    /// The same machine, which puts each bus cycle of its processor into this log. Takes no memory.
    pub fn logging(self, log: CycleLog) -> Machine<Logging<S>, D>
        ensures { result ≡ machine_with_log log self }
    {
        Machine {
            computer: Computer {
                processor: self.computer.processor,
                bus: self.computer.bus.logging(log),
            },
            turn: self.turn,
            text: self.text,
            punched: self.punched,
        }
    }
}

impl<S: Store, D: Store> Machine<Logging<S>, D> {
    /// The bus cycles that the log has kept, in their order.
    pub fn cycles(&self) -> &[BusCycle]
        ensures { result.now ≡ self.now.state.world.bus.log.told }
    {
        self.computer.bus.cycles()
    }

    /// Drops the bus cycles that the log has kept.
    pub fn clear_log(&mut self)
        ensures { self.new
            ≡ machine_with_log (without_cycles self.old.state.world.bus.log) self.old }
    {
        self.computer.bus.clear_log();
    }
}

impl Machine<Logging<Paged>, PagedDrive> {
    /// The same machine without its log. Takes no memory.
    pub fn unlogged(self) -> Machine<Paged, PagedDrive>
        ensures { result ≡ machine_with_log no_log self }
    {
        Machine {
            computer: Computer {
                processor: self.computer.processor,
                bus: self.computer.bus.unlogged(),
            },
            turn: self.turn,
            text: self.text,
            punched: self.punched,
        }
    }
}
