//! Logged branches: a second machine in a state of the run, which keeps a log of the bus cycles of
//! its processor.

ghost use Rattle.std.specs.Prelude.{◌≡◌, ◌+◌, ◌-◌, ◌<◌, ◌≤◌, min, IfOk, IsErr, OnOk};
ghost use Rattle.pdp_store.specs.CycleLogs.{without_cycles};
ghost use Rattle.pdp_cpu.specs.Handbook.MachineState.{after_turn, state_with_log, world_with_log};
ghost use Rattle.pdp_cpu.specs.Handbook.Turn.{turn_act};
ghost use Rattle.pdp_script.specs.Entries.{events_at};
ghost use Rattle.pdp_replay.specs.Past.{Past};
ghost use Rattle.pdp_replay.specs.Run.Branches.{IsKeptOfSize, IsLookedAt, IsRunOfSize};
ghost use Rattle.pdp_replay.specs.Run.KeptRuns.{KeepsRun, MetersTurns};
ghost use Rattle.pdp_replay.specs.Run.States.{at};
ghost use Rattle.pdp_replay.specs.Ask.DiskCompletions.{disk_turn};

use crate::ask::DiskTurn;
use crate::past::BaseSetup;
use crate::run::KeptRun;
use pdp_cpu::{Act, Machine, Meter};
use pdp_script::Script;
use pdp_store::{CycleLog, Logging, Paged, PagedDrive};
use pdp_unibus::LAST_TURN;
use pdp_word::NoMemory;
use std::alloc::Global;

/// A machine in a state of the run, with a log.
#[derive(Drop)]
pub(crate) struct LoggedBranch {
    pub(crate) machine: Machine<Logging<Paged>, PagedDrive>,
}

/// A turn that a branch ran.
#[derive(Clone, Copy)]
pub(crate) struct PassedTurn {
    /// The act of the turn.
    pub(crate) act: Act,
    /// The disk in it.
    pub(crate) disk: DiskTurn,
}

impl KeptRun {
    /// A machine in the state of the run before this turn, with this log.
    ///
    /// Err if memory was refused; what was kept until then stays.
    pub(crate) fn logged_branch(
        &mut self,
        alloc: Global,
        base_setup: &BaseSetup,
        script: &Script,
        log: CycleLog,
        turn: u32,
    ) -> Result<LoggedBranch, NoMemory>
        requires run { IsRunOfSize base_setup.now script.now self.old }
        requires limit { turn ≤ LAST_TURN }
        ensures kept { KeepsRun script.now self.old self.new }
        ensures looked { IsLookedAt turn self.old self.new }
        ensures bound { self.new.meter + min turn self.old.known + 1
            ≤ self.old.meter + turn + self.old.ladder.stride }
        ensures state { IfOk result (λ b. (p : Past)
            → IsKeptOfSize p base_setup.now script.now self.old
            → b.machine.state ≡ state_with_log log (at p turn)) }
    {
        let branch = self.branch(alloc, base_setup, script, Script::new(alloc), turn)?;
        Ok(LoggedBranch {
            machine: branch.machine.logging(log),
        })
    }
}

impl LoggedBranch {
    /// Runs one turn with the events of the script. The log then has its cycles alone. Tells the
    /// act of the turn, and the disk in it.
    ///
    /// Err if a turn's room was refused.
    pub(crate) fn pass(
        &mut self,
        meter: &mut Meter,
        script: &Script,
    ) -> Result<PassedTurn, NoMemory>
        requires limit { self.old.machine.state.turn < LAST_TURN }
        ensures act { IfOk result (λ passed. passed.act ≡ turn_act self.old.machine.state.turn
            (events_at script.now.entries self.old.machine.state.turn)
            (world_with_log self.old.machine.state.world
            (without_cycles self.old.machine.state.world.bus.log))) }
        ensures disk { IfOk result (λ passed. passed.disk ≡ disk_turn
            (events_at script.now.entries self.old.machine.state.turn)
            (state_with_log (without_cycles self.old.machine.state.world.bus.log)
            self.old.machine.state)) }
        ensures state { OnOk result (self.new.machine.state ≡ after_turn
            (events_at script.now.entries self.old.machine.state.turn)
            (state_with_log (without_cycles self.old.machine.state.world.bus.log)
            self.old.machine.state)) }
        ensures left { IsErr result → self.new.machine.state
            ≡ state_with_log (without_cycles self.old.machine.state.world.bus.log)
            self.old.machine.state }
        ensures ran { MetersTurns (self.new.machine.state.turn - self.old.machine.state.turn)
            meter.old meter.new }
    {
        self.machine.clear_log();
        self.machine.ready()?;
        let turn = self.machine.turns();
        let before = self.machine.disk();
        let told = self.machine.turn_and_tell_disk(meter, script.at(turn));
        Ok(PassedTurn {
            act: told.act,
            disk: DiskTurn {
                turn,
                before,
                after: told.disk,
            },
        })
    }
}
