//! A turn, and the disk's controller in it.

ghost use Rattle.std.specs.Prelude.{◌≡◌, ◌<◌};
ghost use Rattle.pdp_cpu.specs.Handbook.MachineState.{IsReady, machine_world};
ghost use Rattle.pdp_cpu.specs.Handbook.Turn.{turn_act};
ghost use Rattle.pdp_cpu.specs.Handbook.TurnDisk.{disk_begun};
ghost use Rattle.pdp_cpu.specs.Turns.TurnRun.{RunsTouched, RunsTurn};

use crate::act::Act;
use crate::machine::Machine;
use crate::meter::Meter;
use pdp_rk11::Rk;
use pdp_store::Store;
use pdp_unibus::{Event, LAST_TURN};

/// The act that began a turn, with the disk in the turn.
#[derive(Clone, Copy)]
pub struct ActWithDisk {
    /// The act that began the turn.
    pub act: Act,
    /// The disk's controller as it is when the turn has begun: after its events and the completions
    /// that are due, and before its act.
    pub disk: Rk,
}

impl<S: Store, D: Store> Machine<S, D> {
    /// One whole turn, as [`Machine::turn`] runs it; returns its act with the disk in the turn.
    ///
    /// PDP-11 Peripherals Handbook, RK11; the order of a turn is [8.2].
    pub fn turn_and_tell_disk(&mut self, meter: &mut Meter, events: &[Event]) -> ActWithDisk
        requires ready { IsReady self.old }
        requires limit { self.old.state.turn < LAST_TURN }
        ensures act { result.act ≡ turn_act self.old.state.turn events.now self.old.state.world }
        ensures disk { result.disk ≡ disk_begun self.old.state.turn events.now
            self.old.state.world }
        ensures runs { RunsTurn events.now self.old self.new meter.old meter.new }
    {
        // This read gives the prover the range of the turn.
        let _turn = self.turn;
        self.tell_disk_whole(meter, events)
    }

    /// One whole turn of the machine with the first touches in its world.
    #[tactic(auto, unfolding(crate::proofs::Rules::whole_turn_with_disk))]
    fn tell_disk_whole(&mut self, meter: &mut Meter, events: &[Event]) -> ActWithDisk
        requires ready { IsReady self.old }
        requires limit { self.old.state.turn < LAST_TURN }
        ensures act { result.act ≡ turn_act self.old.state.turn events.now
            (machine_world self.old) }
        ensures disk { result.disk ≡ disk_begun self.old.state.turn events.now
            (machine_world self.old) }
        ensures runs { RunsTouched events.now self.old self.new meter.old meter.new }
    {
        self.begin_any(events);
        let disk = self.disk();
        let act = self.act();
        self.turn += 1;
        meter.tick();
        ActWithDisk { act, disk }
    }
}
