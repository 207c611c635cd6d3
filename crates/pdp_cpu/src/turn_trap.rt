//! A turn, and the trap that it comes to.

ghost use Rattle.std.specs.Prelude.{◌≡◌, ◌<◌};
ghost use Rattle.pdp_store.specs.FirstTouches.{no_first_touches};
ghost use Rattle.pdp_operand.specs.Phases.Phase.{inner_of};
ghost use Rattle.pdp_cpu.specs.Handbook.Due.{act_of, due_of};
ghost use Rattle.pdp_cpu.specs.Handbook.MachineState.{IsReady, machine_world};
ghost use Rattle.pdp_cpu.specs.Turns.TurnRun.{RunsTouched, RunsTurn};
ghost use Rattle.pdp_cpu.specs.Handbook.Turn.{act_end, initial_state, turn_act};
ghost use Rattle.pdp_cpu.specs.Handbook.TurnTrap.{trap_of_due, turn_trap};

use crate::act::Act;
use crate::machine::Machine;
use crate::meter::Meter;
use crate::take_due::take_due_and_tell;
use pdp_store::Store;
use pdp_unibus::{Event, LAST_TURN};

/// The act that began a turn, with its trap.
#[derive(Clone, Copy)]
pub struct ActWithTrap {
    /// The act that began the turn.
    pub act: Act,
    /// The vector (octal, bytes) of the trap that the act came to. None if it came to none.
    pub trap: Option<u16>,
}

impl<S: Store, D: Store> Machine<S, D> {
    /// One whole turn, as [`Machine::turn`] runs it; returns its act with the trap of the turn.
    ///
    /// The trap, by its vector (octal), is:
    ///
    /// - for an instruction, its own trap or that of its fetch: 4, 10, 14, 20, 30, 34 or 250;
    /// - for the trace trap 14, and for the stack trap 4;
    /// - for an interrupt, and if nothing is due, None.
    ///
    /// It is the same if the sequence of the trap becomes the red sequence, or if the processor
    /// then halts. If the sequence of an interrupt becomes the red one, the turn has no trap.
    ///
    /// DEC PDP-11/40 Processor Handbook (1972), Processor traps and Stack limit violations; that a
    /// turn is one act is [5.7].
    pub fn turn_and_tell(&mut self, meter: &mut Meter, events: &[Event]) -> ActWithTrap
        requires ready { IsReady self.old }
        requires limit { self.old.state.turn < LAST_TURN }
        ensures act { result.act ≡ turn_act self.old.state.turn events.now self.old.state.world }
        ensures trap { result.trap ≡ turn_trap self.old.state.turn events.now
            self.old.state.world }
        ensures runs { RunsTurn events.now self.old self.new meter.old meter.new }
    {
        // This read gives the prover the range of the turn.
        let _turn = self.turn;
        self.tell_whole(meter, events)
    }

    /// One whole turn of the machine with the first touches in its world.
    #[tactic(auto, unfolding(crate::proofs::Rules::whole_turn_with_trap))]
    fn tell_whole(&mut self, meter: &mut Meter, events: &[Event]) -> ActWithTrap
        requires ready { IsReady self.old }
        requires limit { self.old.state.turn < LAST_TURN }
        ensures act { result.act ≡ turn_act self.old.state.turn events.now
            (machine_world self.old) }
        ensures trap { result.trap ≡ turn_trap self.old.state.turn events.now
            (machine_world self.old) }
        ensures runs { RunsTouched events.now self.old self.new meter.old meter.new }
    {
        self.begin_any(events);
        let told = self.act_and_tell();
        self.turn += 1;
        meter.tick();
        told
    }

    /// The act of a turn that has begun, with its trap.
    fn act_and_tell(&mut self) -> ActWithTrap
        ensures act { result.act
            ≡ act_of (due_of (inner_of (initial_state (machine_world self.old)))) }
        ensures trap { result.trap ≡ trap_of_due
            (due_of (inner_of (initial_state (machine_world self.old))))
            (initial_state (machine_world self.old)) }
        ensures world { machine_world self.new ≡ act_end (machine_world self.old) }
        ensures without_first_touches { self.new.state.world.bus.first_touches ≡ no_first_touches }
        ensures turn { self.new.state.turn ≡ self.old.state.turn }
        ensures text { self.new.state.text ≡ self.old.state.text }
        ensures punched { self.new.state.punched ≡ self.old.state.punched }
        ensures kept_text { self.new.kept_text ≡ self.old.kept_text }
        ensures kept_punched { self.new.kept_punched ≡ self.old.kept_punched }
    {
        take_due_and_tell(&mut self.computer.processor, &mut self.computer.bus)
    }
}
