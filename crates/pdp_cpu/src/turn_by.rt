//! A turn whose act another runs.

ghost use Rattle.std.specs.Prelude.{◌≡◌, ◌<◌};
ghost use Rattle.pdp_store.specs.FirstTouches.{no_first_touches};
ghost use Rattle.pdp_operand.specs.Phases.World.{world};
ghost use Rattle.pdp_cpu.specs.Handbook.MachineState.{IsReady, machine_world};
ghost use Rattle.pdp_cpu.specs.Handbook.Turn.{act_end, beginning};
ghost use Rattle.pdp_cpu.specs.Turns.TurnRun.{RunsTouched, RunsTurn};

use crate::machine::Machine;
use crate::meter::Meter;
use pdp_operand::Processor;
use pdp_store::Store;
use pdp_unibus::{Bus, Event, LAST_TURN};

/// What runs the act of a turn in place of the machine's own code, and may note what the act does.
/// Whatever runs it, the act is the one that is due.
pub trait RunsAct {
    ghost use Rattle.pdp_operand.specs.Phases.World.{World};

    // What holds of it once it ran the act that began in this world.
    ghost HasRun: { Self → World → Type 0 };

    /// Runs the act of a turn that has begun.
    fn run_act<S: Store, D: Store>(&mut self, processor: &mut Processor, bus: &mut Bus<S, D>)
        ensures act { world processor.new bus.new ≡ act_end (world processor.old bus.old) }
        ensures has_run { HasRun self.new (world processor.old bus.old) };
}

impl<S: Store, D: Store> Machine<S, D> {
    /// The bus with all that is on it, as it is between two turns.
    pub fn bus(&self) -> &Bus<S, D>
        ensures { result.now ≡ (machine_world self.now).bus }
    {
        &self.computer.bus
    }

    /// One whole turn, as [`Machine::turn`] runs it. Its act is run by `runs`, which then knows the
    /// act that began in the world, first touches included, when the turn had begun.
    pub fn turn_by<A: RunsAct>(&mut self, meter: &mut Meter, events: &[Event], runs: &mut A)
        requires ready { IsReady self.old }
        requires limit { self.old.state.turn < LAST_TURN }
        ensures has_run { A.HasRun runs.new (beginning self.old.state.turn events.now
            (machine_world self.old)) }
        ensures runs { RunsTurn events.now self.old self.new meter.old meter.new }
    {
        // This read gives the prover the range of the turn.
        let _turn = self.turn;
        self.turn_by_whole(meter, events, runs)
    }

    /// One whole turn of the machine with the first touches in its world.
    #[tactic(auto, unfolding(crate::proofs::Rules::whole_turn))]
    fn turn_by_whole<A: RunsAct>(&mut self, meter: &mut Meter, events: &[Event], runs: &mut A)
        requires ready { IsReady self.old }
        requires limit { self.old.state.turn < LAST_TURN }
        ensures has_run { A.HasRun runs.new (beginning self.old.state.turn events.now
            (machine_world self.old)) }
        ensures runs { RunsTouched events.now self.old self.new meter.old meter.new }
    {
        self.begin_any(events);
        self.act_by(runs);
        self.turn += 1;
        meter.tick();
    }

    /// The act of a turn that has begun.
    fn act_by<A: RunsAct>(&mut self, runs: &mut A)
        ensures has_run { A.HasRun runs.new (machine_world self.old) }
        ensures world { machine_world self.new ≡ act_end (machine_world self.old) }
        ensures without_first_touches { self.new.state.world.bus.first_touches ≡ no_first_touches }
        ensures turn { self.new.state.turn ≡ self.old.state.turn }
        ensures text { self.new.state.text ≡ self.old.state.text }
        ensures punched { self.new.state.punched ≡ self.old.state.punched }
        ensures kept_text { self.new.kept_text ≡ self.old.kept_text }
        ensures kept_punched { self.new.kept_punched ≡ self.old.kept_punched }
    {
        runs.run_act(&mut self.computer.processor, &mut self.computer.bus);
    }
}
