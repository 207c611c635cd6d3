//! What a whole turn moves.

ghost use Rattle.std.specs.Prelude.{◌≡◌, ◌<◌, ℕ};
ghost use Rattle.pdp_cpu.specs.Handbook.MachineState.{IsReady, machine_world};
ghost use Rattle.pdp_cpu.specs.Turns.TurnRun.{RunsTurn};
ghost use Rattle.pdp_made.specs.Cells.{DataCell};
ghost use Rattle.pdp_made_run.specs.Origins.{still_held};
ghost use Rattle.pdp_made_run.specs.TurnRows.{made_in_turn};
ghost use Rattle.pdp_moves.specs.CourseMoves.{sources_of_act};
ghost use Rattle.pdp_turn_moves.specs.ActMoves.{made_in_act};
ghost use Rattle.pdp_turn_moves.specs.Beginnings.{beginning_told};
ghost use Rattle.pdp_turn_moves.specs.TurnOrigins.{origins_of_turn};

use crate::act_moves::act_noting;
use crate::beginning_moves::BeginningMoves;
use pdp_cpu::{LAST_TURN, Machine, Meter, RunsAct};
use pdp_moves::NotedAct;
use pdp_operand::Processor;
use pdp_steps::StepLatch;
use pdp_store::Store;
use pdp_unibus::{Bus, Event};

/// Runs the act of a turn step by step, and notes what each step moved.
#[derive(Drop)]
pub struct ActNotes {
    pub noted: NotedAct,
}

impl RunsAct for ActNotes {
    ghost use Rattle.std.specs.Prelude.{◌≡◌};
    ghost use Rattle.pdp_word.specs.declared.codes.Codes.{Codes};
    ghost use Rattle.pdp_operand.specs.Phases.Phase.{inner_of};
    ghost use Rattle.pdp_cpu.specs.Handbook.Due.{due_of};
    ghost use Rattle.pdp_cpu.specs.Handbook.Turn.{initial_state};
    ghost use Rattle.pdp_made.specs.Cells.{DataCell};
    ghost use Rattle.pdp_made.specs.CourseRows.{made_along};
    ghost use Rattle.pdp_made_run.specs.TurnRows.{rows_of_due};
    ghost use Rattle.pdp_moves.specs.CourseMoves.{sources_of_act};

    ghost HasRun = { λ notes w. (saved : Codes) (c : DataCell) → sources_of_act notes.noted c
        ≡ made_along (rows_of_due (due_of (inner_of (initial_state w)))) saved (initial_state w)
        c };

    fn run_act<S: Store, D: Store>(&mut self, processor: &mut Processor, bus: &mut Bus<S, D>) {
        let mut latch = StepLatch::empty();
        act_noting(processor, bus, &mut latch, &mut self.noted);
    }
}

/// What a turn moved: in its beginning, and then by the steps of its act.
#[derive(Drop)]
pub struct TurnMoves {
    pub beginning: BeginningMoves,
    pub act: ActNotes,
}

impl TurnMoves {
    /// Nothing was moved.
    pub fn empty() -> TurnMoves
        ensures { (t : ℕ) (c : DataCell) → origins_of_turn t result c ≡ still_held c }
    {
        TurnMoves {
            beginning: BeginningMoves {
                key: None,
                switches: None,
                reader: None,
                disk: None,
            },
            act: ActNotes {
                noted: NotedAct::empty(),
            },
        }
    }

    /// Runs one whole turn, as [`Machine::turn`] does it, its act step by step. Notes what the turn
    /// moved in place of what was noted before: of its beginning what [`BeginningMoves::of`] tells,
    /// and of its act what is made of what.
    pub fn run<S: Store, D: Store>(
        &mut self,
        machine: &mut Machine<S, D>,
        meter: &mut Meter,
        events: &[Event],
    )
        requires ready { IsReady machine.old }
        requires limit { machine.old.state.turn < LAST_TURN }
        ensures beginning { self.new.beginning ≡ beginning_told machine.old.state.turn events.now
            machine.old.state.world.bus }
        ensures act { (c : DataCell) → sources_of_act self.new.act.noted c
            ≡ made_in_act machine.old.state.turn events.now (machine_world machine.old) c }
        ensures made { (c : DataCell) → origins_of_turn machine.old.state.turn self.new c
            ≡ made_in_turn machine.old.state.turn events.now (machine_world machine.old) c }
        ensures runs { RunsTurn events.now machine.old machine.new meter.old meter.new }
    {
        self.beginning = BeginningMoves::of(machine.bus(), machine.turns(), events);
        machine.turn_by(meter, events, &mut self.act);
    }
}
