//! Moves of a step.

ghost use Rattle.pdp_operand.specs.Phases.Phase.{state_of};
ghost use Rattle.pdp_operand.specs.declared.processor.Processor.{Processor};
ghost use Rattle.pdp_steps.specs.Steps.{CanRun, latch_of};
ghost use Rattle.pdp_moves.specs.Built.{halves_written};
ghost use Rattle.pdp_moves.specs.CellNames.{named_moves};
ghost use Rattle.pdp_moves.specs.Moves.{AreMoves};
ghost use Rattle.pdp_moves.specs.StepRows.{made_of_step};

use crate::cell_move::StepMoves;
use crate::control_moves::control_moves;
use crate::execute_moves::execute_moves;
use crate::extended_moves::extended_moves;
use crate::jump_moves::jump_moves;
use crate::operand_moves::operand_moves;
use crate::trap_moves::trap_moves;
use crate::written_word::WrittenWord;
use pdp_steps::{Microstep, StepLatch};
use pdp_store::Store;
use pdp_unibus::Bus;

/// What a step moves that is run now and goes on: each cell that it makes of others or of nothing,
/// with the cells before it. A step that can't go on moves nothing.
///
/// `written` is what a step of a sequence writes; every other step knows it.
pub fn moves_of_step<S: Store, D: Store>(
    bus: &Bus<S, D>,
    latch: &StepLatch,
    step: Microstep,
    written: WrittenWord,
) -> StepMoves
    requires { CanRun step latch.now }
    ensures { (p : Processor) → AreMoves (made_of_step (halves_written written) step (state_of p
        bus.now (latch_of latch.now))) (named_moves result.items) }
{
    match step {
        Microstep::Operand(step) => operand_moves(bus, latch, step),
        Microstep::Execute(step) => execute_moves(bus, latch, step),
        Microstep::Extended(step) => extended_moves(bus, step),
        Microstep::Control(step) => control_moves(bus, step),
        Microstep::Jump(step) => jump_moves(bus, step),
        Microstep::Trap(step) => trap_moves(bus, latch, step, written),
        Microstep::Fetch | Microstep::NoteTrace(_) => StepMoves::new(),
    }
}
