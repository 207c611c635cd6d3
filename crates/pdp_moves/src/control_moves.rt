//! Moves of instructions of one step.

ghost use Rattle.std.specs.Prelude.{◌≡◌, ◌∷◌, [], if◌then◌else◌};
ghost use Rattle.pdp_operand.specs.Phases.Phase.{state_of};
ghost use Rattle.pdp_operand.specs.declared.processor.Processor.{Processor};
ghost use Rattle.pdp_made.specs.Cells.{CodeNow};
ghost use Rattle.pdp_made.specs.InstructionRows.{codes_changed, codes_outside};
ghost use Rattle.pdp_steps.specs.Steps.{latch_of};
ghost use Rattle.pdp_steps.specs.declared.step_latch.StepLatch.{StepLatch};
ghost use Rattle.pdp_moves.specs.CellNames.{named_cells, named_code, named_moves};
ghost use Rattle.pdp_moves.specs.Moves.{AreMoves};
ghost use Rattle.pdp_moves.specs.StepRows.{made_of_control_step};

use crate::cell_move::StepMoves;
use crate::cell_name::{CellName, CodeName};
use crate::execute_moves::codes_moves;
use crate::operand_moves::{named, stepped};
use crate::sources::{CodeSources, Sources, sources};
use pdp_steps::ControlStep;
use pdp_store::Store;
use pdp_unibus::Bus;
use pdp_word::Codes;

/// A code of the mask is made of nothing, any other of itself.
fn outside(is_masked: bool, code: CodeName) -> Sources
    ensures { named_cells result.items
        ≡ (if is_masked then [] else CodeNow (named_code code) ∷ []) }
{
    if is_masked {
        Sources::new()
    } else {
        sources(&[CellName::CodeNow(code)])
    }
}

/// The moves to the codes of the mask.
fn change_codes(mask: Codes) -> StepMoves
    ensures { AreMoves (codes_changed (codes_outside mask)) (named_moves result.items) }
{
    codes_moves(CodeSources {
        negative: outside(mask.n, CodeName::Negative),
        zero: outside(mask.z, CodeName::Zero),
        overflow: outside(mask.v, CodeName::Overflow),
        carry: outside(mask.c, CodeName::Carry),
    })
}

/// The moves of the step.
pub(crate) fn control_moves<S: Store, D: Store>(bus: &Bus<S, D>, step: ControlStep) -> StepMoves
    ensures { (p : Processor) (latch : StepLatch) → AreMoves (made_of_control_step step (state_of p
        bus.now (latch_of latch))) (named_moves result.items) }
{
    match step {
        ControlStep::SubtractOne { register, words: _ } => stepped(named(bus, register)),
        ControlStep::ClearCodes { mask } => change_codes(mask),
        ControlStep::SetCodes { mask } => change_codes(mask),
        ControlStep::Branch {
            condition: _,
            offset: _,
        }
        | ControlStep::Halt
        | ControlStep::Wait
        | ControlStep::Reset
        | ControlStep::Raise { trap: _ } => StepMoves::new(),
    }
}
