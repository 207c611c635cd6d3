//! Moves of jumps and returns.

ghost use Rattle.std.specs.Prelude.{◌∷◌, []};
ghost use Rattle.pdp_operand.specs.Phases.Phase.{state_of};
ghost use Rattle.pdp_operand.specs.declared.processor.Processor.{Processor};
ghost use Rattle.pdp_made.specs.EffectRows.{value_halves};
ghost use Rattle.pdp_made.specs.InstructionRows.{codes_changed, result_changed};
ghost use Rattle.pdp_made.specs.PhaseRows.{of_itself};
ghost use Rattle.pdp_made.specs.ReferenceRows.{halves_of, of_nothing, register_changed};
ghost use Rattle.pdp_steps.specs.Steps.{latch_of};
ghost use Rattle.pdp_steps.specs.declared.step_latch.StepLatch.{StepLatch};
ghost use Rattle.pdp_moves.specs.Built.{AreOfCodes};
ghost use Rattle.pdp_moves.specs.CellNames.{named_cell, named_moves};
ghost use Rattle.pdp_moves.specs.Moves.{AreMoves};
ghost use Rattle.pdp_moves.specs.StepRows.{made_of_jump_step};

use crate::cell_move::{StepMoves, tell_halves};
use crate::cell_name::{CellName, HalfName};
use crate::execute_moves::codes_moves;
use crate::operand_moves::{named, value_moves};
use crate::register_sources::{register_half, register_moves};
use crate::sources::{CodeSources, HalfSources, sources};
use pdp_operand::RegisterId;
use pdp_steps::JumpStep;
use pdp_store::Store;
use pdp_unibus::Bus;

/// A register becomes what is to be written.
fn take_link(id: RegisterId) -> StepMoves
    ensures { AreMoves (result_changed (halves_of id)) (named_moves result.items) }
{
    let mut moves = StepMoves::new();
    tell_halves(
        &mut moves,
        CellName::ResultByte(HalfName::Low),
        CellName::ResultByte(HalfName::High),
        HalfSources {
            low: register_half(id, HalfName::Low),
            high: register_half(id, HalfName::High),
        },
    );
    moves
}

/// A register is made of nothing.
pub(crate) fn lose_register(id: RegisterId) -> StepMoves
    ensures { AreMoves (register_changed id of_nothing of_itself) (named_moves result.items) }
{
    register_moves(id, HalfSources::none())
}

/// A register becomes the operand.
fn set_register(id: RegisterId) -> StepMoves
    ensures { AreMoves (register_changed id value_halves of_itself) (named_moves result.items) }
{
    register_moves(
        id,
        HalfSources {
            low: sources(&[CellName::ValueByte(HalfName::Low)]),
            high: sources(&[CellName::ValueByte(HalfName::High)]),
        },
    )
}

/// The sources of the codes, each this cell.
pub(crate) fn each_code(cell: CellName) -> CodeSources
    ensures { AreOfCodes result (λ _. named_cell cell ∷ []) }
{
    CodeSources {
        negative: sources(&[cell]),
        zero: sources(&[cell]),
        overflow: sources(&[cell]),
        carry: sources(&[cell]),
    }
}

/// The moves to the codes, each made of this cell.
pub(crate) fn codes_of(cell: CellName) -> StepMoves
    ensures { AreMoves (codes_changed (λ _. named_cell cell ∷ [])) (named_moves result.items) }
{
    codes_moves(each_code(cell))
}

/// The moves of the step.
pub(crate) fn jump_moves<S: Store, D: Store>(bus: &Bus<S, D>, step: JumpStep) -> StepMoves
    ensures { (p : Processor) (latch : StepLatch) → AreMoves (made_of_jump_step step (state_of p
        bus.now (latch_of latch))) (named_moves result.items) }
{
    match step {
        JumpStep::Aim => value_moves(HalfSources::none()),
        JumpStep::TakeLink { register } => take_link(named(bus, register)),
        JumpStep::Link { register } => lose_register(named(bus, register)),
        JumpStep::SetRegister { register } => set_register(named(bus, register)),
        JumpStep::TakeMark { words: _ } => lose_register(named(bus, 6)),
        JumpStep::ReturnFromTrap => codes_of(CellName::ValueByte(HalfName::Low)),
        JumpStep::Jump
        | JumpStep::ReturnBy { register: _ }
        | JumpStep::Cross
        | JumpStep::KeepCounter => StepMoves::new(),
    }
}
