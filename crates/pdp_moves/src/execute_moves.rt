//! Moves of operations, and of the codes that they leave.

ghost use Rattle.std.specs.Prelude.{List};
ghost use Rattle.pdp_operand.specs.Phases.Phase.{state_of};
ghost use Rattle.pdp_operand.specs.declared.processor.Processor.{Processor};
ghost use Rattle.pdp_made.specs.EffectRows.{EffectCells, value_halves};
ghost use Rattle.pdp_made.specs.InstructionRows.{both_changed, codes_changed, codes_if_due};
ghost use Rattle.pdp_made.specs.InstructionRows.{effect_changed, source_changed};
ghost use Rattle.pdp_made.specs.Cells.{ConditionCode, DataCell};
ghost use Rattle.pdp_made.specs.ReferenceRows.{cut_to, halves_of};
ghost use Rattle.pdp_steps.specs.Steps.{latch_of};
ghost use Rattle.pdp_moves.specs.Built.{AreOfCodes, AreOfEffect};
ghost use Rattle.pdp_moves.specs.CellNames.{named_moves};
ghost use Rattle.pdp_moves.specs.Moves.{AreMoves};
ghost use Rattle.pdp_moves.specs.StepRows.{made_of_execute_step};

use crate::cell_move::{StepMoves, moves_of_effect, tell_codes, tell_halves};
use crate::cell_name::{CellName, CodeName, HalfName};
use crate::effect_sources::EffectSources;
use crate::operand_moves::named;
use crate::register_sources::register_operand;
use crate::sources::{CodeSources, HalfSources, sources};
use pdp_operand::RegisterId;
use pdp_steps::{ExecuteStep, StepLatch};
use pdp_store::Store;
use pdp_unibus::Bus;
use pdp_word::{Codes, Size};

/// The moves of an operation.
fn effect(sources: EffectSources) -> StepMoves
    ensures { (cells : EffectCells) → AreOfEffect sources cells
        → AreMoves (effect_changed cells) (named_moves result.items) }
{
    moves_of_effect(sources)
}

/// The operand becomes the source.
fn keep_source() -> StepMoves
    ensures { AreMoves source_changed (named_moves result.items) }
{
    let mut moves = StepMoves::new();
    tell_halves(
        &mut moves,
        CellName::SourceByte(HalfName::Low),
        CellName::SourceByte(HalfName::High),
        HalfSources {
            low: sources(&[CellName::ValueByte(HalfName::Low)]),
            high: sources(&[CellName::ValueByte(HalfName::High)]),
        },
    );
    moves
}

/// A register becomes the operand and the source.
fn take_register(id: RegisterId, size: Size) -> StepMoves
    ensures { AreMoves (both_changed (cut_to size (halves_of id))) (named_moves result.items) }
{
    let mut moves = StepMoves::new();
    tell_halves(
        &mut moves,
        CellName::ValueByte(HalfName::Low),
        CellName::ValueByte(HalfName::High),
        register_operand(id, size),
    );
    tell_halves(
        &mut moves,
        CellName::SourceByte(HalfName::Low),
        CellName::SourceByte(HalfName::High),
        register_operand(id, size),
    );
    moves
}

/// The moves to the codes.
pub(crate) fn codes_moves(from: CodeSources) -> StepMoves
    ensures { (cells : ConditionCode → List DataCell) → AreOfCodes from cells
        → AreMoves (codes_changed cells) (named_moves result.items) }
{
    let mut moves = StepMoves::new();
    tell_codes(&mut moves, from);
    moves
}

/// Codes that are due are stored; if none are, nothing moves.
fn store_codes(due: Option<Codes>) -> StepMoves
    ensures { AreMoves (codes_changed (codes_if_due due)) (named_moves result.items) }
{
    match due {
        Some(_) => codes_moves(CodeSources {
            negative: sources(&[CellName::CodeDue(CodeName::Negative)]),
            zero: sources(&[CellName::CodeDue(CodeName::Zero)]),
            overflow: sources(&[CellName::CodeDue(CodeName::Overflow)]),
            carry: sources(&[CellName::CodeDue(CodeName::Carry)]),
        }),
        None => StepMoves::new(),
    }
}

/// The moves of the step.
pub(crate) fn execute_moves<S: Store, D: Store>(
    bus: &Bus<S, D>,
    latch: &StepLatch,
    step: ExecuteStep,
) -> StepMoves
    ensures { (p : Processor) → AreMoves (made_of_execute_step step (state_of p bus.now (latch_of
        latch.now))) (named_moves result.items) }
{
    match step {
        ExecuteStep::KeepSource => keep_source(),
        ExecuteStep::TakeRegister { size, register } => take_register(named(bus, register), size),
        ExecuteStep::Move { size } => effect(EffectSources::of_mov(size)),
        ExecuteStep::Compare { comparison } => effect(EffectSources::of_comparison(comparison)),
        ExecuteStep::Combine { combination } => effect(EffectSources::of_combination(combination)),
        ExecuteStep::Test { size } => effect(EffectSources::of_tst(size)),
        ExecuteStep::Modify { modification } => {
            effect(EffectSources::of_modification(modification))
        }
        ExecuteStep::Replace { replacement } => effect(EffectSources::of_replacement(replacement)),
        ExecuteStep::StoreCodes => store_codes(latch.codes),
    }
}
