//! Moves of MUL, DIV, ASH and ASHC.

ghost use Rattle.std.specs.Prelude.{◌≡◌, ◌≤◌, length};
ghost use Rattle.pdp_operand.specs.Phases.Phase.{state_of};
ghost use Rattle.pdp_operand.specs.declared.processor.Processor.{Processor};
ghost use Rattle.pdp_instruction.specs.Handbook.Extended.{pair_of};
ghost use Rattle.pdp_instruction.specs.declared.pair.Pair.{Pair};
ghost use Rattle.pdp_made.specs.InstructionRows.{due_changed, pair_cells, pair_changed};
ghost use Rattle.pdp_made.specs.InstructionRows.{shift_cells, shift_pair_cells};
ghost use Rattle.pdp_made.specs.InstructionRows.{with_operand_cells};
ghost use Rattle.pdp_made.specs.ReferenceRows.{halves_of, of_each, register_changed};
ghost use Rattle.pdp_steps.specs.Steps.{latch_of};
ghost use Rattle.pdp_steps.specs.declared.step_latch.StepLatch.{StepLatch};
ghost use Rattle.pdp_moves.specs.CellNames.{named_cells, named_moves};
ghost use Rattle.pdp_moves.specs.Moves.{AreMoves};
ghost use Rattle.pdp_moves.specs.StepRows.{made_of_extended_step};

use crate::cell_move::StepMoves;
use crate::cell_name::{CellName, HalfName};
use crate::operand_moves::named;
use crate::register_sources::{pair_moves, register_word, tell_shifted};
use crate::sources::{Sources, joined, sources};
use pdp_operand::RegisterId;
use pdp_steps::ExtendedStep;
use pdp_store::Store;
use pdp_unibus::Bus;

const VALUE_LOW: CellName = CellName::ValueByte(HalfName::Low);

const VALUE_HIGH: CellName = CellName::ValueByte(HalfName::High);

/// A register and the operand.
fn with_operand(id: RegisterId) -> Sources
    ensures cells { named_cells result.items ≡ with_operand_cells (halves_of id) }
    ensures length { length result.items ≤ 4 }
{
    joined(register_word(id), &sources(&[VALUE_LOW, VALUE_HIGH]))
}

/// A register and the count, which is in the low half of the operand.
fn with_count(id: RegisterId) -> Sources
    ensures cells { named_cells result.items ≡ shift_cells id }
    ensures length { length result.items ≤ 3 }
{
    joined(register_word(id), &sources(&[VALUE_LOW]))
}

/// A pair of registers and the operand.
fn with_divisor(high: RegisterId, low: RegisterId) -> Sources
    ensures { named_cells result.items ≡ pair_cells (record { high = high; low = low }) }
{
    joined(register_word(high), &with_operand(low))
}

/// A pair of registers and the count.
fn with_pair_count(high: RegisterId, low: RegisterId) -> Sources
    ensures { named_cells result.items ≡ shift_pair_cells (record { high = high; low = low }) }
{
    joined(register_word(high), &with_count(low))
}

/// The moves to a register and to the codes that are due.
fn shift(id: RegisterId) -> StepMoves
    ensures { AreMoves (register_changed id (of_each (shift_cells id)) (due_changed (shift_cells
        id))) (named_moves result.items) }
{
    let mut moves = StepMoves::new();
    tell_shifted(&mut moves, id, &with_count(id));
    moves
}

/// The moves to a pair of registers and to the codes that are due.
fn change_pair(high: RegisterId, low: RegisterId, from: &Sources) -> StepMoves
    ensures { (pair : Pair) → pair ≡ record { high = high; low = low }
        → AreMoves (pair_changed pair (named_cells from.now.items)) (named_moves result.items) }
{
    pair_moves(high, low, from)
}

/// The other register of a pair: R or 1.
fn low_register<S: Store, D: Store>(bus: &Bus<S, D>, register: u8) -> RegisterId
    ensures { result ≡ (pair_of bus.now.io_page.status.mode register).low }
{
    named(bus, register - register % 2 + 1)
}

/// The moves of the step.
pub(crate) fn extended_moves<S: Store, D: Store>(bus: &Bus<S, D>, step: ExtendedStep) -> StepMoves
    ensures { (p : Processor) (latch : StepLatch) → AreMoves (made_of_extended_step step (state_of p
        bus.now (latch_of latch))) (named_moves result.items) }
{
    match step {
        ExtendedStep::Multiply { register } => {
            let high = named(bus, register);
            change_pair(high, low_register(bus, register), &with_operand(high))
        }
        ExtendedStep::Divide { register } => {
            let high = named(bus, register);
            let low = low_register(bus, register);
            change_pair(high, low, &with_divisor(high, low))
        }
        ExtendedStep::Shift { register } => shift(named(bus, register)),
        ExtendedStep::ShiftPair { register } => {
            let high = named(bus, register);
            let low = low_register(bus, register);
            change_pair(high, low, &with_pair_count(high, low))
        }
    }
}
