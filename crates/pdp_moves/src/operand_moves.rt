//! Moves of the steps that find, read and write operands.

ghost use Rattle.std.specs.Prelude.{◌≡◌};
ghost use Rattle.pdp_operand.specs.Handbook.RegisterId.{register_id_of};
ghost use Rattle.pdp_operand.specs.Handbook.Operand.{size_of_fill};
ghost use Rattle.pdp_operand.specs.Phases.Phase.{Latch, state_of};
ghost use Rattle.pdp_operand.specs.declared.processor.Processor.{Processor};
ghost use Rattle.pdp_made.specs.OperandRows.{halves_of_operand, register_stepped, value_changed};
ghost use Rattle.pdp_made.specs.ReferenceRows.{Halves};
ghost use Rattle.pdp_steps.specs.Steps.{latch_of};
ghost use Rattle.pdp_moves.specs.Built.{AreHalves, operand_moves as moves_of_write};
ghost use Rattle.pdp_moves.specs.CellNames.{named_moves};
ghost use Rattle.pdp_moves.specs.Moves.{AreMoves};
ghost use Rattle.pdp_moves.specs.StepRows.{made_of_operand_step};

use crate::bus_slave::referred;
use crate::cell_move::{StepMoves, tell_halves};
use crate::cell_name::{CellName, HalfName};
use crate::register_sources::{
    register_filled, register_moves, register_operand, register_stepped,
};
use crate::sources::HalfSources;
use crate::written_word::WrittenWord;
use pdp_operand::{Fill, Place, RegisterId};
use pdp_steps::{OperandStep, StepLatch};
use pdp_store::Store;
use pdp_unibus::Bus;
use pdp_word::Size;

/// The register that a number names in the mode of now.
pub(crate) fn named<S: Store, D: Store>(bus: &Bus<S, D>, register: u8) -> RegisterId
    ensures { result ≡ register_id_of bus.now.io_page.status.mode register }
{
    RegisterId::of(bus.mode(), register)
}

/// The moves to a register that steps.
pub(crate) fn stepped(id: RegisterId) -> StepMoves
    ensures { AreMoves (register_stepped id) (named_moves result.items) }
{
    register_moves(id, register_stepped(id))
}

/// What an operand is made of.
fn operand<S: Store, D: Store>(bus: &Bus<S, D>, place: Place, size: Size) -> HalfSources
    ensures { (p : Processor) (latch : Latch)
        → AreHalves result (halves_of_operand size place (state_of p bus.now latch)) }
{
    match place {
        Place::Reg(id) => register_operand(id, size),
        Place::Mem(cell) => referred(bus, size, cell.mode, cell.address),
    }
}

/// The moves to the operand.
pub(crate) fn value_moves(from: HalfSources) -> StepMoves
    ensures { (halves : Halves) → AreHalves from halves
        → AreMoves (value_changed halves) (named_moves result.items) }
{
    let mut moves = StepMoves::new();
    tell_halves(
        &mut moves,
        CellName::ValueByte(HalfName::Low),
        CellName::ValueByte(HalfName::High),
        from,
    );
    moves
}

/// The moves of a write of the result to the place of an operand.
fn write<S: Store, D: Store>(bus: &Bus<S, D>, place: Place, fill: Fill) -> StepMoves
    ensures { named_moves result.items ≡ moves_of_write fill place bus.now }
{
    match place {
        Place::Reg(id) => register_moves(id, register_filled(id, fill)),
        Place::Mem(cell) => {
            WrittenWord::Result.moves(bus, fill_size(fill), cell.mode, cell.address)
        }
    }
}

/// The size of what is written.
fn fill_size(fill: Fill) -> Size
    ensures { result ≡ size_of_fill fill }
{
    match fill {
        Fill::Whole => Size::Word,
        Fill::LowByte | Fill::Extended => Size::Byte,
    }
}

/// The moves of the step.
pub(crate) fn operand_moves<S: Store, D: Store>(
    bus: &Bus<S, D>,
    latch: &StepLatch,
    step: OperandStep,
) -> StepMoves
    ensures { (p : Processor) → AreMoves (made_of_operand_step step (state_of p bus.now (latch_of
        latch.now))) (named_moves result.items) }
{
    match step {
        OperandStep::Grow { register, step: _ } => stepped(named(bus, register)),
        OperandStep::Shrink { register, step: _ } => stepped(named(bus, register)),
        OperandStep::Read { size } => value_moves(operand(bus, latch.place, size)),
        OperandStep::ReadBeforeWrite { size } => value_moves(operand(bus, latch.place, size)),
        OperandStep::Write { fill } => write(bus, latch.place, fill),
        OperandStep::NameRegister { register: _ }
        | OperandStep::Point { register: _ }
        | OperandStep::Index { register: _ }
        | OperandStep::Indirect => StepMoves::new(),
    }
}
