//! Moves of the sequences of traps.

ghost use Rattle.std.specs.Prelude.{◌∷◌, []};
ghost use Rattle.pdp_word.specs.declared.size.Size.TheVariants.{Word};
ghost use Rattle.pdp_kt11.specs.declared.mode.Mode.TheVariants.{Kernel};
ghost use Rattle.pdp_operand.specs.Phases.Phase.{Latch, state_of};
ghost use Rattle.pdp_operand.specs.declared.processor.Processor.{Processor};
ghost use Rattle.pdp_operand.specs.declared.processor.RegisterId.TheVariants.{KernelStack};
ghost use Rattle.pdp_made.specs.ReferenceRows.{Halves, changed_by_reference, of_nothing};
ghost use Rattle.pdp_made.specs.ReferenceRows.{register_changed};
ghost use Rattle.pdp_made.specs.TrapRows.{of_new_status, put_at, status_changed};
ghost use Rattle.pdp_made.specs.InstructionRows.{codes_changed};
ghost use Rattle.pdp_made.specs.Cells.{CodeSaved};
ghost use Rattle.pdp_steps.specs.Steps.{HasStatus, latch_of};
ghost use Rattle.pdp_moves.specs.Built.{AreHalves, halves_written};
ghost use Rattle.pdp_moves.specs.CellNames.{named_moves};
ghost use Rattle.pdp_moves.specs.Moves.{AreMoves};
ghost use Rattle.pdp_moves.specs.StepRows.{made_of_trap_step};

use crate::bus_slave::referred;
use crate::cell_move::{StepMoves, tell_codes, tell_halves};
use crate::cell_name::{CellName, CodeName, HalfName};
use crate::execute_moves::codes_moves;
use crate::jump_moves::{codes_of, each_code, lose_register};
use crate::operand_moves::stepped;
use crate::register_sources::tell_register;
use crate::sources::{CodeSources, HalfSources, sources};
use crate::written_word::WrittenWord;
use pdp_io_page::Status;
use pdp_kt11::Mode;
use pdp_operand::{Place, RegisterId};
use pdp_steps::{StepLatch, TrapStep};
use pdp_store::Store;
use pdp_unibus::Bus;
use pdp_word::Size;

/// A new program status word is read.
fn status_moves(from: HalfSources) -> StepMoves
    ensures { (halves : Halves) → AreHalves from halves
        → AreMoves (status_changed halves) (named_moves result.items) }
{
    let mut moves = StepMoves::new();
    tell_halves(
        &mut moves,
        CellName::StatusByte(HalfName::Low),
        CellName::StatusByte(HalfName::High),
        from,
    );
    moves
}

/// A word is written at a place.
fn put_at<S: Store, D: Store>(bus: &Bus<S, D>, place: Place, written: WrittenWord) -> StepMoves
    ensures { (p : Processor) (latch : Latch) → AreMoves (put_at (halves_written written) place
        (state_of p bus.now latch)) (named_moves result.items) }
{
    match place {
        Place::Reg(_) => StepMoves::new(),
        Place::Mem(cell) => written.moves(bus, Size::Word, cell.mode, cell.address),
    }
}

/// A word is written in kernel space.
fn save<S: Store, D: Store>(bus: &Bus<S, D>, address: u16, written: WrittenWord) -> StepMoves
    ensures { AreMoves (changed_by_reference Word Kernel address bus.now (halves_written written))
        (named_moves result.items) }
{
    written.moves(bus, Size::Word, Mode::Kernel, address)
}

/// The codes become those of the new program status word, and kernel R6 is made of nothing.
fn enter_red() -> StepMoves
    ensures { AreMoves (register_changed KernelStack of_nothing of_new_status)
        (named_moves result.items) }
{
    let mut moves = StepMoves::new();
    tell_register(&mut moves, RegisterId::KernelStack, HalfSources::none());
    tell_codes(&mut moves, each_code(CellName::StatusByte(HalfName::Low)));
    moves
}

/// The codes become those that were saved.
fn give_up() -> StepMoves
    ensures { AreMoves (codes_changed (λ code. CodeSaved code ∷ [])) (named_moves result.items) }
{
    codes_moves(CodeSources {
        negative: sources(&[CellName::CodeSaved(CodeName::Negative)]),
        zero: sources(&[CellName::CodeSaved(CodeName::Zero)]),
        overflow: sources(&[CellName::CodeSaved(CodeName::Overflow)]),
        carry: sources(&[CellName::CodeSaved(CodeName::Carry)]),
    })
}

/// The moves of the step.
pub(crate) fn trap_moves<S: Store, D: Store>(
    bus: &Bus<S, D>,
    latch: &StepLatch,
    step: TrapStep,
    written: WrittenWord,
) -> StepMoves
    requires { HasStatus step }
    ensures { (p : Processor) → AreMoves (made_of_trap_step (halves_written written) step (state_of
        p bus.now (latch_of latch.now))) (named_moves result.items) }
{
    match step {
        TrapStep::ReadStatus { vector } => {
            status_moves(referred(bus, Size::Word, Mode::Kernel, vector + 2))
        }
        TrapStep::LowerStack => { stepped(RegisterId::of(Status::of_word(latch.status).mode, 6)) }
        TrapStep::PutWord { marks: _, word: _ } => put_at(bus, latch.place, written),
        TrapStep::Save { address, word: _ } => save(bus, address, written),
        TrapStep::Enter { context: _ } => codes_of(CellName::StatusByte(HalfName::Low)),
        TrapStep::BareStack => lose_register(RegisterId::KernelStack),
        TrapStep::EnterRed { context: _ } => enter_red(),
        TrapStep::GiveUp { context: _ } => give_up(),
        TrapStep::ReadCounter { vector: _ } => StepMoves::new(),
    }
}
