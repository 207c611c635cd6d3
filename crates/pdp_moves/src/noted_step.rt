//! Steps that are run one after the other, and what each moved.

ghost use Rattle.std.specs.Prelude.{◌≡◌, ◌≤◌, length, map, take};
ghost use Rattle.pdp_word.specs.declared.codes.Codes.{Codes};
ghost use Rattle.pdp_operand.specs.Phases.Phase.{state_of};
ghost use Rattle.pdp_made.specs.Cells.{DataCell};
ghost use Rattle.pdp_made.specs.PhaseRows.{made_through};
ghost use Rattle.pdp_steps.specs.Contract.{AreReady, ArePhases};
ghost use Rattle.pdp_steps.specs.Steps.{latch_of, phase_of};
ghost use Rattle.pdp_moves.specs.Moves.{sources_before};
ghost use Rattle.pdp_moves.specs.PlanRows.{moves_noted, rows_of_steps, steps_noted, written_at};

use crate::cell_move::StepMoves;
use crate::step_moves::moves_of_step;
use crate::written_word::WrittenWord;
use arrayvec::ArrayVec;
use pdp_operand::{Processor, Trap};
use pdp_steps::{MOST_STEPS, Microstep, StepLatch, run_step};
use pdp_store::Store;
use pdp_unibus::Bus;

/// A step that was run, and what it moved.
#[derive(Default, Drop)]
pub struct NotedStep {
    pub step: Microstep,
    pub moves: StepMoves,
}

/// The steps of a plan, in their order, as far as they went on. They take no memory.
pub type NotedSteps = ArrayVec<NotedStep, MOST_STEPS>;

/// What the step of this number writes, if it doesn't know it: step `saving` the program status
/// word that a sequence saves, and every other step a word that is no data.
fn written_at(saving: Option<usize>, number: usize) -> WrittenWord
    ensures { result ≡ written_at saving number }
{
    match saving {
        Some(step) => {
            if number == step {
                WrittenWord::SavedStatus
            } else {
                WrittenWord::Nothing
            }
        }
        None => WrittenWord::Nothing,
    }
}

/// Runs steps one after the other, and notes what each moved in place of what was noted before.
/// `saving` is the number of the step that writes the program status word which a sequence saves.
///
/// Err at the first that can't go on, which moved nothing.
pub fn note_steps<S: Store, D: Store>(
    processor: &mut Processor,
    bus: &mut Bus<S, D>,
    latch: &mut StepLatch,
    steps: &[Microstep],
    saving: Option<usize>,
    noted: &mut NotedSteps,
) -> Result<(), Trap>
    requires ready { AreReady steps.now latch.old.result }
    requires room { length steps.now ≤ MOST_STEPS }
    ensures phases { ArePhases (map phase_of steps.now) processor.old bus.old latch.old result
        processor.new bus.new latch.new }
    ensures made { (saved : Codes) (c : DataCell) → sources_before (moves_noted noted.new.items) c
        ≡ made_through (rows_of_steps saving steps.now) saved (state_of processor.old bus.old
        (latch_of latch.old)) c }
    ensures steps { steps_noted noted.new.items ≡ take (length noted.new.items) steps.now }
{
    noted.clear();
    for step in steps {
        let written = written_at(saving, noted.len());
        let moves = moves_of_step(bus, latch, *step, written);
        run_step(processor, bus, latch, *step)?;
        noted.push(NotedStep { step: *step, moves });
    }
    Ok(())
}
