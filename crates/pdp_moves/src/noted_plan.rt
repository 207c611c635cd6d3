//! A plan that is run step by step, to its end or to its trap.

ghost use Rattle.std.specs.Prelude.{◌≡◌, ◌≤◌, [], false, length, map, take};
ghost use Rattle.pdp_word.specs.declared.codes.Codes.{Codes};
ghost use Rattle.pdp_action.specs.Action.{action_of};
ghost use Rattle.pdp_operand.specs.Phases.Phase.{state_of};
ghost use Rattle.pdp_operand.specs.Phases.Plan.{phases_of};
ghost use Rattle.pdp_instruction.specs.Handbook.Action.{plan_of};
ghost use Rattle.pdp_made.specs.Cells.{DataCell};
ghost use Rattle.pdp_made.specs.InstructionRows.{rows_of_action};
ghost use Rattle.pdp_made.specs.PhaseRows.{made_through};
ghost use Rattle.pdp_steps.specs.ActionSteps.{steps_of_action};
ghost use Rattle.pdp_steps.specs.Contract.{AreReady};
ghost use Rattle.pdp_steps.specs.Steps.{latch_of, phase_of};
ghost use Rattle.pdp_moves.specs.CourseMoves.{EndAt, is_trap};
ghost use Rattle.pdp_moves.specs.Moves.{sources_before};
ghost use Rattle.pdp_moves.specs.PlanRows.{moves_noted, rows_of_steps, steps_noted};

use crate::noted_step::{NotedSteps, note_steps};
use pdp_action::action_of;
use pdp_operand::{Processor, Trap};
use pdp_steps::{MOST_STEPS, Microstep, StepLatch, steps_of};
use pdp_store::Store;
use pdp_unibus::Bus;

/// The steps of a plan as far as they went on, and what each moved.
#[derive(Drop)]
pub struct NotedPlan {
    pub steps: NotedSteps,
    /// Whether the plan came to a trap. What its steps handed on is lost then.
    pub is_lost: bool,
}

impl NotedPlan {
    /// No step was run.
    pub fn empty() -> NotedPlan
        ensures steps { result.steps.items ≡ [] }
        ensures lost { result.is_lost ≡ false }
    {
        NotedPlan {
            steps: NotedSteps::new(),
            is_lost: false,
        }
    }

    /// The same again.
    pub(crate) fn clear(&mut self)
        ensures steps { self.new.steps.items ≡ [] }
        ensures lost { self.new.is_lost ≡ false }
    {
        self.steps.clear();
        self.is_lost = false;
    }
}

/// Runs the steps of a plan, and notes what each moved in place of what was noted before. `saving`
/// is as in [`note_steps`].
///
/// Err if a step can't go on. What the steps handed on is then lost: the latch is as it was before
/// the first.
pub fn note_plan<S: Store, D: Store>(
    processor: &mut Processor,
    bus: &mut Bus<S, D>,
    latch: &mut StepLatch,
    steps: &[Microstep],
    saving: Option<usize>,
    noted: &mut NotedPlan,
) -> Result<(), Trap>
    requires ready { AreReady steps.now latch.old.result }
    requires room { length steps.now ≤ MOST_STEPS }
    ensures ends { EndAt (map phase_of steps.now) (state_of processor.old bus.old (latch_of
        latch.old)) result (state_of processor.new bus.new (latch_of latch.new)) }
    ensures made { (saved : Codes) (c : DataCell)
        → sources_before (moves_noted noted.new.steps.items) c
        ≡ made_through (rows_of_steps saving steps.now) saved (state_of processor.old bus.old
        (latch_of latch.old)) c }
    ensures steps { steps_noted noted.new.steps.items
        ≡ take (length noted.new.steps.items) steps.now }
    ensures lost { noted.new.is_lost ≡ is_trap result }
{
    let before = *latch;
    match note_steps(processor, bus, latch, steps, saving, &mut noted.steps) {
        Ok(()) => {
            noted.is_lost = false;
            Ok(())
        }
        Err(trap) => {
            noted.is_lost = true;
            *latch = before;
            Err(trap)
        }
    }
}

/// Runs the steps of the instruction that was fetched, as `carry_out` of pdp_steps does, and notes
/// what each moved in place of what was noted before.
///
/// Err if a step can't go on, as in [`note_plan`].
pub fn carry_out_noting<S: Store, D: Store>(
    processor: &mut Processor,
    bus: &mut Bus<S, D>,
    latch: &mut StepLatch,
    noted: &mut NotedPlan,
) -> Result<(), Trap>
    ensures ends { EndAt (phases_of (plan_of latch.old.instr)) (state_of processor.old bus.old
        (latch_of latch.old)) result (state_of processor.new bus.new (latch_of latch.new)) }
    ensures made { (saved : Codes) (c : DataCell)
        → sources_before (moves_noted noted.new.steps.items) c
        ≡ made_through (rows_of_action (action_of latch.old.instr)) saved (state_of processor.old
        bus.old (latch_of latch.old)) c }
    ensures steps { steps_noted noted.new.steps.items
        ≡ take (length noted.new.steps.items) (steps_of_action (action_of latch.old.instr)) }
    ensures lost { noted.new.is_lost ≡ is_trap result }
{
    // the steps may be run whatever is to be written: a word has its range once it is read
    let _word = latch.result;
    let steps = steps_of(action_of(latch.instr));
    note_plan(processor, bus, latch, steps.as_slice(), None, noted)
}
