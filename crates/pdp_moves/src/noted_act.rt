//! An instruction that is run step by step, with its fetch and its trap.

ghost use Rattle.std.specs.Prelude.{◌≡◌, ◌<◌, [], ◌∷◌};
ghost use Rattle.pdp_word.specs.declared.codes.Codes.{Codes};
ghost use Rattle.pdp_operand.specs.Phases.Course.{follow};
ghost use Rattle.pdp_operand.specs.Phases.Phase.{state_of};
ghost use Rattle.pdp_instruction.specs.Handbook.Instruction.{instruction, note_trace};
ghost use Rattle.pdp_instruction.specs.Handbook.TrapSequence.{context};
ghost use Rattle.pdp_made.specs.Cells.{DataCell};
ghost use Rattle.pdp_made.specs.CourseRows.{Along, Finished, Saving, instruction_course_rows};
ghost use Rattle.pdp_made.specs.CourseRows.{instruction_rows, made_along, sequence_rows};
ghost use Rattle.pdp_made.specs.OperandRows.{keeps_data};
ghost use Rattle.pdp_made.specs.PhaseRows.{of_itself};
ghost use Rattle.pdp_steps.specs.Steps.{latch_of};
ghost use Rattle.pdp_moves.specs.CourseMoves.{IsNoted, sources_of_act};

use crate::noted_plan::{NotedPlan, carry_out_noting};
use crate::noted_sequence::{NotedSequence, handle_noting, run_sequence_noting};
use pdp_decode::Instr;
use pdp_instruction::SavedContext;
use pdp_operand::Processor;
use pdp_steps::{Microstep, StepLatch, run_step};
use pdp_store::Store;
use pdp_unibus::Bus;

/// What an act moved: an instruction with its trap, or a sequence alone. The fetch and the note of
/// a trace trap move nothing.
#[derive(Drop)]
pub struct NotedAct {
    pub plan: NotedPlan,
    /// Whether a sequence followed: it saves the codes of then.
    pub saves_codes: bool,
    pub sequence: NotedSequence,
}

impl NotedAct {
    /// No step was run.
    pub fn empty() -> NotedAct
        ensures { (c : DataCell) → sources_of_act result c ≡ c ∷ [] }
    {
        NotedAct {
            plan: NotedPlan::empty(),
            saves_codes: false,
            sequence: NotedSequence::empty(),
        }
    }

    /// The same again.
    pub fn clear(&mut self)
        ensures { (c : DataCell) → sources_of_act self.new c ≡ c ∷ [] }
    {
        self.plan.clear();
        self.saves_codes = false;
        self.sequence.clear();
    }
}

/// A trace trap is noted after an instruction, while T is set.
fn note_trace<S: Store, D: Store>(
    processor: &mut Processor,
    bus: &mut Bus<S, D>,
    latch: &mut StepLatch,
    instr: Instr,
)
    ensures { (saved : Codes) → IsNoted (Along (keeps_data (note_trace instr) ∷ []) (λ _. Finished)
        (λ _ _. Finished)) saved (state_of processor.old bus.old (latch_of latch.old)) (state_of
        processor.new bus.new (latch_of latch.new)) of_itself }
{
    let before = *latch;
    match run_step(processor, bus, latch, Microstep::NoteTrace(instr)) {
        Ok(()) => {}
        // never: the step asks for nothing
        Err(_trap) => *latch = before,
    }
}

/// Executes the instruction that was fetched, with PC past its word.
fn execute_noting<S: Store, D: Store>(
    processor: &mut Processor,
    bus: &mut Bus<S, D>,
    latch: &mut StepLatch,
    noted: &mut NotedAct,
)
    ensures { (saved : Codes) → IsNoted (instruction_course_rows latch.old.instr) saved (state_of
        processor.old bus.old (latch_of latch.old)) (state_of processor.new bus.new (latch_of
        latch.new)) (sources_of_act noted.new) }
{
    let instr = latch.instr;
    match carry_out_noting(processor, bus, latch, &mut noted.plan) {
        Ok(()) => {
            noted.saves_codes = false;
            noted.sequence.clear();
            note_trace(processor, bus, latch, instr);
        }
        Err(trap) => {
            noted.saves_codes = true;
            handle_noting(processor, bus, latch, trap, &mut noted.sequence);
        }
    }
}

/// Runs the steps of one instruction, with its fetch and its trap, as `instruct` of pdp_instruction
/// does it. Notes what each moved in place of what was noted before.
pub fn instruct_noting<S: Store, D: Store>(
    processor: &mut Processor,
    bus: &mut Bus<S, D>,
    latch: &mut StepLatch,
    noted: &mut NotedAct,
)
    ensures follows { follow instruction (state_of processor.old bus.old (latch_of latch.old))
        ≡ state_of processor.new bus.new (latch_of latch.new) }
    ensures made { (saved : Codes) (c : DataCell) → sources_of_act noted.new c
        ≡ made_along instruction_rows saved (state_of processor.old bus.old (latch_of latch.old))
        c }
{
    run_instruction(processor, bus, latch, noted);
}

/// The same, told by the rows of its course.
fn run_instruction<S: Store, D: Store>(
    processor: &mut Processor,
    bus: &mut Bus<S, D>,
    latch: &mut StepLatch,
    noted: &mut NotedAct,
)
    ensures { (saved : Codes) → IsNoted instruction_rows saved (state_of processor.old bus.old
        (latch_of latch.old)) (state_of processor.new bus.new (latch_of latch.new)) (sources_of_act
        noted.new) }
{
    let before = *latch;
    match run_step(processor, bus, latch, Microstep::Fetch) {
        Ok(()) => execute_noting(processor, bus, latch, noted),
        Err(trap) => {
            *latch = before;
            noted.plan.clear();
            noted.saves_codes = true;
            handle_noting(processor, bus, latch, trap, &mut noted.sequence);
        }
    }
}

/// Runs the steps of the sequence with this vector (octal, bytes), as `begin_sequence` of
/// pdp_instruction does it: the codes of now are saved. `marks` says whether its pushes may leave a
/// stack trap pending. Notes what each step moved in place of what was noted before.
pub fn interrupt_noting<S: Store, D: Store>(
    processor: &mut Processor,
    bus: &mut Bus<S, D>,
    latch: &mut StepLatch,
    marks: bool,
    vector: u16,
    noted: &mut NotedAct,
)
    requires { vector < 0o1000 }
    ensures { (saved : Codes) → IsNoted (Saving (sequence_rows marks vector (context processor.old
        bus.old.io_page))) saved (state_of processor.old bus.old (latch_of latch.old)) (state_of
        processor.new bus.new (latch_of latch.new)) (sources_of_act noted.new) }
{
    noted.plan.clear();
    noted.saves_codes = true;
    let context = SavedContext::of(processor, bus);
    let sequence = &mut noted.sequence;
    run_sequence_noting(processor, bus, latch, marks, vector, context, sequence);
}
