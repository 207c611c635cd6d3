//! The sequence of a trap or an interrupt that is run step by step.

ghost use Rattle.std.specs.Prelude.{◌≡◌, ◌<◌, [], ◌∷◌};
ghost use Rattle.pdp_word.specs.declared.size.Size.{Size};
ghost use Rattle.pdp_operand.specs.Phases.Phase.{state_of};
ghost use Rattle.pdp_instruction.specs.Handbook.TrapSequence.{context};
ghost use Rattle.pdp_made.specs.CourseRows.{Along, Finished, after_trap_rows, red_course_rows};
ghost use Rattle.pdp_made.specs.CourseRows.{sequence_rows};
ghost use Rattle.pdp_made.specs.Cells.{DataCell};
ghost use Rattle.pdp_made.specs.TrapRows.{give_up_row};
ghost use Rattle.pdp_steps.specs.Contract.{CanRunInOrder};
ghost use Rattle.pdp_steps.specs.Steps.{latch_of};
ghost use Rattle.pdp_moves.specs.CourseMoves.{IsNoted, sources_of_plan, sources_of_red};
ghost use Rattle.pdp_moves.specs.CourseMoves.{sources_of_sequence, steps_of_red};
ghost use Rattle.pdp_moves.specs.CourseMoves.{steps_of_sequence};

use crate::noted_plan::{NotedPlan, note_plan};
use pdp_instruction::{SavedContext, vector};
use pdp_operand::{Processor, Trap};
use pdp_steps::{Microstep, StepLatch, TrapStep};
use pdp_store::Store;
use pdp_unibus::Bus;

/// What a sequence moved, plan by plan: a sequence that can't go on becomes red, and if that can't
/// go on, the processor halts.
#[derive(Drop)]
pub struct NotedSequence {
    pub first: NotedPlan,
    pub red: NotedPlan,
    pub halt: NotedPlan,
}

impl NotedSequence {
    /// No step was run.
    pub fn empty() -> NotedSequence
        ensures { (c : DataCell) → sources_of_sequence result c ≡ c ∷ [] }
    {
        NotedSequence {
            first: NotedPlan::empty(),
            red: NotedPlan::empty(),
            halt: NotedPlan::empty(),
        }
    }

    /// The same again.
    pub(crate) fn clear(&mut self)
        ensures { (c : DataCell) → sources_of_sequence self.new c ≡ c ∷ [] }
    {
        self.first.clear();
        self.red.clear();
        self.halt.clear();
    }
}

/// The step of both sequences that writes the program status word.
const SAVING: Option<usize> = Some(3);

/// The steps of a sequence.
fn steps_of_sequence(marks: bool, vector: u16, context: SavedContext) -> [Microstep; 7]
    requires { vector < 0o1000 }
    ensures steps { result ≡ steps_of_sequence marks vector context }
    ensures ready { (size : Size) → CanRunInOrder result size }
{
    let status = context.status.word();
    let counter = context.counter;
    [
        Microstep::Trap(TrapStep::ReadCounter { vector }),
        Microstep::Trap(TrapStep::ReadStatus { vector }),
        Microstep::Trap(TrapStep::LowerStack),
        Microstep::Trap(TrapStep::PutWord {
            marks,
            word: status,
        }),
        Microstep::Trap(TrapStep::LowerStack),
        Microstep::Trap(TrapStep::PutWord {
            marks,
            word: counter,
        }),
        Microstep::Trap(TrapStep::Enter { context }),
    ]
}

/// The steps of the red sequence.
fn steps_of_red(context: SavedContext) -> [Microstep; 6]
    ensures steps { result ≡ steps_of_red context }
    ensures ready { (size : Size) → CanRunInOrder result size }
{
    let status = context.status.word();
    let counter = context.counter;
    [
        Microstep::Trap(TrapStep::BareStack),
        Microstep::Trap(TrapStep::ReadCounter { vector: 4 }),
        Microstep::Trap(TrapStep::ReadStatus { vector: 4 }),
        Microstep::Trap(TrapStep::Save {
            address: 2,
            word: status,
        }),
        Microstep::Trap(TrapStep::Save {
            address: 0,
            word: counter,
        }),
        Microstep::Trap(TrapStep::EnterRed { context }),
    ]
}

/// The processor halts.
fn give_up_noting<S: Store, D: Store>(
    processor: &mut Processor,
    bus: &mut Bus<S, D>,
    latch: &mut StepLatch,
    context: SavedContext,
    noted: &mut NotedPlan,
)
    ensures { IsNoted (Along (give_up_row context ∷ []) (λ _. Finished) (λ _ _. Finished))
        context.status.codes (state_of processor.old bus.old (latch_of latch.old)) (state_of
        processor.new bus.new (latch_of latch.new)) (sources_of_plan noted.new) }
{
    // as in `carry_out_noting`
    let _word = latch.result;
    let steps = [Microstep::Trap(TrapStep::GiveUp { context })];
    // it never fails: the step asks for nothing
    let _ = note_plan(processor, bus, latch, &steps, None, noted);
}

/// The red sequence; if it can't go on the processor halts.
fn run_red_noting<S: Store, D: Store>(
    processor: &mut Processor,
    bus: &mut Bus<S, D>,
    latch: &mut StepLatch,
    context: SavedContext,
    noted: &mut NotedSequence,
)
    ensures noted { IsNoted (red_course_rows context) context.status.codes (state_of processor.old
        bus.old (latch_of latch.old)) (state_of processor.new bus.new (latch_of latch.new))
        (sources_of_red noted.new) }
    ensures first { noted.new.first ≡ noted.old.first }
{
    // as in `carry_out_noting`
    let _word = latch.result;
    let steps = steps_of_red(context);
    match note_plan(processor, bus, latch, &steps, SAVING, &mut noted.red) {
        Ok(()) => noted.halt.clear(),
        Err(_trap) => give_up_noting(processor, bus, latch, context, &mut noted.halt),
    }
}

/// Runs the steps of the sequence of the trap or interrupt with this vector (octal, bytes), as
/// `begin_sequence` of pdp_instruction does it, and notes what each moved in place of what was
/// noted before. `context` is what it saves: PC and the program status of when it begins. `marks`
/// says whether its pushes may leave a stack trap pending.
pub(crate) fn run_sequence_noting<S: Store, D: Store>(
    processor: &mut Processor,
    bus: &mut Bus<S, D>,
    latch: &mut StepLatch,
    marks: bool,
    vector: u16,
    context: SavedContext,
    noted: &mut NotedSequence,
)
    requires { vector < 0o1000 }
    ensures { IsNoted (sequence_rows marks vector context) context.status.codes (state_of
        processor.old bus.old (latch_of latch.old)) (state_of processor.new bus.new (latch_of
        latch.new)) (sources_of_sequence noted.new) }
{
    // as in `carry_out_noting`
    let _word = latch.result;
    let steps = steps_of_sequence(marks, vector, context);
    match note_plan(processor, bus, latch, &steps, SAVING, &mut noted.first) {
        Ok(()) => {
            noted.red.clear();
            noted.halt.clear();
        }
        Err(_trap) => run_red_noting(processor, bus, latch, context, noted),
    }
}

/// What follows if an instruction or its fetch can't go on.
pub(crate) fn handle_noting<S: Store, D: Store>(
    processor: &mut Processor,
    bus: &mut Bus<S, D>,
    latch: &mut StepLatch,
    trap: Trap,
    noted: &mut NotedSequence,
)
    ensures { IsNoted (after_trap_rows trap (context processor.old bus.old.io_page))
        bus.old.io_page.status.codes (state_of processor.old bus.old (latch_of latch.old))
        (state_of processor.new bus.new (latch_of latch.new)) (sources_of_sequence noted.new) }
{
    let context = SavedContext::of(processor, bus);
    if trap == Trap::StackLimit {
        noted.first.clear();
        run_red_noting(processor, bus, latch, context, noted);
    } else {
        run_sequence_noting(processor, bus, latch, true, vector(trap), context, noted);
    }
}
