//! The act of a turn, step by step.

ghost use Rattle.std.specs.Prelude.{◌≡◌, true, false};
ghost use Rattle.pdp_word.specs.declared.codes.Codes.{Codes};
ghost use Rattle.pdp_io_page.specs.Handbook.Source.{vector_of};
ghost use Rattle.pdp_operand.specs.Phases.Course.{follow};
ghost use Rattle.pdp_operand.specs.Phases.Phase.{state_of};
ghost use Rattle.pdp_cpu.specs.Handbook.Due.{course_of, due_now, serve, take_stack as stack_taken};
ghost use Rattle.pdp_cpu.specs.Handbook.Due.{take_trace as trace_taken};
ghost use Rattle.pdp_made.specs.Cells.{DataCell};
ghost use Rattle.pdp_made.specs.CourseRows.{made_along};
ghost use Rattle.pdp_made_run.specs.TurnRows.{rows_of_due, serving_rows};
ghost use Rattle.pdp_moves.specs.CourseMoves.{IsNoted, sources_of_act};
ghost use Rattle.pdp_steps.specs.Steps.{latch_of};
ghost use Rattle.pdp_turn_moves.specs.Acts.{named_due};

use crate::due_act::DueAct;
use pdp_io_page::Source;
use pdp_moves::{NotedAct, instruct_noting, interrupt_noting};
use pdp_operand::{Processor, RunState};
use pdp_steps::StepLatch;
use pdp_store::Store;
use pdp_unibus::Bus;

/// The trace trap.
fn trace_trap<S: Store, D: Store>(
    processor: &mut Processor,
    bus: &mut Bus<S, D>,
    latch: &mut StepLatch,
    noted: &mut NotedAct,
)
    ensures { (saved : Codes) → IsNoted (serving_rows trace_taken true 0o14) saved (state_of
        processor.old bus.old (latch_of latch.old)) (state_of processor.new bus.new (latch_of
        latch.new)) (sources_of_act noted.new) }
{
    processor.set_run(RunState::Run);
    processor.set_trace_trap(false);
    interrupt_noting(processor, bus, latch, true, 0o14, noted);
}

/// The stack trap, whose own pushes leave none pending.
fn stack_trap<S: Store, D: Store>(
    processor: &mut Processor,
    bus: &mut Bus<S, D>,
    latch: &mut StepLatch,
    noted: &mut NotedAct,
)
    ensures { (saved : Codes) → IsNoted (serving_rows stack_taken false 0o4) saved (state_of
        processor.old bus.old (latch_of latch.old)) (state_of processor.new bus.new (latch_of
        latch.new)) (sources_of_act noted.new) }
{
    processor.set_run(RunState::Run);
    processor.set_stack_trap(false);
    interrupt_noting(processor, bus, latch, false, 0o4, noted);
}

/// The interrupt of a source.
fn interrupt<S: Store, D: Store>(
    processor: &mut Processor,
    bus: &mut Bus<S, D>,
    latch: &mut StepLatch,
    source: Source,
    noted: &mut NotedAct,
)
    ensures { (saved : Codes) → IsNoted (serving_rows (serve source) true (vector_of source)) saved
        (state_of processor.old bus.old (latch_of latch.old)) (state_of processor.new bus.new
        (latch_of latch.new)) (sources_of_act noted.new) }
{
    processor.set_run(RunState::Run);
    bus.serve(source);
    interrupt_noting(processor, bus, latch, true, source.vector(), noted);
}

/// What is due takes place.
fn run_due<S: Store, D: Store>(
    processor: &mut Processor,
    bus: &mut Bus<S, D>,
    latch: &mut StepLatch,
    due: DueAct,
    noted: &mut NotedAct,
)
    ensures { (saved : Codes) → IsNoted (rows_of_due (named_due due)) saved (state_of processor.old
        bus.old (latch_of latch.old)) (state_of processor.new bus.new (latch_of latch.new))
        (sources_of_act noted.new) }
{
    match due {
        DueAct::Instruction => instruct_noting(processor, bus, latch, noted),
        DueAct::TraceTrap => trace_trap(processor, bus, latch, noted),
        DueAct::StackTrap => stack_trap(processor, bus, latch, noted),
        DueAct::Interrupt(source) => interrupt(processor, bus, latch, source, noted),
        DueAct::Nothing => noted.clear(),
    }
}

/// Runs the steps of the act of a turn that has begun, as `Machine::turn` of pdp_cpu does it. Notes
/// what each moved in place of what was noted before.
pub fn act_noting<S: Store, D: Store>(
    processor: &mut Processor,
    bus: &mut Bus<S, D>,
    latch: &mut StepLatch,
    noted: &mut NotedAct,
)
    ensures follows { follow (course_of (due_now processor.old bus.old.io_page)) (state_of
        processor.old bus.old (latch_of latch.old))
        ≡ state_of processor.new bus.new (latch_of latch.new) }
    ensures made { (saved : Codes) (c : DataCell) → sources_of_act noted.new c
        ≡ made_along (rows_of_due (due_now processor.old bus.old.io_page)) saved (state_of
        processor.old bus.old (latch_of latch.old)) c }
{
    let due = DueAct::of(processor, bus);
    run_due(processor, bus, latch, due, noted);
}
