//! What is due in a turn takes place.

ghost use Rattle.std.specs.Prelude.{◌≡◌, true, false, option_map};
ghost use Rattle.pdp_operand.specs.Contract.{Follows};
ghost use Rattle.pdp_operand.specs.Phases.Phase.{Latch, state_of};
ghost use Rattle.pdp_instruction.specs.Handbook.Instruction.{instruction, instruction_trap};
ghost use Rattle.pdp_instruction.specs.Handbook.TrapSequence.{trap_vector};
ghost use Rattle.pdp_cpu.specs.Handbook.Due.{act_of, course_of, due_now, serve, serving};
ghost use Rattle.pdp_cpu.specs.Handbook.Due.{take_stack as stack_taken, take_trace as trace_taken};
ghost use Rattle.pdp_cpu.specs.Handbook.Due.{without_stack_trap, without_trace_trap};
ghost use Rattle.pdp_cpu.specs.Handbook.TurnTrap.{trap_of_due};
ghost use Rattle.pdp_io_page.specs.Handbook.Source.{vector_of};

use crate::act::Act;
use crate::due::Due;
use crate::turn_trap::ActWithTrap;
use pdp_instruction::{SavedContext, begin_sequence, instruct, instruct_and_tell, vector};
use pdp_io_page::Source;
use pdp_operand::{Processor, RunState};
use pdp_store::Store;
use pdp_unibus::Bus;

/// The trace trap is no longer pending, and waiting ends.
fn take_trace(processor: &mut Processor)
    ensures { processor.new ≡ without_trace_trap processor.old }
{
    processor.set_run(RunState::Run);
    processor.set_trace_trap(false);
}

/// The stack trap is no longer pending, and waiting ends.
fn take_stack(processor: &mut Processor)
    ensures { processor.new ≡ without_stack_trap processor.old }
{
    processor.set_run(RunState::Run);
    processor.set_stack_trap(false);
}

/// The trace trap.
#[cold]
#[inline(never)]
#[tactic(auto, unfolding(crate::proofs::Rules::what_is_due))]
fn trace_trap<S: Store, D: Store>(processor: &mut Processor, bus: &mut Bus<S, D>)
    ensures follows { Follows (serving trace_taken true 0o14) processor.old bus.old processor.new
        bus.new }
{
    take_trace(processor);
    let context = SavedContext::of(processor, bus);
    begin_sequence(processor, bus, true, 0o14, context);
}

/// The stack trap, whose own pushes leave none pending.
#[cold]
#[inline(never)]
#[tactic(auto, unfolding(crate::proofs::Rules::what_is_due))]
fn stack_trap<S: Store, D: Store>(processor: &mut Processor, bus: &mut Bus<S, D>)
    ensures follows { Follows (serving stack_taken false 0o4) processor.old bus.old processor.new
        bus.new }
{
    take_stack(processor);
    let context = SavedContext::of(processor, bus);
    begin_sequence(processor, bus, false, 0o4, context);
}

/// The interrupt of a source.
#[cold]
#[inline(never)]
#[tactic(auto, unfolding(crate::proofs::Rules::what_is_due))]
fn interrupt<S: Store, D: Store>(processor: &mut Processor, bus: &mut Bus<S, D>, source: Source)
    ensures follows { Follows (serving (serve source) true (vector_of source))
        processor.old bus.old processor.new bus.new }
{
    processor.set_run(RunState::Run);
    bus.serve(source);
    let context = SavedContext::of(processor, bus);
    begin_sequence(processor, bus, true, source.vector(), context);
}

/// What is due takes place, and is told.
#[cold]
#[inline(never)]
pub fn take_what_is_due<S: Store, D: Store>(processor: &mut Processor, bus: &mut Bus<S, D>) -> Act
    ensures act { result ≡ act_of (due_now processor.old bus.old.io_page) }
    ensures follows { Follows (course_of (due_now processor.old bus.old.io_page)) processor.old
        bus.old processor.new bus.new }
{
    let due = Due::of(processor, bus);
    run_due(processor, bus, due);
    due.act()
}

/// What is due takes place.
#[inline(always)]
#[tactic(auto, unfolding(pdp_operand::specs::Phases::Course::follow))]
fn run_due<S: Store, D: Store>(processor: &mut Processor, bus: &mut Bus<S, D>, due: Due)
    ensures follows { Follows (course_of due) processor.old bus.old processor.new bus.new }
{
    match due {
        Due::Instruction => instruct(processor, bus),
        Due::TraceTrap => trace_trap(processor, bus),
        Due::StackTrap => stack_trap(processor, bus),
        Due::Interrupt(source) => interrupt(processor, bus, source),
        Due::Nothing => {}
    }
}

/// What is due takes place, as in `take_what_is_due`; returns the act with its trap.
pub fn take_due_and_tell<S: Store, D: Store>(
    processor: &mut Processor,
    bus: &mut Bus<S, D>,
) -> ActWithTrap
    ensures act { result.act ≡ act_of (due_now processor.old bus.old.io_page) }
    ensures trap { (latch : Latch) → result.trap ≡ trap_of_due
        (due_now processor.old bus.old.io_page) (state_of processor.old bus.old latch) }
    ensures follows { Follows (course_of (due_now processor.old bus.old.io_page)) processor.old
        bus.old processor.new bus.new }
{
    let due = Due::of(processor, bus);
    let trap = run_due_and_tell(processor, bus, due);
    ActWithTrap {
        act: due.act(),
        trap,
    }
}

/// What is due takes place; returns the vector of its trap.
#[tactic(auto, unfolding(pdp_operand::specs::Phases::Course::follow))]
fn run_due_and_tell<S: Store, D: Store>(
    processor: &mut Processor,
    bus: &mut Bus<S, D>,
    due: Due,
) -> Option<u16>
    ensures trap { (latch : Latch) → result ≡ trap_of_due due
        (state_of processor.old bus.old latch) }
    ensures follows { Follows (course_of due) processor.old bus.old processor.new bus.new }
{
    match due {
        Due::Instruction => instruct_and_tell_vector(processor, bus),
        Due::TraceTrap => {
            trace_trap(processor, bus);
            Some(0o14)
        }
        Due::StackTrap => {
            stack_trap(processor, bus);
            Some(0o4)
        }
        Due::Interrupt(source) => {
            interrupt(processor, bus, source);
            None
        }
        Due::Nothing => None,
    }
}

/// One instruction; returns the vector of its trap.
fn instruct_and_tell_vector<S: Store, D: Store>(
    processor: &mut Processor,
    bus: &mut Bus<S, D>,
) -> Option<u16>
    ensures trap { (latch : Latch) → result ≡ option_map trap_vector
        (instruction_trap (state_of processor.old bus.old latch)) }
    ensures follows { Follows instruction processor.old bus.old processor.new bus.new }
{
    match instruct_and_tell(processor, bus) {
        Some(trap) => Some(vector(trap)),
        None => None,
    }
}
