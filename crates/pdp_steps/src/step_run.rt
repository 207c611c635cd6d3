//! Steps that are run, one alone or one after the other.

ghost use Rattle.std.specs.Prelude.{◌≡◌, ◌<◌, map};
ghost use Rattle.pdp_word.specs.Size.{span};
ghost use Rattle.pdp_word.specs.declared.size.Size.{Size};
ghost use Rattle.pdp_operand.specs.Phases.Plan.{phases_of};
ghost use Rattle.pdp_instruction.specs.Handbook.Action.{plan_of};
ghost use Rattle.pdp_instruction.specs.Handbook.TrapSequence.{red_plan, trap_plan};
ghost use Rattle.pdp_steps.specs.Contract.{AreReady, ArePhases, IsPhase, IsStep};
ghost use Rattle.pdp_steps.specs.Steps.{CanRun, phase_of, size_after};

use crate::action_steps::steps_of;
use crate::fetch_step::{fetch_instruction, note_trace};
use crate::step::Microstep;
use crate::step_latch::StepLatch;
use crate::trap_sequences::{red_steps, sequence_steps};
use pdp_action::action_of;
use pdp_instruction::SavedContext;
use pdp_operand::{Processor, Trap};
use pdp_store::Store;
use pdp_unibus::Bus;

/// Runs the step of its kind.
#[inline(always)]
fn run_kind<S: Store, D: Store>(
    processor: &mut Processor,
    bus: &mut Bus<S, D>,
    latch: &mut StepLatch,
    step: Microstep,
) -> Result<(), Trap>
    requires { CanRun step latch.old }
    ensures phase { IsPhase (phase_of step) processor.old bus.old latch.old result processor.new
        bus.new latch.new }
    ensures fits { (size : Size) → latch.old.result < span size
        → latch.new.result < span (size_after step size) }
{
    match step {
        Microstep::Fetch => fetch_instruction(processor, bus, latch),
        Microstep::Operand(step) => step.run(processor, bus, latch),
        Microstep::Execute(step) => {
            step.run(processor, bus, latch);
            Ok(())
        }
        Microstep::Extended(step) => {
            step.run(processor, bus, latch);
            Ok(())
        }
        Microstep::Control(step) => step.run(processor, bus, latch),
        Microstep::Jump(step) => step.run(processor, bus, latch),
        Microstep::Trap(step) => step.run(processor, bus, latch),
        Microstep::NoteTrace(instr) => {
            note_trace(processor, bus, latch, instr);
            Ok(())
        }
    }
}

/// Runs one step: the phase that it names.
///
/// What is to be written must fit the step: a byte is below 400 (octal). After the step it has the
/// size that the step gives it.
///
/// Err if the step can't go on. Processor and bus are then as the phase leaves them.
#[tactic(auto, using(crate::proofs::Single::single))]
pub fn run_step<S: Store, D: Store>(
    processor: &mut Processor,
    bus: &mut Bus<S, D>,
    latch: &mut StepLatch,
    step: Microstep,
) -> Result<(), Trap>
    requires { CanRun step latch.old }
    ensures phase { IsStep (phase_of step) processor.old bus.old latch.old result processor.new
        bus.new latch.new }
    ensures fits { (size : Size) → latch.old.result < span size
        → latch.new.result < span (size_after step size) }
{
    run_kind(processor, bus, latch, step)
}

/// Runs steps one after the other.
///
/// Err at the first that can't go on.
pub fn run_steps<S: Store, D: Store>(
    processor: &mut Processor,
    bus: &mut Bus<S, D>,
    latch: &mut StepLatch,
    steps: &[Microstep],
) -> Result<(), Trap>
    requires { AreReady steps.now latch.old.result }
    ensures { ArePhases (map phase_of steps.now) processor.old bus.old latch.old result
        processor.new bus.new latch.new }
{
    for step in steps {
        run_kind(processor, bus, latch, *step)?;
    }
    Ok(())
}

/// Runs the steps of the instruction that was fetched.
///
/// Err at the first that can't go on.
pub fn carry_out<S: Store, D: Store>(
    processor: &mut Processor,
    bus: &mut Bus<S, D>,
    latch: &mut StepLatch,
) -> Result<(), Trap>
    ensures { ArePhases (phases_of (plan_of latch.old.instr)) processor.old bus.old latch.old result
        processor.new bus.new latch.new }
{
    // the steps may be run whatever is to be written: a word has its range once it is read
    let _word = latch.result;
    let steps = steps_of(action_of(latch.instr));
    run_steps(processor, bus, latch, steps.as_slice())
}

/// Runs the steps of the sequence with this vector (octal, bytes). `context` is what it saves;
/// `marks` says whether its pushes may leave a stack trap pending.
///
/// Err at the first that can't go on.
pub fn run_sequence<S: Store, D: Store>(
    processor: &mut Processor,
    bus: &mut Bus<S, D>,
    latch: &mut StepLatch,
    marks: bool,
    vector: u16,
    context: SavedContext,
) -> Result<(), Trap>
    requires { vector < 0o1000 }
    ensures { ArePhases (phases_of (trap_plan marks vector context)) processor.old bus.old latch.old
        result processor.new bus.new latch.new }
{
    // as in `carry_out`
    let _word = latch.result;
    let steps = sequence_steps(marks, vector, context);
    run_steps(processor, bus, latch, &steps)
}

/// Runs the steps of the red sequence.
///
/// Err at the first that can't go on.
pub fn run_red_sequence<S: Store, D: Store>(
    processor: &mut Processor,
    bus: &mut Bus<S, D>,
    latch: &mut StepLatch,
    context: SavedContext,
) -> Result<(), Trap>
    ensures { ArePhases (phases_of (red_plan context)) processor.old bus.old latch.old result
        processor.new bus.new latch.new }
{
    // as in `carry_out`
    let _word = latch.result;
    let steps = red_steps(context);
    run_steps(processor, bus, latch, &steps)
}
