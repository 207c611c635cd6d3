//! The steps of the sequence of a trap or an interrupt, and of the red sequence.

ghost use Rattle.std.specs.Prelude.{◌≡◌, ◌<◌, map};
ghost use Rattle.pdp_word.specs.declared.size.Size.{Size};
ghost use Rattle.pdp_operand.specs.Phases.Plan.{phases_of};
ghost use Rattle.pdp_instruction.specs.Handbook.TrapSequence.{red_plan, trap_plan};
ghost use Rattle.pdp_steps.specs.Contract.{CanRunInOrder};
ghost use Rattle.pdp_steps.specs.Steps.{phase_of};

use crate::step::Microstep;
use crate::trap_step::TrapStep;
use pdp_instruction::SavedContext;

/// The steps of the sequence with this vector (octal, bytes), in the order of its plan. `context`
/// is what it saves; `marks` says whether its pushes may leave a stack trap pending.
#[tactic(auto, unfolding(crate::proofs::Rules::sequence_plans))]
pub fn sequence_steps(marks: bool, vector: u16, context: SavedContext) -> [Microstep; 7]
    requires { vector < 0o1000 }
    ensures phases { map phase_of result ≡ phases_of (trap_plan marks vector context) }
    ensures ready { (size : Size) → CanRunInOrder result size }
{
    let status = context.status.word();
    let counter = context.counter;
    [
        Microstep::Trap(TrapStep::ReadCounter { vector }),
        Microstep::Trap(TrapStep::ReadStatus { vector }),
        Microstep::Trap(TrapStep::LowerStack),
        Microstep::Trap(TrapStep::PutWord {
            marks,
            word: status,
        }),
        Microstep::Trap(TrapStep::LowerStack),
        Microstep::Trap(TrapStep::PutWord {
            marks,
            word: counter,
        }),
        Microstep::Trap(TrapStep::Enter { context }),
    ]
}

/// The steps of the red sequence, in the order of its plan.
#[tactic(auto, unfolding(crate::proofs::Rules::sequence_plans))]
pub fn red_steps(context: SavedContext) -> [Microstep; 6]
    ensures phases { map phase_of result ≡ phases_of (red_plan context) }
    ensures ready { (size : Size) → CanRunInOrder result size }
{
    let status = context.status.word();
    let counter = context.counter;
    [
        Microstep::Trap(TrapStep::BareStack),
        Microstep::Trap(TrapStep::ReadCounter { vector: 4 }),
        Microstep::Trap(TrapStep::ReadStatus { vector: 4 }),
        Microstep::Trap(TrapStep::Save {
            address: 2,
            word: status,
        }),
        Microstep::Trap(TrapStep::Save {
            address: 0,
            word: counter,
        }),
        Microstep::Trap(TrapStep::EnterRed { context }),
    ]
}
