//! What is due in a turn.

ghost use Rattle.std.specs.Prelude.{◌≡◌};
ghost use Rattle.pdp_cpu.specs.Handbook.Due.{due_now};
ghost use Rattle.pdp_turn_moves.specs.Acts.{named_due};

use pdp_io_page::Source;
use pdp_operand::{Processor, RunState};
use pdp_store::Store;
use pdp_unibus::Bus;

/// What is due in a turn that has begun, as pdp_cpu has it.
#[derive(Clone, Copy)]
pub(crate) enum DueAct {
    Instruction,
    TraceTrap,
    StackTrap,
    /// An interrupt that this source requests.
    Interrupt(Source),
    /// The machine waits or is halted.
    Nothing,
}

impl DueAct {
    /// What is due now.
    pub(crate) fn of<S: Store, D: Store>(processor: &Processor, bus: &Bus<S, D>) -> DueAct
        ensures { named_due result ≡ due_now processor.now bus.now.io_page }
    {
        if processor.run == RunState::Halted {
            DueAct::Nothing
        } else if processor.trace_trap {
            DueAct::TraceTrap
        } else if processor.stack_trap {
            DueAct::StackTrap
        } else if let Some(source) = bus.choose(bus.status().priority) {
            DueAct::Interrupt(source)
        } else if processor.run == RunState::Wait {
            DueAct::Nothing
        } else {
            DueAct::Instruction
        }
    }
}
