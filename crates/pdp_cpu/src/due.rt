ghost use Rattle.std.specs.Prelude.{◌≡◌, true};
ghost use Rattle.pdp_cpu.specs.declared.due.Due.TheVariants.{Instruction};
ghost use Rattle.pdp_cpu.specs.Handbook.Due.{act_of, due_now};

use crate::act::Act;
use pdp_io_page::Source;
use pdp_operand::{Processor, RunState};
use pdp_store::Store;
use pdp_unibus::Bus;

/// What is due in a turn that has begun.
#[derive(Clone, Copy)]
pub enum Due {
    /// An instruction.
    Instruction,
    /// The trace trap, which is pending.
    TraceTrap,
    /// The stack trap, which is pending.
    StackTrap,
    /// An interrupt that this source requests.
    Interrupt(Source),
    /// Nothing: the machine waits or is halted.
    Nothing,
}

impl Due {
    /// The act that the turn then begins with.
    #[inline(always)]
    pub fn act(self) -> Act
        ensures { result ≡ act_of self }
    {
        match self {
            Due::Instruction => Act::Instr,
            Due::TraceTrap => Act::Trace,
            Due::StackTrap => Act::Stack,
            Due::Interrupt(source) => Act::Irq(source.vector()),
            Due::Nothing => Act::Idle,
        }
    }

    /// What is due now.
    #[inline(always)]
    pub fn of<S: Store, D: Store>(processor: &Processor, bus: &Bus<S, D>) -> Due
        ensures { result ≡ due_now processor.now bus.now.io_page }
    {
        if processor.run == RunState::Halted {
            Due::Nothing
        } else if processor.trace_trap {
            Due::TraceTrap
        } else if processor.stack_trap {
            Due::StackTrap
        } else if let Some(source) = bus.choose(bus.status().priority) {
            Due::Interrupt(source)
        } else if processor.run == RunState::Wait {
            Due::Nothing
        } else {
            Due::Instruction
        }
    }
}

/// Whether an instruction is due because the machine neither waits nor is halted, and nothing is
/// pending or requested. Else one may be due all the same, if what is requested has no level above
/// the priority. Each turn asks this, so its tests are joined without a jump for each.
#[inline(always)]
#[tactic(auto, using(crate::proofs::Dues::instruction_is_due))]
pub fn nothing_is_pending<S: Store, D: Store>(processor: &Processor, bus: &Bus<S, D>) -> bool
    ensures { result ≡ true → due_now processor.now bus.now.io_page ≡ Instruction }
{
    let pending = processor.trace_trap | processor.stack_trap | bus.may_request();
    !((processor.run != RunState::Run) | pending)
}
