//! The sequence of a trap, and the red sequence.

ghost use Rattle.std.specs.Prelude.{◌≡◌, ◌<◌, Ok};
ghost use Rattle.pdp_operand.specs.Handbook.Operand.{lower as lower_phase};
ghost use Rattle.pdp_instruction.specs.Handbook.TrapSequence.{enter as enter_phase, new_mode};
ghost use Rattle.pdp_instruction.specs.Handbook.TrapSequence.{enter_red as enter_red_phase};
ghost use Rattle.pdp_instruction.specs.Handbook.TrapSequence.{give_up as give_up_phase};
ghost use Rattle.pdp_instruction.specs.Handbook.TrapSequence.{put_word as put_word_phase};
ghost use Rattle.pdp_instruction.specs.Handbook.TrapSequence.{save as save_phase, vector_counter};
ghost use Rattle.pdp_instruction.specs.Handbook.TrapSequence.{vector_status};
ghost use Rattle.pdp_steps.specs.Contract.{IsPhase};
ghost use Rattle.pdp_steps.specs.Steps.{HasStatus, entered_status, phase_of_trap_step};

use crate::step_latch::StepLatch;
use pdp_instruction::SavedContext;
use pdp_io_page::Status;
use pdp_kt11::Mode;
use pdp_operand::{Place, Processor, RegisterId, RunState, Trap, lower, read_word, write_word};
use pdp_store::Store;
use pdp_unibus::Bus;

/// A step of the sequence of a trap or an interrupt, or of the red sequence.
///
/// DEC PDP-11/40 Processor Handbook (1972), Processor traps and Stack limit violations.
#[derive(Clone, Copy)]
pub enum TrapStep {
    /// The new PC is read at the vector.
    ReadCounter { vector: u16 },
    /// The new program status word is read after it.
    ReadStatus { vector: u16 },
    /// The stack of the new mode shrinks for a push.
    LowerStack,
    /// A word is pushed there; `marks` says whether a stack trap may be pending then.
    PutWord { marks: bool, word: u16 },
    /// PC and the program status become the new ones.
    Enter { context: SavedContext },
    /// Kernel R6 becomes 4.
    BareStack,
    /// A word is written in kernel space.
    Save { address: u16, word: u16 },
    /// The end of the red sequence.
    EnterRed { context: SavedContext },
    /// The processor halts, with the old PC and the old program status.
    GiveUp { context: SavedContext },
}

impl TrapStep {
    /// Runs the step.
    ///
    /// Err if it can't go on.
    #[inline(always)]
    #[tactic(auto, unfolding(crate::proofs::Rules::trapping))]
    pub fn run<S: Store, D: Store>(
        self,
        processor: &mut Processor,
        bus: &mut Bus<S, D>,
        latch: &mut StepLatch,
    ) -> Result<(), Trap>
        requires { HasStatus self }
        ensures phase { IsPhase (phase_of_trap_step self) processor.old bus.old latch.old result
            processor.new bus.new latch.new }
        ensures result { latch.new.result ≡ latch.old.result }
    {
        match self {
            TrapStep::ReadCounter { vector } => read_counter(processor, bus, latch, vector),
            TrapStep::ReadStatus { vector } => read_status(processor, bus, latch, vector),
            TrapStep::LowerStack => lower_stack(processor, bus, latch),
            TrapStep::PutWord { marks, word } => put_word(processor, bus, latch, marks, word),
            TrapStep::Enter { context } => {
                enter(processor, bus, latch, context);
                Ok(())
            }
            TrapStep::BareStack => {
                processor.set_register(RegisterId::KernelStack, 4);
                Ok(())
            }
            TrapStep::Save { address, word } => save(processor, bus, latch, address, word),
            TrapStep::EnterRed { context } => {
                enter_red(processor, bus, latch, context);
                Ok(())
            }
            TrapStep::GiveUp { context } => {
                give_up(processor, bus, latch, context);
                Ok(())
            }
        }
    }
}

#[inline(always)]
#[tactic(auto, unfolding(crate::proofs::Rules::trapping))]
fn read_counter<S: Store, D: Store>(
    processor: &Processor,
    bus: &mut Bus<S, D>,
    latch: &mut StepLatch,
    vector: u16,
) -> Result<(), Trap>
    ensures phase { IsPhase (vector_counter vector) processor.now bus.old latch.old result
        processor.now bus.new latch.new }
    ensures result { latch.new.result ≡ latch.old.result }
{
    latch.counter = read_word(bus, Mode::Kernel, vector)?;
    Ok(())
}

#[inline(always)]
#[tactic(auto, unfolding(crate::proofs::Rules::trapping))]
fn read_status<S: Store, D: Store>(
    processor: &Processor,
    bus: &mut Bus<S, D>,
    latch: &mut StepLatch,
    vector: u16,
) -> Result<(), Trap>
    requires { vector < 0o1000 }
    ensures phase { IsPhase (vector_status vector) processor.now bus.old latch.old result
        processor.now bus.new latch.new }
    ensures result { latch.new.result ≡ latch.old.result }
{
    latch.status = read_word(bus, Mode::Kernel, vector + 2)?;
    Ok(())
}

#[inline(always)]
#[tactic(auto, unfolding(crate::proofs::Rules::trapping))]
fn lower_stack<S: Store, D: Store>(
    processor: &mut Processor,
    bus: &Bus<S, D>,
    latch: &mut StepLatch,
) -> Result<(), Trap>
    ensures phase { IsPhase (lower_phase new_mode 6 2) processor.old bus.now latch.old result
        processor.new bus.now latch.new }
    ensures result { latch.new.result ≡ latch.old.result }
{
    let mode = Status::of_word(latch.status).mode;
    let cell = lower(processor, mode, 6, 2)?;
    latch.place = Place::Mem(cell);
    Ok(())
}

#[inline(always)]
#[tactic(auto, unfolding(crate::proofs::Rules::trapping))]
fn put_word<S: Store, D: Store>(
    processor: &mut Processor,
    bus: &mut Bus<S, D>,
    latch: &StepLatch,
    marks: bool,
    word: u16,
) -> Result<(), Trap>
    ensures { IsPhase (put_word_phase marks word) processor.old bus.old latch.now result
        processor.new bus.new latch.now }
{
    if let Place::Mem(cell) = latch.place {
        write_word(bus, cell.mode, cell.address, word)?;
        if marks {
            processor.mark(cell.yellow);
        }
    }
    Ok(())
}

/// The status that this word gives, with the mode of the context as the previous one.
#[inline(always)]
fn entered(context: SavedContext, word: u16) -> Status
    ensures { result ≡ entered_status context word }
{
    Status {
        previous: context.status.mode,
        ..Status::of_word(word)
    }
}

#[inline(always)]
#[tactic(auto, unfolding(crate::proofs::Rules::trapping))]
fn enter<S: Store, D: Store>(
    processor: &mut Processor,
    bus: &mut Bus<S, D>,
    latch: &StepLatch,
    context: SavedContext,
)
    ensures { IsPhase (enter_phase context) processor.old bus.old latch.now (Ok tt) processor.new
        bus.new latch.now }
{
    processor.set_register(RegisterId::ProgramCounter, latch.counter);
    bus.set_status(entered(context, latch.status));
}

#[inline(always)]
#[tactic(auto, unfolding(crate::proofs::Rules::trapping))]
fn save<S: Store, D: Store>(
    processor: &Processor,
    bus: &mut Bus<S, D>,
    latch: &StepLatch,
    address: u16,
    word: u16,
) -> Result<(), Trap>
    ensures { IsPhase (save_phase address word) processor.now bus.old latch.now result
        processor.now bus.new latch.now }
{
    write_word(bus, Mode::Kernel, address, word)?;
    Ok(())
}

/// The same as `enter`, with kernel R6 0 and no trap of the processor pending.
#[inline(always)]
#[tactic(auto, unfolding(crate::proofs::Rules::trapping))]
fn enter_red<S: Store, D: Store>(
    processor: &mut Processor,
    bus: &mut Bus<S, D>,
    latch: &StepLatch,
    context: SavedContext,
)
    ensures { IsPhase (enter_red_phase context) processor.old bus.old latch.now (Ok tt)
        processor.new bus.new latch.now }
{
    processor.set_register(RegisterId::ProgramCounter, latch.counter);
    processor.set_register(RegisterId::KernelStack, 0);
    processor.set_stack_trap(false);
    processor.set_trace_trap(false);
    bus.set_status(entered(context, latch.status));
}

#[inline(always)]
#[tactic(auto, unfolding(crate::proofs::Rules::trapping))]
fn give_up<S: Store, D: Store>(
    processor: &mut Processor,
    bus: &mut Bus<S, D>,
    latch: &StepLatch,
    context: SavedContext,
)
    ensures { IsPhase (give_up_phase context) processor.old bus.old latch.now (Ok tt) processor.new
        bus.new latch.now }
{
    processor.set_register(RegisterId::ProgramCounter, context.counter);
    processor.set_run(RunState::Halted);
    bus.set_status(context.status);
}
