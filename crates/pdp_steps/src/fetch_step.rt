//! The fetch of an instruction, and the trace trap that may follow the instruction.

ghost use Rattle.std.specs.Prelude.{◌≡◌, Ok};
ghost use Rattle.pdp_instruction.specs.Handbook.Instruction.{fetch_instruction, note_trace};
ghost use Rattle.pdp_steps.specs.Contract.{IsPhase};

use crate::step_latch::StepLatch;
use pdp_decode::Instr;
use pdp_operand::{Processor, RegisterId, Trap, read_decoded};
use pdp_store::Store;
use pdp_unibus::Bus;

/// Fetches the instruction at PC, and moves PC past its word. Once the word was read, SR2 takes its
/// address.
///
/// Err if the word can't be read.
#[inline(always)]
#[tactic(auto, unfolding(crate::proofs::Rules::fetches))]
pub fn fetch_instruction<S: Store, D: Store>(
    processor: &mut Processor,
    bus: &mut Bus<S, D>,
    latch: &mut StepLatch,
) -> Result<(), Trap>
    ensures phase { IsPhase fetch_instruction processor.old bus.old latch.old result processor.new
        bus.new latch.new }
    ensures result { latch.new.result ≡ latch.old.result }
{
    let mode = bus.status().mode;
    let address = processor.register(RegisterId::ProgramCounter);
    let word = read_decoded(bus, mode, address)?;
    bus.fetched(address);
    processor.advance(RegisterId::ProgramCounter, 2);
    latch.instr = word.instr;
    Ok(())
}

/// After an instruction that ended without a trap while T is set, a trace trap is pending, but not
/// after RTT.
#[inline(always)]
#[tactic(auto, unfolding(crate::proofs::Rules::fetches))]
pub fn note_trace<S: Store, D: Store>(
    processor: &mut Processor,
    bus: &Bus<S, D>,
    latch: &StepLatch,
    instr: Instr,
)
    ensures { IsPhase (note_trace instr) processor.old bus.now latch.now (Ok tt) processor.new
        bus.now latch.now }
{
    if bus.status().trace_bit && !matches!(instr, Instr::Rtt) {
        processor.set_trace_trap(true);
    }
}
