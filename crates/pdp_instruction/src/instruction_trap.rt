//! An instruction, and the trap that it comes to.

ghost use Rattle.std.specs.Prelude.{◌≡◌};
ghost use Rattle.pdp_action.specs.Action.{action_of};
ghost use Rattle.pdp_operand.specs.Contract.{Follows};
ghost use Rattle.pdp_operand.specs.Phases.Phase.{Latch, state_of};
ghost use Rattle.pdp_operand.specs.Phases.Plan.{run_plan};
ghost use Rattle.pdp_instruction.specs.Handbook.Action.{plan_of};
ghost use Rattle.pdp_instruction.specs.Handbook.Instruction.{instruction, instruction_course};
ghost use Rattle.pdp_instruction.specs.Handbook.Instruction.{instruction_trap, trap_left};

use crate::instruction::{carry_out, fetch_instruction, note_trace};
use crate::trap_sequence::handle;
use pdp_icache::Decoded;
use pdp_operand::{Processor, Trap};
use pdp_store::Store;
use pdp_unibus::Bus;

/// One instruction, as [`instruct`](crate::instruct) runs it; returns its trap. That is why its
/// fetch or a later step could not go on, or the trap that it asks for. None if the instruction
/// came to its end. [`vector`](crate::vector) gives the vector of a trap.
///
/// The sequence of the trap has then taken place. What becomes of this sequence doesn't change what
/// is returned: not if it becomes the red sequence, and not if the processor halts. A trace trap or
/// a stack trap that the instruction leaves pending is not its trap.
///
/// DEC PDP-11/40 Processor Handbook (1972), Processor traps; that a pending trap is an act of its
/// own is [P].
#[tactic(auto, using(crate::proofs::Rules::endings), unfolding(crate::proofs::Rules::whole_course))]
pub fn instruct_and_tell<S: Store, D: Store>(
    processor: &mut Processor,
    bus: &mut Bus<S, D>,
) -> Option<Trap>
    ensures follows { Follows instruction processor.old bus.old processor.new bus.new }
    ensures trap { (latch : Latch) → result
        ≡ instruction_trap (state_of processor.old bus.old latch) }
{
    match fetch_instruction(processor, bus) {
        Ok(word) => execute_and_tell(processor, bus, word),
        Err(trap) => {
            handle(processor, bus, trap);
            Some(trap)
        }
    }
}

/// Executes the instruction that was fetched, and returns its trap.
#[tactic(auto, using(crate::proofs::Rules::endings), unfolding(crate::proofs::Rules::courses))]
fn execute_and_tell<S: Store, D: Store>(
    processor: &mut Processor,
    bus: &mut Bus<S, D>,
    word: Decoded,
) -> Option<Trap>
    requires { word.action ≡ action_of word.instr }
    ensures follows { Follows (instruction_course word.instr) processor.old bus.old processor.new
        bus.new }
    ensures trap { (latch : Latch) → result
        ≡ trap_left (run_plan (plan_of word.instr) (state_of processor.old bus.old latch)) }
{
    match carry_out(word, processor, bus) {
        Ok(()) => {
            note_trace(processor, bus, word.instr);
            None
        }
        Err(trap) => {
            handle(processor, bus, trap);
            Some(trap)
        }
    }
}
