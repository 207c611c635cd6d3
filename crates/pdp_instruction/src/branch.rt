ghost use Rattle.std.specs.Prelude.{◌≡◌, Ok};
ghost use Rattle.pdp_operand.specs.Contract.{Runs};
ghost use Rattle.pdp_instruction.specs.Handbook.Branch.{branch_plan, branch_taken, sob_plan};
ghost use Rattle.pdp_instruction.specs.Handbook.Branch.{looped_back};

use pdp_action::Condition;
use pdp_operand::{Processor, RegisterId};
use pdp_store::Store;
use pdp_unibus::Bus;

/// BR and the branches on a condition.
#[inline(always)]
#[tactic(auto, using(crate::proofs::Steps::run_branch), unfolding(crate::specs::branch_plan))]
pub fn branch<S: Store, D: Store>(
    processor: &mut Processor,
    bus: &Bus<S, D>,
    condition: Condition,
    offset: i8,
)
    ensures runs { Runs (branch_plan condition offset) processor.old bus.now
        (Ok tt) processor.new bus.now }
{
    if condition.is_taken(bus.status().codes) {
        go_to(processor, offset);
    }
}

/// Moves PC by twice the offset.
#[inline(always)]
fn go_to(processor: &mut Processor, offset: i8)
    ensures { processor.new ≡ branch_taken offset processor.old }
{
    let twice = i16::from(offset).cast_unsigned().wrapping_mul(2);
    processor.advance(RegisterId::ProgramCounter, twice);
}

/// SOB.
#[inline(always)]
#[tactic(auto, using(crate::proofs::Steps::run_subtract_one), unfolding(crate::specs::sob_plan))]
pub fn subtract_one<S: Store, D: Store>(
    processor: &mut Processor,
    bus: &Bus<S, D>,
    register: u8,
    words: u8,
)
    ensures runs { Runs (sob_plan register words) processor.old bus.now
        (Ok tt) processor.new bus.now }
{
    let id = RegisterId::of(bus.status().mode, register);
    processor.retreat(id, 1);
    fall(processor, id, words);
}

/// Lets PC fall by twice the words, if the register isn't 0.
#[inline(always)]
fn fall(processor: &mut Processor, id: RegisterId, words: u8)
    ensures { processor.new ≡ looped_back id words processor.old }
{
    if processor.register(id) != 0 {
        processor.retreat(RegisterId::ProgramCounter, u16::from(words) * 2);
    }
}
