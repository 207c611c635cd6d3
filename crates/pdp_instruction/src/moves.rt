ghost use Rattle.pdp_operand.specs.Contract.{Runs};
ghost use Rattle.pdp_instruction.specs.Handbook.Moves.{mov_plan, movb_plan};

use crate::finish::finish;
use crate::operands::operands;
use pdp_alu::mov;
use pdp_decode::Specifier;
use pdp_operand::{Fill, Processor, Trap};
use pdp_store::Store;
use pdp_unibus::Bus;
use pdp_word::Size;

/// MOV.
#[inline(never)]
#[tactic(auto, using(crate::proofs::Steps::run_execute_mov), unfolding(crate::specs::mov_plan))]
pub fn mov_word<S: Store, D: Store>(
    processor: &mut Processor,
    bus: &mut Bus<S, D>,
    source: Specifier,
    destination: Specifier,
) -> Result<(), Trap>
    ensures runs { Runs (mov_plan source destination) processor.old bus.old result processor.new
        bus.new }
{
    let (value, place) = operands(processor, bus, source, destination, Size::Word)?;
    let effect = mov(Size::Word, value, bus.status().codes);
    finish(processor, bus, place, Fill::Whole, effect)
}

/// MOVB: a byte that goes to a register fills it with its sign.
#[inline(never)]
#[tactic(auto, using(crate::proofs::Steps::run_execute_mov), unfolding(crate::specs::movb_plan))]
pub fn mov_byte<S: Store, D: Store>(
    processor: &mut Processor,
    bus: &mut Bus<S, D>,
    source: Specifier,
    destination: Specifier,
) -> Result<(), Trap>
    ensures runs { Runs (movb_plan source destination) processor.old bus.old result processor.new
        bus.new }
{
    let (value, place) = operands(processor, bus, source, destination, Size::Byte)?;
    let effect = mov(Size::Byte, value, bus.status().codes);
    finish(processor, bus, place, Fill::Extended, effect)
}
