ghost use Rattle.std.specs.Prelude.{◌≡◌};
ghost use Rattle.pdp_operand.specs.Contract.{Runs};
ghost use Rattle.pdp_instruction.specs.Handbook.OneOperand.{tst_plan, modify_plan, replace_plan};

use crate::finish::finish;
use pdp_action::{Modification, Replacement};
use pdp_alu::tst;
use pdp_decode::Specifier;
use pdp_operand::{Fill, Processor, Trap, address, fetch, fetch_before_store};
use pdp_store::Store;
use pdp_unibus::Bus;
use pdp_word::Size;

/// TST and TSTB.
#[inline(never)]
#[tactic(auto, using(crate::proofs::Rules::unary_steps), unfolding(crate::specs::tst_plan))]
pub fn test<S: Store, D: Store>(
    processor: &mut Processor,
    bus: &mut Bus<S, D>,
    destination: Specifier,
    size: Size,
) -> Result<(), Trap>
    ensures runs { Runs (tst_plan size destination) processor.old bus.old result processor.new
        bus.new }
{
    let place = address(processor, bus, destination, size)?;
    let value = fetch(processor, bus, place, size)?;
    bus.set_codes(tst(size, value).codes);
    Ok(())
}

/// COM, INC, DEC, NEG, ADC, SBC, ROR, ROL, ASR, ASL and SWAB.
#[inline(never)]
#[tactic(auto, using(crate::proofs::Rules::unary_steps), unfolding(crate::specs::modify_plan))]
pub fn modify<S: Store, D: Store>(
    processor: &mut Processor,
    bus: &mut Bus<S, D>,
    modification: Modification,
    destination: Specifier,
) -> Result<(), Trap>
    ensures runs { Runs (modify_plan modification destination) processor.old bus.old result
        processor.new bus.new }
{
    let size = modification.size();
    let place = address(processor, bus, destination, size)?;
    let operand = fetch_before_store(processor, bus, place, size)?;
    let effect = modification.effect(operand, bus.status().codes);
    finish(processor, bus, place, Fill::of(size), effect)
}

/// CLR and SXT.
#[inline(never)]
#[tactic(auto, using(crate::proofs::Rules::unary_steps), unfolding(crate::specs::replace_plan))]
pub fn replace<S: Store, D: Store>(
    processor: &mut Processor,
    bus: &mut Bus<S, D>,
    replacement: Replacement,
    destination: Specifier,
) -> Result<(), Trap>
    ensures runs { Runs (replace_plan replacement destination) processor.old bus.old result
        processor.new bus.new }
{
    let size = replacement.size();
    let place = address(processor, bus, destination, size)?;
    let effect = replacement.effect(bus.status().codes);
    finish(processor, bus, place, Fill::of(size), effect)
}
