ghost use Rattle.std.specs.Prelude.{◌≡◌};
ghost use Rattle.pdp_operand.specs.Contract.{Runs};
ghost use Rattle.pdp_instruction.specs.Handbook.TwoOperands.{compare_plan, combine_plan};

use crate::finish::finish;
use crate::operands::operands;
use pdp_action::{Combination, Comparison};
use pdp_decode::Specifier;
use pdp_operand::{Fill, Processor, Trap, fetch, fetch_before_store};
use pdp_store::Store;
use pdp_unibus::Bus;

/// CMP and BIT.
#[inline(never)]
#[tactic(auto, using(crate::proofs::Rules::binary_steps), unfolding(crate::specs::compare_plan))]
pub fn compare<S: Store, D: Store>(
    processor: &mut Processor,
    bus: &mut Bus<S, D>,
    comparison: Comparison,
    source: Specifier,
    destination: Specifier,
) -> Result<(), Trap>
    ensures runs { Runs (compare_plan comparison source destination)
        processor.old bus.old result processor.new bus.new }
{
    let size = comparison.size();
    let (value, place) = operands(processor, bus, source, destination, size)?;
    let operand = fetch(processor, bus, place, size)?;
    let effect = comparison.effect(value, operand, bus.status().codes);
    bus.set_codes(effect.codes);
    Ok(())
}

/// BIC, BIS, ADD, SUB and XOR.
#[inline(never)]
#[tactic(auto, using(crate::proofs::Rules::binary_steps), unfolding(crate::specs::combine_plan))]
pub fn combine<S: Store, D: Store>(
    processor: &mut Processor,
    bus: &mut Bus<S, D>,
    combination: Combination,
    source: Specifier,
    destination: Specifier,
) -> Result<(), Trap>
    ensures runs { Runs (combine_plan combination source destination)
        processor.old bus.old result processor.new bus.new }
{
    let size = combination.size();
    let (value, place) = operands(processor, bus, source, destination, size)?;
    let operand = fetch_before_store(processor, bus, place, size)?;
    let effect = combination.effect(value, operand, bus.status().codes);
    finish(processor, bus, place, Fill::of(size), effect)
}
