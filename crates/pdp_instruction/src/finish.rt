ghost use Rattle.std.specs.Prelude.{◌≡◌, ◌<◌, Some};
ghost use Rattle.pdp_word.specs.Size.{span};
ghost use Rattle.pdp_operand.specs.Handbook.Operand.{size_of_fill};
ghost use Rattle.pdp_operand.specs.Contract.{RunsWhere};
ghost use Rattle.pdp_instruction.specs.Handbook.Execute.{finish_plan, IsDue};

use pdp_alu::Effect;
use pdp_operand::{Fill, Place, Processor, Trap, store};
use pdp_store::Store;
use pdp_unibus::Bus;

/// Writes the value of an effect to its place, and then stores its codes, but if the program status
/// word was written. If the write faults the codes stay.
#[inline(always)]
#[tactic(auto, using(crate::proofs::Rules::code_stores), unfolding(crate::specs::finish_plan))]
pub fn finish<S: Store, D: Store>(
    processor: &mut Processor,
    bus: &mut Bus<S, D>,
    place: Place,
    fill: Fill,
    effect: Effect,
) -> Result<(), Trap>
    requires { effect.value < span (size_of_fill fill) }
    ensures runs { RunsWhere (IsDue place effect) (finish_plan fill)
        processor.old bus.old result processor.new bus.new }
{
    let to_status = store(processor, bus, place, fill, effect.value)?;
    if !to_status {
        bus.set_codes(effect.codes);
    }
    Ok(())
}
