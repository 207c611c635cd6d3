ghost use Rattle.std.specs.Prelude.{◌≡◌, Ok};
ghost use Rattle.pdp_operand.specs.Contract.{Runs};
ghost use Rattle.pdp_operand.specs.declared.processor.Processor.{Processor};
ghost use Rattle.pdp_instruction.specs.Handbook.Control.{halt_plan, reset_plan, wait_plan};
ghost use Rattle.pdp_unibus.specs.Handbook.BusWorld.{BusWorld};

use pdp_kt11::Mode;
use pdp_operand::{Processor, RunState, Trap};
use pdp_store::Store;
use pdp_unibus::Bus;

/// HALT.
///
/// Err(Reserved) in user mode.
#[inline(never)]
#[tactic(auto, unfolding(crate::proofs::Rules::control_plans))]
pub fn halt<S: Store, D: Store>(processor: &mut Processor, bus: &Bus<S, D>) -> Result<(), Trap>
    ensures runs { Runs halt_plan processor.old bus.now result processor.new bus.now }
{
    if bus.status().mode == Mode::User {
        return Err(Trap::Reserved);
    }
    processor.set_run(RunState::Halted);
    Ok(())
}

/// WAIT.
#[inline(never)]
#[tactic(auto, unfolding(crate::proofs::Rules::control_plans))]
pub fn wait(processor: &mut Processor)
    ensures runs { (bus : BusWorld) → Runs wait_plan processor.old bus (Ok tt) processor.new bus }
{
    processor.set_run(RunState::Wait);
}

/// RESET.
#[inline(never)]
#[tactic(auto, unfolding(crate::proofs::Rules::control_plans))]
pub fn reset<S: Store, D: Store>(bus: &mut Bus<S, D>)
    ensures runs { (p : Processor) → Runs reset_plan p bus.old (Ok tt) p bus.new }
{
    if bus.status().mode != Mode::User {
        bus.reset();
    }
}
