ghost use Rattle.std.specs.Prelude.{◌≡◌};
ghost use Rattle.pdp_kt11.specs.Handbook.Mode.{mode_bits};
ghost use Rattle.pdp_operand.specs.Contract.{Runs};
ghost use Rattle.pdp_instruction.specs.Handbook.ReturnFromTrap.{either_mode};
ghost use Rattle.pdp_instruction.specs.Handbook.ReturnFromTrap.{returned_status as returned_status};
ghost use Rattle.pdp_instruction.specs.Handbook.ReturnFromTrap.{return_plan};

use crate::jump::POP;
use pdp_io_page::Status;
use pdp_kt11::Mode;
use pdp_operand::{Processor, RegisterId, Trap, address, fetch};
use pdp_store::Store;
use pdp_unibus::Bus;
use pdp_word::Size;

/// The mode that has the bits of either.
#[tactic(auto, unfolding(pdp_kt11::specs::Handbook::Mode::mode_of))]
fn either(one: Mode, other: Mode) -> Mode
    ensures { result ≡ either_mode one other }
{
    match (one, other) {
        (Mode::Kernel, mode) | (mode, Mode::Kernel) => mode,
        (Mode::Bad1, Mode::Bad1) => Mode::Bad1,
        (Mode::Bad2, Mode::Bad2) => Mode::Bad2,
        _ => Mode::User,
    }
}

/// The program status that RTI and RTT leave with this word. In user mode modes stay or are set,
/// and the priority stays [4.59].
#[tactic(auto, unfolding(crate::specs::Handbook::ReturnFromTrap::returned_status))]
pub fn returned(old: Status, word: u16) -> Status
    ensures { result ≡ returned_status word old }
{
    let popped = Status::of_word(word);
    if old.mode != Mode::User {
        return popped;
    }
    Status {
        mode: either(old.mode, popped.mode),
        previous: either(old.previous, popped.previous),
        priority: old.priority,
        ..popped
    }
}

/// RTI and RTT.
#[inline(never)]
#[tactic(auto, using(crate::proofs::Rules::trap_returns), unfolding(crate::specs::return_plan))]
pub fn return_from_trap<S: Store, D: Store>(
    processor: &mut Processor,
    bus: &mut Bus<S, D>,
) -> Result<(), Trap>
    ensures runs { Runs return_plan processor.old bus.old result processor.new bus.new }
{
    let place = address(processor, bus, POP, Size::Word)?;
    let counter = fetch(processor, bus, place, Size::Word)?;
    let place = address(processor, bus, POP, Size::Word)?;
    let word = fetch(processor, bus, place, Size::Word)?;
    processor.set_register(RegisterId::ProgramCounter, counter);
    let status = returned(bus.status(), word);
    bus.set_status(status);
    Ok(())
}
