ghost use Rattle.std.specs.Prelude.{◌≡◌};
ghost use Rattle.pdp_unibus.specs.Handbook.BusWorld.{BusWorld};
ghost use Rattle.pdp_operand.specs.Contract.{GivesWhere, IsAt, in_value, Runs};
ghost use Rattle.pdp_operand.specs.Phases.Plan.{one};
ghost use Rattle.pdp_instruction.specs.Handbook.Jump.{aim as aim_phase, jmp_plan, jsr_plan};
ghost use Rattle.pdp_instruction.specs.Handbook.Jump.{rts_plan, mark_plan};
ghost use Rattle.pdp_instruction.specs.Handbook.Jump.{pop_register as pop_plan, processor_linked};
ghost use Rattle.pdp_instruction.specs.Handbook.Jump.{after_mark};

use pdp_decode::Specifier;
use pdp_operand::{Fill, Place, Processor, RegisterId, Trap, address, fetch, store};
use pdp_store::Store;
use pdp_unibus::Bus;
use pdp_word::Size;

/// Where a word is pushed: -(SP).
pub const PUSH: Specifier = Specifier::Autodecrement(6);

/// Where a word is popped: (SP)+.
pub const POP: Specifier = Specifier::Autoincrement(6);

/// The address that a jump goes to, which is that of its operand. In the yellow zone of the
/// kernel's stack it leaves a stack trap pending.
///
/// Err(JumpToRegister) if the operand is a register.
#[inline(always)]
#[tactic(auto, unfolding(crate::specs::Handbook::Jump::aim, pdp_operand::specs::run))]
fn aim(processor: &mut Processor, place: Place) -> Result<u16, Trap>
    ensures gives { (b : BusWorld) → GivesWhere (IsAt place) in_value (one aim_phase)
        processor.old b result processor.new b }
{
    match place {
        Place::Reg(_) => Err(Trap::JumpToRegister),
        Place::Mem(cell) => {
            processor.mark(cell.yellow);
            Ok(cell.address)
        }
    }
}

/// JMP.
#[inline(never)]
#[tactic(auto, using(crate::proofs::Steps::run_jump), unfolding(crate::specs::jmp_plan))]
pub fn jump<S: Store, D: Store>(
    processor: &mut Processor,
    bus: &mut Bus<S, D>,
    destination: Specifier,
) -> Result<(), Trap>
    ensures runs { Runs (jmp_plan destination) processor.old bus.old result processor.new bus.new }
{
    let place = address(processor, bus, destination, Size::Word)?;
    let target = aim(processor, place)?;
    processor.set_register(RegisterId::ProgramCounter, target);
    Ok(())
}

/// JSR.
#[inline(never)]
#[tactic(auto, using(crate::proofs::Rules::links), unfolding(crate::specs::jsr_plan))]
pub fn jump_to_subroutine<S: Store, D: Store>(
    processor: &mut Processor,
    bus: &mut Bus<S, D>,
    register: u8,
    destination: Specifier,
) -> Result<(), Trap>
    ensures runs { Runs (jsr_plan register destination) processor.old bus.old result processor.new
        bus.new }
{
    let place = address(processor, bus, destination, Size::Word)?;
    let target = aim(processor, place)?;
    let top = address(processor, bus, PUSH, Size::Word)?;
    let word = processor.register(RegisterId::of(bus.status().mode, register));
    store(processor, bus, top, Fill::Whole, word)?;
    link(
        processor,
        RegisterId::of(bus.status().mode, register),
        target,
    );
    Ok(())
}

/// The register becomes PC, and PC this address.
#[inline(always)]
fn link(processor: &mut Processor, id: RegisterId, address: u16)
    ensures { processor.new ≡ processor_linked id address processor.old }
{
    let back = processor.register(RegisterId::ProgramCounter);
    processor.set_register(id, back);
    processor.set_register(RegisterId::ProgramCounter, address);
}

/// Pops the register.
#[inline(always)]
#[tactic(auto, using(crate::proofs::Rules::returns), unfolding(crate::specs::pop_register))]
fn pop_register<S: Store, D: Store>(
    processor: &mut Processor,
    bus: &mut Bus<S, D>,
    register: u8,
) -> Result<(), Trap>
    ensures runs { Runs (pop_plan register) processor.old bus.old result processor.new bus.new }
{
    let place = address(processor, bus, POP, Size::Word)?;
    let word = fetch(processor, bus, place, Size::Word)?;
    processor.set_register(RegisterId::of(bus.status().mode, register), word);
    Ok(())
}

/// RTS.
#[inline(never)]
#[tactic(auto, using(crate::proofs::Rules::returns), unfolding(crate::specs::rts_plan))]
pub fn return_from_subroutine<S: Store, D: Store>(
    processor: &mut Processor,
    bus: &mut Bus<S, D>,
    register: u8,
) -> Result<(), Trap>
    ensures runs { Runs (rts_plan register) processor.old bus.old result processor.new bus.new }
{
    let target = processor.register(RegisterId::of(bus.status().mode, register));
    processor.set_register(RegisterId::ProgramCounter, target);
    pop_register(processor, bus, register)
}

/// MARK.
#[inline(never)]
#[tactic(auto, using(crate::proofs::Steps::run_take_mark), unfolding(crate::specs::mark_plan))]
pub fn mark<S: Store, D: Store>(
    processor: &mut Processor,
    bus: &mut Bus<S, D>,
    words: u8,
) -> Result<(), Trap>
    ensures runs { Runs (mark_plan words) processor.old bus.old result processor.new bus.new }
{
    take_mark(processor, RegisterId::of(bus.status().mode, 6), words);
    pop_register(processor, bus, 5)
}

/// This stack pointer becomes PC plus twice the words, and PC becomes R5.
#[inline(always)]
fn take_mark(processor: &mut Processor, stack: RegisterId, words: u8)
    ensures { processor.new ≡ after_mark stack words processor.old }
{
    let counter = processor.register(RegisterId::ProgramCounter);
    let frame = processor.register(RegisterId::R5);
    processor.set_register(stack, counter.wrapping_add(u16::from(words) * 2));
    processor.set_register(RegisterId::ProgramCounter, frame);
}
