//! Jumps and returns, and the other space of MFPI and MTPI.

ghost use Rattle.std.specs.Prelude.{◌≡◌, ◌<◌, Ok, IfOk};
ghost use Rattle.pdp_word.specs.Size.{span};
ghost use Rattle.pdp_word.specs.declared.size.Size.{Size};
ghost use Rattle.pdp_unibus.specs.Handbook.BusWorld.{BusWorld};
ghost use Rattle.pdp_instruction.specs.Handbook.Jump.{aim as aim_phase, after_mark};
ghost use Rattle.pdp_instruction.specs.Handbook.Jump.{processor_linked};
ghost use Rattle.pdp_instruction.specs.Handbook.PreviousMode.{place_in, register_id_in};
ghost use Rattle.pdp_instruction.specs.Handbook.ReturnFromTrap.{return_from_trap as return_phase};
ghost use Rattle.pdp_steps.specs.Contract.{IsPhase};
ghost use Rattle.pdp_steps.specs.Steps.{phase_of_jump_step, size_after_jump_step};

use crate::operand_step::named;
use crate::step_latch::StepLatch;
use pdp_instruction::returned;
use pdp_kt11::Mode;
use pdp_operand::{Cell, Place, Processor, RegisterId, Trap};
use pdp_store::Store;
use pdp_unibus::Bus;

/// A step of a jump, of a return, of MFPI or of MTPI.
///
/// DEC PDP-11/40 Processor Handbook (1972), Instruction set and Memory management.
#[derive(Clone, Copy)]
pub enum JumpStep {
    /// The operand is the address of its place, which a jump goes to.
    Aim,
    /// PC becomes the operand.
    Jump,
    /// The register is to be pushed.
    TakeLink { register: u8 },
    /// The register becomes PC, and PC the operand.
    Link { register: u8 },
    /// The register becomes the operand.
    SetRegister { register: u8 },
    /// PC becomes the register.
    ReturnBy { register: u8 },
    /// SP becomes PC plus twice the words, and PC becomes R5.
    TakeMark { words: u8 },
    /// The operand is in the previous mode.
    Cross,
    /// The operand is the new PC.
    KeepCounter,
    /// PC and the program status become those that were popped.
    ReturnFromTrap,
}

impl JumpStep {
    /// Runs the step.
    ///
    /// Err(JumpToRegister) if a jump goes to a register.
    #[inline(always)]
    #[tactic(auto, unfolding(crate::proofs::Rules::jumping))]
    pub fn run<S: Store, D: Store>(
        self,
        processor: &mut Processor,
        bus: &mut Bus<S, D>,
        latch: &mut StepLatch,
    ) -> Result<(), Trap>
        ensures phase { IsPhase (phase_of_jump_step self) processor.old bus.old latch.old result
            processor.new bus.new latch.new }
        ensures fits { (size : Size) → latch.old.result < span size
            → latch.new.result < span (size_after_jump_step self size) }
    {
        match self {
            JumpStep::Aim => aim(processor, latch),
            JumpStep::Jump => {
                processor.set_register(RegisterId::ProgramCounter, latch.value);
                Ok(())
            }
            JumpStep::TakeLink { register } => {
                latch.result = processor.register(named(bus, register));
                Ok(())
            }
            JumpStep::Link { register } => {
                link(processor, named(bus, register), latch.value);
                Ok(())
            }
            JumpStep::SetRegister { register } => {
                processor.set_register(named(bus, register), latch.value);
                Ok(())
            }
            JumpStep::ReturnBy { register } => {
                let counter = processor.register(named(bus, register));
                processor.set_register(RegisterId::ProgramCounter, counter);
                Ok(())
            }
            JumpStep::TakeMark { words } => {
                take_mark(processor, named(bus, 6), words);
                Ok(())
            }
            JumpStep::Cross => {
                latch.place = place_in(bus.status().previous, latch.place);
                Ok(())
            }
            JumpStep::KeepCounter => {
                latch.counter = latch.value;
                Ok(())
            }
            JumpStep::ReturnFromTrap => {
                return_from_trap(processor, bus, latch);
                Ok(())
            }
        }
    }
}

/// Err(JumpToRegister) if the operand is a register.
#[inline(always)]
#[tactic(auto, unfolding(crate::proofs::Rules::jumping))]
fn aim(processor: &mut Processor, latch: &mut StepLatch) -> Result<(), Trap>
    ensures phase { (b : BusWorld) → IsPhase aim_phase processor.old b latch.old result
        processor.new b latch.new }
    ensures result { latch.new.result ≡ latch.old.result }
{
    match latch.place {
        Place::Reg(_) => Err(Trap::JumpToRegister),
        Place::Mem(cell) => {
            processor.mark(cell.yellow);
            latch.value = cell.address;
            Ok(())
        }
    }
}

/// The register becomes PC, and PC this address.
#[inline(always)]
fn link(processor: &mut Processor, id: RegisterId, address: u16)
    ensures { processor.new ≡ processor_linked id address processor.old }
{
    let back = processor.register(RegisterId::ProgramCounter);
    processor.set_register(id, back);
    processor.set_register(RegisterId::ProgramCounter, address);
}

/// This stack pointer becomes PC plus twice the words, and PC becomes R5.
#[inline(always)]
fn take_mark(processor: &mut Processor, stack: RegisterId, words: u8)
    ensures { processor.new ≡ after_mark stack words processor.old }
{
    let counter = processor.register(RegisterId::ProgramCounter);
    let frame = processor.register(RegisterId::R5);
    processor.set_register(stack, counter.wrapping_add(u16::from(words) * 2));
    processor.set_register(RegisterId::ProgramCounter, frame);
}

/// The place of the same register or virtual address in this mode: its own stack pointer, its own
/// space. Whether the place is in the yellow zone of the kernel's stack stays.
#[inline(always)]
fn place_in(mode: Mode, place: Place) -> Place
    ensures { result ≡ place_in mode place }
{
    match place {
        Place::Reg(id) => Place::Reg(register_id_in(mode, id)),
        Place::Mem(cell) => Place::Mem(Cell { mode, ..cell }),
    }
}

/// The stack pointer of this mode in place of either; every other register is itself.
#[inline(always)]
fn register_id_in(mode: Mode, id: RegisterId) -> RegisterId
    ensures { result ≡ register_id_in mode id }
{
    match id {
        RegisterId::KernelStack | RegisterId::UserStack => RegisterId::stack(mode),
        _ => id,
    }
}

#[inline(always)]
#[tactic(auto, unfolding(crate::proofs::Rules::jumping))]
fn return_from_trap<S: Store, D: Store>(
    processor: &mut Processor,
    bus: &mut Bus<S, D>,
    latch: &StepLatch,
)
    ensures { IsPhase return_phase processor.old bus.old latch.now (Ok tt) processor.new bus.new
        latch.now }
{
    processor.set_register(RegisterId::ProgramCounter, latch.counter);
    let status = returned(bus.status(), latch.value);
    bus.set_status(status);
}
