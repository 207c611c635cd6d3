//! Branches, the condition code operators, HALT, WAIT, RESET, and traps that instructions ask for.

ghost use Rattle.std.specs.Prelude.{◌≡◌, Ok};
ghost use Rattle.pdp_instruction.specs.Handbook.Branch.{branch_phase, looped_back};
ghost use Rattle.pdp_instruction.specs.Handbook.Branch.{subtract_one as subtract_phase};
ghost use Rattle.pdp_instruction.specs.Handbook.ChangeCodes.{codes_cleared, codes_joined};
ghost use Rattle.pdp_instruction.specs.Handbook.Control.{halt as halt_phase, reset as reset_phase};
ghost use Rattle.pdp_steps.specs.Contract.{IsPhase};
ghost use Rattle.pdp_steps.specs.Steps.{phase_of_control_step};

use crate::operand_step::named;
use crate::step_latch::StepLatch;
use pdp_action::Condition;
use pdp_kt11::Mode;
use pdp_operand::{Processor, RegisterId, RunState, Trap};
use pdp_store::Store;
use pdp_unibus::Bus;
use pdp_word::Codes;

/// A step that is an instruction of its own.
///
/// DEC PDP-11/40 Processor Handbook (1972), Instruction set.
#[derive(Clone, Copy)]
pub enum ControlStep {
    /// BR and the branches on a condition.
    Branch { condition: Condition, offset: i8 },
    /// SOB.
    SubtractOne { register: u8, words: u8 },
    /// CLN, CLZ, CLV, CLC and their sums.
    ClearCodes { mask: Codes },
    /// SEN, SEZ, SEV, SEC and their sums.
    SetCodes { mask: Codes },
    /// HALT.
    Halt,
    /// WAIT.
    Wait,
    /// RESET.
    Reset,
    /// Nothing but a trap.
    Raise { trap: Trap },
}

impl ControlStep {
    /// Runs the step.
    ///
    /// Err if it is a trap, or HALT in user mode.
    #[inline(always)]
    #[tactic(auto, unfolding(crate::proofs::Rules::controlling))]
    pub fn run<S: Store, D: Store>(
        self,
        processor: &mut Processor,
        bus: &mut Bus<S, D>,
        latch: &StepLatch,
    ) -> Result<(), Trap>
        ensures phase { IsPhase (phase_of_control_step self) processor.old bus.old latch.now result
            processor.new bus.new latch.now }
    {
        match self {
            ControlStep::Branch { condition, offset } => {
                branch(processor, bus, latch, condition, offset);
                Ok(())
            }
            ControlStep::SubtractOne { register, words } => {
                subtract_one(processor, bus, latch, register, words);
                Ok(())
            }
            ControlStep::ClearCodes { mask } => {
                let codes = cleared(mask, bus.status().codes);
                bus.set_codes(codes);
                Ok(())
            }
            ControlStep::SetCodes { mask } => {
                let codes = joined(mask, bus.status().codes);
                bus.set_codes(codes);
                Ok(())
            }
            ControlStep::Halt => halt(processor, bus, latch),
            ControlStep::Wait => {
                processor.set_run(RunState::Wait);
                Ok(())
            }
            ControlStep::Reset => {
                reset(processor, bus, latch);
                Ok(())
            }
            ControlStep::Raise { trap } => Err(trap),
        }
    }
}

/// If the condition holds, PC grows by twice the offset.
#[inline(always)]
#[tactic(auto, unfolding(crate::proofs::Rules::controlling))]
fn branch<S: Store, D: Store>(
    processor: &mut Processor,
    bus: &Bus<S, D>,
    latch: &StepLatch,
    condition: Condition,
    offset: i8,
)
    ensures { IsPhase (branch_phase condition offset) processor.old bus.now latch.now (Ok tt)
        processor.new bus.now latch.now }
{
    if condition.is_taken(bus.status().codes) {
        let twice = i16::from(offset).cast_unsigned().wrapping_mul(2);
        processor.advance(RegisterId::ProgramCounter, twice);
    }
}

/// The register less 1, and then PC falls, if the register isn't 0.
#[inline(always)]
#[tactic(auto, unfolding(crate::proofs::Rules::controlling))]
fn subtract_one<S: Store, D: Store>(
    processor: &mut Processor,
    bus: &Bus<S, D>,
    latch: &StepLatch,
    register: u8,
    words: u8,
)
    ensures { IsPhase (subtract_phase register words) processor.old bus.now latch.now (Ok tt)
        processor.new bus.now latch.now }
{
    let id = named(bus, register);
    processor.retreat(id, 1);
    fall(processor, id, words);
}

/// Lets PC fall by twice the words, if the register isn't 0.
#[inline(always)]
fn fall(processor: &mut Processor, id: RegisterId, words: u8)
    ensures { processor.new ≡ looped_back id words processor.old }
{
    if processor.register(id) != 0 {
        processor.retreat(RegisterId::ProgramCounter, u16::from(words) * 2);
    }
}

/// The codes without those of the mask.
#[inline(always)]
fn cleared(mask: Codes, old: Codes) -> Codes
    ensures { result ≡ codes_cleared mask old }
{
    Codes {
        n: old.n && !mask.n,
        z: old.z && !mask.z,
        v: old.v && !mask.v,
        c: old.c && !mask.c,
    }
}

/// The codes with those of the mask.
#[inline(always)]
fn joined(mask: Codes, old: Codes) -> Codes
    ensures { result ≡ codes_joined mask old }
{
    Codes {
        n: old.n || mask.n,
        z: old.z || mask.z,
        v: old.v || mask.v,
        c: old.c || mask.c,
    }
}

/// Err(Reserved) in user mode.
#[inline(always)]
#[tactic(auto, unfolding(crate::proofs::Rules::controlling))]
fn halt<S: Store, D: Store>(
    processor: &mut Processor,
    bus: &Bus<S, D>,
    latch: &StepLatch,
) -> Result<(), Trap>
    ensures { IsPhase halt_phase processor.old bus.now latch.now result processor.new bus.now
        latch.now }
{
    if bus.status().mode == Mode::User {
        return Err(Trap::Reserved);
    }
    processor.set_run(RunState::Halted);
    Ok(())
}

/// In user mode nothing is done.
#[inline(always)]
#[tactic(auto, unfolding(crate::proofs::Rules::controlling))]
fn reset<S: Store, D: Store>(processor: &Processor, bus: &mut Bus<S, D>, latch: &StepLatch)
    ensures { IsPhase reset_phase processor.now bus.old latch.now (Ok tt) processor.now bus.new
        latch.now }
{
    if bus.status().mode != Mode::User {
        bus.reset();
    }
}
