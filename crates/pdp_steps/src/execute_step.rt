//! Operations on operands that were read, and the codes that they leave.

ghost use Rattle.std.specs.Prelude.{◌≡◌, ◌<◌, Ok};
ghost use Rattle.pdp_word.specs.Size.{span};
ghost use Rattle.pdp_word.specs.declared.size.Size.{Size};
ghost use Rattle.pdp_operand.specs.declared.processor.Processor.{Processor};
ghost use Rattle.pdp_instruction.specs.Handbook.Execute.{store_codes as store_codes_phase};
ghost use Rattle.pdp_steps.specs.Contract.{IsPhase};
ghost use Rattle.pdp_steps.specs.Steps.{latch_with_effect, latch_with_source};
ghost use Rattle.pdp_steps.specs.Steps.{phase_of_execute_step, size_after_execute_step};

use crate::operand_step::named;
use crate::step_latch::StepLatch;
use pdp_action::{Combination, Comparison, Modification, Replacement};
use pdp_alu::{Effect, cut, mov, tst};
use pdp_operand::Processor;
use pdp_store::Store;
use pdp_unibus::Bus;
use pdp_word::Size;

/// A step that keeps an operand, does an operation, or stores codes.
///
/// DEC PDP-11/40 Processor Handbook (1972), Instruction set.
#[derive(Clone, Copy)]
pub enum ExecuteStep {
    /// The operand that was read is the source.
    KeepSource,
    /// A register is the source, as it is now.
    TakeRegister { size: Size, register: u8 },
    /// MOV and MOVB, and what MFPI and MTPI move.
    Move { size: Size },
    /// CMP and BIT.
    Compare { comparison: Comparison },
    /// BIC, BIS, ADD, SUB and XOR.
    Combine { combination: Combination },
    /// TST.
    Test { size: Size },
    /// COM, INC, DEC, NEG, ADC, SBC, ROR, ROL, ASR, ASL and SWAB.
    Modify { modification: Modification },
    /// CLR and SXT.
    Replace { replacement: Replacement },
    /// The codes that are due are stored in the program status word, if any are.
    StoreCodes,
}

impl ExecuteStep {
    /// Runs the step.
    #[inline(always)]
    #[tactic(auto, unfolding(crate::proofs::Rules::executing))]
    pub fn run<S: Store, D: Store>(
        self,
        processor: &Processor,
        bus: &mut Bus<S, D>,
        latch: &mut StepLatch,
    )
        ensures phase { IsPhase (phase_of_execute_step self) processor.now bus.old latch.old (Ok tt)
            processor.now bus.new latch.new }
        ensures fits { (size : Size) → latch.old.result < span size
            → latch.new.result < span (size_after_execute_step self size) }
    {
        let codes = bus.status().codes;
        match self {
            ExecuteStep::KeepSource => latch.source = latch.value,
            ExecuteStep::TakeRegister { size, register } => {
                let word = cut(size, processor.register(named(bus, register)));
                take(latch, word);
            }
            ExecuteStep::Move { size } => keep(latch, mov(size, latch.source, codes)),
            ExecuteStep::Compare { comparison } => {
                keep(latch, comparison.effect(latch.source, latch.value, codes));
            }
            ExecuteStep::Combine { combination } => {
                keep(latch, combination.effect(latch.source, latch.value, codes));
            }
            ExecuteStep::Test { size } => keep(latch, tst(size, latch.value)),
            ExecuteStep::Modify { modification } => {
                keep(latch, modification.effect(latch.value, codes));
            }
            ExecuteStep::Replace { replacement } => keep(latch, replacement.effect(codes)),
            ExecuteStep::StoreCodes => store_codes(bus, latch),
        }
    }
}

/// The word is the operand and the source.
#[inline(always)]
fn take(latch: &mut StepLatch, word: u16)
    ensures { latch.new ≡ latch_with_source latch.old word }
{
    latch.value = word;
    latch.source = word;
}

/// The result and the codes of the effect are due.
#[inline(always)]
fn keep(latch: &mut StepLatch, effect: Effect)
    ensures { latch.new ≡ latch_with_effect latch.old effect }
{
    latch.result = effect.value;
    latch.codes = Some(effect.codes);
}

#[inline(always)]
#[tactic(auto, unfolding(crate::proofs::Rules::executing))]
fn store_codes<S: Store, D: Store>(bus: &mut Bus<S, D>, latch: &StepLatch)
    ensures { (p : Processor) → IsPhase store_codes_phase p bus.old latch.now (Ok tt) p bus.new
        latch.now }
{
    if let Some(codes) = latch.codes {
        bus.set_codes(codes);
    }
}
