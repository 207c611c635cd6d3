//! The operations of the extended instruction set.

ghost use Rattle.std.specs.Prelude.{◌≡◌, Ok};
ghost use Rattle.pdp_instruction.specs.Handbook.Extended.{codes_of, long_in, pair_of};
ghost use Rattle.pdp_instruction.specs.Handbook.Extended.{pair_with_words, with_long};
ghost use Rattle.pdp_instruction.specs.Handbook.Extended.{with_quotient};
ghost use Rattle.pdp_steps.specs.Contract.{IsPhase};
ghost use Rattle.pdp_steps.specs.Steps.{phase_of_extended_step};

use crate::step_latch::StepLatch;
use pdp_alu::{Div, ash, ashc, div, high_word, join_words, low_word, mul};
use pdp_kt11::Mode;
use pdp_operand::{Processor, RegisterId};
use pdp_store::Store;
use pdp_unibus::Bus;
use pdp_word::Codes;

/// A step that changes a register, or the pair of R and R or 1, and whose codes are due then.
///
/// DEC PDP-11/40 Processor Handbook (1972), Extended instruction set.
#[derive(Clone, Copy)]
pub enum ExtendedStep {
    /// MUL.
    Multiply { register: u8 },
    /// DIV.
    Divide { register: u8 },
    /// ASH.
    Shift { register: u8 },
    /// ASHC.
    ShiftPair { register: u8 },
}

impl ExtendedStep {
    /// Runs the step.
    #[inline(always)]
    #[tactic(auto, unfolding(crate::proofs::Rules::extending))]
    pub fn run<S: Store, D: Store>(
        self,
        processor: &mut Processor,
        bus: &Bus<S, D>,
        latch: &mut StepLatch,
    )
        ensures phase { IsPhase (phase_of_extended_step self) processor.old bus.now latch.old
            (Ok tt) processor.new bus.now latch.new }
        ensures result { latch.new.result ≡ latch.old.result }
    {
        let mode = bus.status().mode;
        match self {
            ExtendedStep::Multiply { register } => {
                let word = processor.register(RegisterId::of(mode, register));
                let effect = mul(word, latch.value);
                set_long(processor, mode, register, effect.value);
                latch.codes = Some(effect.codes);
            }
            ExtendedStep::Divide { register } => {
                let effect = div(long(processor, mode, register), latch.value);
                latch.codes = Some(set_quotient(processor, mode, register, effect));
            }
            ExtendedStep::Shift { register } => {
                let id = RegisterId::of(mode, register);
                let effect = ash(processor.register(id), latch.value);
                processor.set_register(id, effect.value);
                latch.codes = Some(effect.codes);
            }
            ExtendedStep::ShiftPair { register } => {
                let effect = ashc(long(processor, mode, register), latch.value);
                set_long(processor, mode, register, effect.value);
                latch.codes = Some(effect.codes);
            }
        }
    }
}

/// The other register of a pair: R or 1.
#[inline(always)]
fn low_register(mode: Mode, register: u8) -> RegisterId
    ensures { result ≡ (pair_of mode register).low }
{
    RegisterId::of(mode, register - register % 2 + 1)
}

/// The number of 32 bits in a pair.
#[inline(always)]
fn long(processor: &Processor, mode: Mode, register: u8) -> u32
    ensures { result ≡ long_in processor.now (pair_of mode register) }
{
    join_words(
        processor.register(RegisterId::of(mode, register)),
        processor.register(low_register(mode, register)),
    )
}

/// Writes a word into R, and then one into R or 1.
#[inline(always)]
fn set_words(processor: &mut Processor, mode: Mode, register: u8, first: u16, second: u16)
    ensures { processor.new
        ≡ pair_with_words processor.old (pair_of mode register) first second }
{
    processor.set_register(RegisterId::of(mode, register), first);
    processor.set_register(low_register(mode, register), second);
}

/// Writes a number of 32 bits into a pair, its high word first.
#[inline(always)]
fn set_long(processor: &mut Processor, mode: Mode, register: u8, long: u32)
    ensures { processor.new ≡ with_long processor.old (pair_of mode register) long }
{
    set_words(processor, mode, register, high_word(long), low_word(long));
}

/// Writes quotient and remainder if the division was done, and returns the codes.
#[inline(always)]
fn set_quotient(processor: &mut Processor, mode: Mode, register: u8, effect: Div) -> Codes
    ensures registers { processor.new
        ≡ with_quotient processor.old (pair_of mode register) effect }
    ensures codes { result ≡ codes_of effect }
{
    match effect {
        Div::Done(quotient, remainder, codes) => {
            set_words(processor, mode, register, quotient, remainder);
            codes
        }
        Div::Kept(codes) => codes,
    }
}
