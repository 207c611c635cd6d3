ghost use Rattle.std.specs.Prelude.{◌≡◌, ◌<◌};
ghost use Rattle.pdp_word.specs.Size.{span};
ghost use Rattle.pdp_alu.specs.Effect.{tst_effect};
ghost use Rattle.pdp_alu.specs.SingleOperand.{adc_effect, clr_effect, com_effect, dec_effect};
ghost use Rattle.pdp_alu.specs.SingleOperand.{inc_effect, neg_effect, sbc_effect};

use crate::effect::Effect;
use crate::operand::{all_ones, cut, most_negative, most_positive};
use pdp_word::{Codes, Size};

/// CLR and CLRB: 0. N, V and C are cleared, Z is set (DEC PDP-11/40 Processor Handbook (1972),
/// Instruction set, CLR).
#[inline]
#[tactic(auto, unfolding(crate::specs::SingleOperand::clr_effect))]
pub fn clr(size: Size) -> Effect
    ensures effect { result ≡ clr_effect size }
    ensures fits { result.value < span size }
{
    Effect::new(size, 0, false, false)
}

/// COM and COMB: the complement of the value, of a word that of the low byte if the size is a byte.
/// N and Z are of the result, V is cleared, C is set (DEC PDP-11/40 Processor Handbook (1972),
/// Instruction set, COM).
#[inline]
#[tactic(auto, unfolding(crate::specs::SingleOperand::com_effect))]
pub fn com(size: Size, value: u16) -> Effect
    ensures effect { result ≡ com_effect size value }
    ensures fits { result.value < span size }
{
    Effect::new(size, !value, false, true)
}

/// INC and INCB: the value plus 1, of a word the low byte if the size is a byte. N and Z are of the
/// result, V is set if the value was 077777 (a byte: 177), C is kept (DEC PDP-11/40 Processor
/// Handbook (1972), Instruction set, INC).
#[inline]
#[tactic(auto, unfolding(crate::specs::SingleOperand::inc_effect))]
pub fn inc(size: Size, value: u16, codes: Codes) -> Effect
    ensures effect { result ≡ inc_effect size value codes }
    ensures fits { result.value < span size }
{
    let overflow = cut(size, value) == most_positive(size);
    Effect::new(size, value.wrapping_add(1), overflow, codes.c)
}

/// DEC and DECB: the value minus 1, of a word the low byte if the size is a byte. N and Z are of
/// the result, V is set if the value was 100000 (a byte: 200), C is kept (DEC PDP-11/40 Processor
/// Handbook (1972), Instruction set, DEC).
#[inline]
#[tactic(auto, unfolding(crate::specs::SingleOperand::dec_effect))]
pub fn dec(size: Size, value: u16, codes: Codes) -> Effect
    ensures effect { result ≡ dec_effect size value codes }
    ensures fits { result.value < span size }
{
    let overflow = cut(size, value) == most_negative(size);
    Effect::new(size, value.wrapping_sub(1), overflow, codes.c)
}

/// NEG and NEGB: 0 minus the value, of a word the low byte if the size is a byte. N and Z are of
/// the result, V is set if the result is 100000 (a byte: 200), C unless it is 0 (DEC PDP-11/40
/// Processor Handbook (1972), Instruction set, NEG).
#[inline]
#[tactic(auto, unfolding(crate::specs::SingleOperand::neg_effect))]
pub fn neg(size: Size, value: u16) -> Effect
    ensures effect { result ≡ neg_effect size value }
    ensures fits { result.value < span size }
{
    let negated = cut(size, value.wrapping_neg());
    Effect::new(size, negated, negated == most_negative(size), negated != 0)
}

/// ADC and ADCB: the value plus C, of a word the low byte if the size is a byte. N and Z are of the
/// result. If C was set, V is set if the value was 077777 (a byte: 177) and C if it was 177777 (a
/// byte: 377); else both are cleared (DEC PDP-11/40 Processor Handbook (1972), Instruction set,
/// ADC).
#[inline]
#[tactic(auto, unfolding(crate::specs::SingleOperand::adc_effect))]
pub fn adc(size: Size, value: u16, codes: Codes) -> Effect
    ensures effect { result ≡ adc_effect size value codes }
    ensures fits { result.value < span size }
{
    let old = cut(size, value);
    let overflow = codes.c && old == most_positive(size);
    let carry = codes.c && old == all_ones(size);
    Effect::new(size, old.wrapping_add(u16::from(codes.c)), overflow, carry)
}

/// SBC and SBCB: the value minus C, of a word the low byte if the size is a byte. N and Z are of
/// the result. If C was set, V is set if the value was 100000 (a byte: 200) and C if it was 0; else
/// both are cleared (DEC PDP-11/40 Processor Handbook (1972), Instruction set, SBC) [4.15].
#[inline]
#[tactic(auto, unfolding(crate::specs::SingleOperand::sbc_effect))]
pub fn sbc(size: Size, value: u16, codes: Codes) -> Effect
    ensures effect { result ≡ sbc_effect size value codes }
    ensures fits { result.value < span size }
{
    let old = cut(size, value);
    let overflow = codes.c && old == most_negative(size);
    let borrow = codes.c && old == 0;
    Effect::new(size, old.wrapping_sub(u16::from(codes.c)), overflow, borrow)
}

/// TST and TSTB: the value itself, of a word the low byte if the size is a byte; it is not stored.
/// N and Z are of that value at that size, V and C are cleared (DEC PDP-11/40 Processor Handbook
/// (1972), Instruction set, TST).
#[inline]
#[tactic(auto, unfolding(crate::specs::Effect::tst_effect))]
pub fn tst(size: Size, value: u16) -> Effect
    ensures effect { result ≡ tst_effect size value }
    ensures fits { result.value < span size }
{
    Effect::new(size, value, false, false)
}
