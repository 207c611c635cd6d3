ghost use Rattle.std.specs.Prelude.{◌≡◌, ◌<◌, ◌≤◌, ◌*◌, ◌^◌};
ghost use Rattle.std.specs.Fn.{iterate};
ghost use Rattle.pdp_alu.specs.ArithmeticShifts.{ash_effect, ashc_effect, shifted_by, shifted_left};
ghost use Rattle.pdp_alu.specs.ArithmeticShifts.{shifted_right, shifting_from};

use crate::effect::Effect;
use crate::long::LongEffect;
use crate::shifting::Shifting;
use pdp_word::Size;

/// The sign bits of a word and of a number of 32 bits.
const WORD_SIGN: u32 = 1 << 15;

const LONG_SIGN: u32 = 1 << 31;

/// ASH: a word shifted arithmetically by the signed low six bits of the source, to the left, or to
/// the right if they are negative. N and Z are of the result. C is the last bit that was moved out,
/// and V is set if the sign changed at any single shift; both are clear if the count is 0 (DEC
/// PDP-11/40 Processor Handbook (1972), Extended instruction set, ASH) [4.25] [4.31].
#[inline]
#[tactic(auto, unfolding(crate::specs::ArithmeticShifts::ash_effect))]
pub fn ash(word: u16, source: u16) -> Effect
    ensures effect { result ≡ ash_effect word source }
{
    let shifting = shift(WORD_SIGN, u32::from(word), source);
    Effect::new(
        Size::Word,
        shifting.number as u16,
        shifting.sign_changed,
        shifting.out,
    )
}

/// ASHC: a number of 32 bits shifted as ASH shifts a word. N and Z are of the 32 bits (DEC
/// PDP-11/40 Processor Handbook (1972), Extended instruction set, ASHC) [4.26] [4.31].
#[inline]
#[tactic(auto, unfolding(crate::specs::ArithmeticShifts::ashc_effect))]
pub fn ashc(long: u32, source: u16) -> LongEffect
    ensures effect { result ≡ ashc_effect long source }
{
    let shifting = shift(LONG_SIGN, long, source);
    LongEffect::new(shifting.number, shifting.sign_changed, shifting.out)
}

/// A number with this sign bit, shifted by the signed low six bits of the source.
fn shift(sign: u32, number: u32, source: u16) -> Shifting
    requires sign { sign ≤ 2 ^ 31 }
    requires number { number < 2 * sign }
    ensures shifted { result ≡ shifted_by sign number source }
    ensures fits { result.number < 2 * sign }
{
    let count = source % 0o100;
    if count < 0o40 {
        shift_left(sign, number, count)
    } else {
        shift_right(sign, number, 0o100 - count)
    }
}

/// Shifts to the left by `count` places.
fn shift_left(sign: u32, number: u32, count: u16) -> Shifting
    requires sign { sign ≤ 2 ^ 31 }
    requires number { number < 2 * sign }
    ensures shifted { result ≡ iterate (shifted_left sign) count (shifting_from number) }
    ensures fits { result.number < 2 * sign }
{
    let mut shifting = Shifting::unshifted(number);
    for _place in 0..count {
        shifting = shifting.left(sign);
    }
    shifting
}

/// Shifts to the right by `count` places.
fn shift_right(sign: u32, number: u32, count: u16) -> Shifting
    requires sign { sign ≤ 2 ^ 31 }
    requires number { number < 2 * sign }
    ensures shifted { result ≡ iterate (shifted_right sign) count (shifting_from number) }
    ensures fits { result.number < 2 * sign }
{
    let mut shifting = Shifting::unshifted(number);
    for _place in 0..count {
        shifting = shifting.right(sign);
    }
    shifting
}
