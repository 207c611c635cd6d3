ghost use Rattle.std.specs.Prelude.{◌≡◌, ◌<◌, ◌≤◌, ◌^◌, int_div, int_rem, unsigned_abs};
ghost use Rattle.std.specs.Prelude.{if◌then◌else◌};
ghost use Rattle.std.specs.Int.RustNames.{FitsSigned};
ghost use Rattle.std.specs.Int.{w16, cast_unsigned};
ghost use Rattle.pdp_alu.specs.Division.{div_effect, quotient_and_remainder, division};
ghost use Rattle.pdp_alu.specs.Division.{overflow_codes, zero_divisor_codes};
ghost use Rattle.pdp_alu.specs.declared.quotient.Div.TheVariants.{Kept};

use crate::long::signed_long;
use crate::operand::{is_negative, overflows};
use crate::quotient::Div;
use pdp_word::{Codes, Size, signed};

/// DIV: a signed number of 32 bits divided by a signed word, the quotient rounded towards 0, so
/// that a remainder has the dividend's sign. N and Z are of the quotient, V and C are cleared.
/// Nothing is divided if the divisor is 0, with the codes NZVC 0111, or if the quotient is no
/// signed word, with the codes 0010 (DEC PDP-11/40 Processor Handbook (1972), Extended instruction
/// set, DIV) [4.28] [4.29].
#[inline]
#[tactic(auto, unfolding(crate::specs::Division::div_effect))]
pub fn div(dividend: u32, divisor: u16) -> Div
    ensures effect { result ≡ div_effect dividend divisor }
{
    divide_signed(signed_long(dividend), signed(divisor))
}

/// DIV of two signed numbers.
#[inline]
fn divide_signed(dividend: i32, divisor: i32) -> Div
    requires small { unsigned_abs divisor ≤ 0o100000 }
    ensures { result ≡ division dividend divisor }
{
    if divisor == 0 {
        return kept(true);
    }
    let (quotient, remainder) = divide(dividend, divisor);
    if overflows(quotient) {
        return kept(false);
    }
    divided(word_of(quotient), word_of(remainder))
}

/// Nothing is divided: V is set, and Z and C too if the divisor is 0.
#[inline]
fn kept(zero_divisor: bool) -> Div
    ensures { result ≡ Kept (if zero_divisor then zero_divisor_codes else overflow_codes) }
{
    Div::Kept(Codes {
        n: false,
        z: zero_divisor,
        v: true,
        c: zero_divisor,
    })
}

/// The quotient, rounded towards 0, and the remainder.
#[inline]
fn divide(dividend: i32, divisor: i32) -> (i64, i64)
    requires divisor { 0 < unsigned_abs divisor }
    ensures quotient { result.0 ≡ int_div dividend divisor }
    ensures remainder { result.1 ≡ int_rem dividend divisor }
    ensures smaller { unsigned_abs result.1 < unsigned_abs divisor }
{
    let dividend = i64::from(dividend);
    let divisor = i64::from(divisor);
    (dividend / divisor, dividend % divisor)
}

/// The word of a signed number that is one.
#[inline]
fn word_of(number: i64) -> u16
    requires fits { FitsSigned w16 number }
    ensures { result ≡ cast_unsigned w16 number }
{
    (number as i16).cast_unsigned()
}

/// A division that was done: N and Z are of the quotient.
#[inline]
fn divided(quotient: u16, remainder: u16) -> Div
    ensures { result ≡ quotient_and_remainder quotient remainder }
{
    let codes = Codes {
        n: is_negative(Size::Word, quotient),
        z: quotient == 0,
        v: false,
        c: false,
    };
    Div::Done(quotient, remainder, codes)
}
