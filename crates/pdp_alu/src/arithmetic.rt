ghost use Rattle.std.specs.Prelude.{◌≡◌, ◌<◌, ◌-ℤ◌};
ghost use Rattle.pdp_word.specs.Size.{span};
ghost use Rattle.pdp_alu.specs.Arithmetic.{add_effect, cmp_effect, difference, sub_effect};
ghost use Rattle.pdp_alu.specs.Operand.{overflows, signed_at};

use crate::effect::Effect;
use crate::operand::{cut, is_negative};
use pdp_word::Size;

/// ADD: destination plus source, both words. N and Z are of the sum, V is set if the signed sum
/// does not fit a word, C on a carry out of it (DEC PDP-11/40 Processor Handbook (1972),
/// Instruction set, ADD).
#[inline]
#[tactic(auto, unfolding(crate::specs::Arithmetic::add_effect))]
pub fn add(source: u16, destination: u16) -> Effect
    ensures effect { result ≡ add_effect source destination }
{
    let sum = destination.wrapping_add(source);
    let negative = is_negative(Size::Word, source);
    let overflow = negative == is_negative(Size::Word, destination)
        && negative != is_negative(Size::Word, sum);
    Effect::new(Size::Word, sum, overflow, sum < source)
}

/// SUB: destination minus source, both words. N and Z are of the difference, V is set if the signed
/// difference does not fit a word, C on a borrow (DEC PDP-11/40 Processor Handbook (1972),
/// Instruction set, SUB).
#[inline]
#[tactic(auto, unfolding(crate::specs::Arithmetic::sub_effect))]
pub fn sub(source: u16, destination: u16) -> Effect
    ensures effect { result ≡ sub_effect source destination }
{
    subtract(Size::Word, destination, source)
}

/// CMP and CMPB: source minus destination, of words the low bytes if the size is a byte; it is not
/// stored. N and Z are of the difference, V is set if the signed difference does not fit the size,
/// C on a borrow (DEC PDP-11/40 Processor Handbook (1972), Instruction set, CMP).
#[inline]
#[tactic(auto, unfolding(crate::specs::Arithmetic::cmp_effect))]
pub fn cmp(size: Size, source: u16, destination: u16) -> Effect
    ensures effect { result ≡ cmp_effect size source destination }
    ensures fits { result.value < span size }
{
    subtract(size, source, destination)
}

/// One operand less another, both cut to the size.
#[inline]
fn subtract(size: Size, minuend: u16, subtrahend: u16) -> Effect
    ensures effect { result ≡ difference size minuend subtrahend }
    ensures fits { result.value < span size }
{
    let minuend = cut(size, minuend);
    let subtrahend = cut(size, subtrahend);
    let overflow = difference_overflows(size, minuend, subtrahend);
    Effect::new(
        size,
        minuend.wrapping_sub(subtrahend),
        overflow,
        minuend < subtrahend,
    )
}

/// Whether the signed difference of two operands of this size does not fit it: their signs differ,
/// and what is left of the difference has the sign of the subtrahend.
#[inline]
fn difference_overflows(size: Size, minuend: u16, subtrahend: u16) -> bool
    requires minuend_fits { minuend < span size }
    requires subtrahend_fits { subtrahend < span size }
    ensures { result ≡ overflows size (signed_at size minuend -ℤ signed_at size subtrahend) }
{
    let left = cut(size, minuend.wrapping_sub(subtrahend));
    let negative = is_negative(size, subtrahend);
    negative != is_negative(size, minuend) && negative == is_negative(size, left)
}
