ghost use Rattle.std.specs.Prelude.{◌≡◌};
ghost use Rattle.pdp_alu.specs.Multiplication.{mul_effect, product};

use crate::long::LongEffect;
use crate::operand::overflows;
use pdp_word::signed;

/// MUL: the product of two signed words, in 32 bits. N and Z are of the product, V is cleared, C is
/// set if it is no signed word (DEC PDP-11/40 Processor Handbook (1972), Extended instruction set,
/// MUL) [4.23].
#[inline]
#[tactic(auto, unfolding(crate::specs::Multiplication::mul_effect))]
pub fn mul(multiplicand: u16, multiplier: u16) -> LongEffect
    ensures effect { result ≡ mul_effect multiplicand multiplier }
{
    let product = product(multiplicand, multiplier);
    LongEffect::new(
        product.cast_unsigned(),
        false,
        overflows(i64::from(product)),
    )
}

/// The product of two signed words, which 32 bits hold.
#[inline]
fn product(multiplicand: u16, multiplier: u16) -> i32
    ensures { result ≡ product multiplicand multiplier }
{
    signed(multiplicand) * signed(multiplier)
}
