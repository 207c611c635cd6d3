ghost use Rattle.std.specs.Prelude.{◌≡◌, ◌<◌};
ghost use Rattle.pdp_word.specs.Size.{span};
ghost use Rattle.pdp_alu.specs.Logic.{bic_effect, bis_effect, bit_effect, xor_effect};

use crate::effect::Effect;
use pdp_word::{Codes, Size};

/// BIT and BITB: the bits that destination and source both have, of words those of the low bytes if
/// the size is a byte; they are not stored. N and Z are of them, V is cleared, C is kept (DEC
/// PDP-11/40 Processor Handbook (1972), Instruction set, BIT).
#[inline]
#[tactic(auto, unfolding(crate::specs::Logic::bit_effect))]
pub fn bit(size: Size, source: u16, destination: u16, codes: Codes) -> Effect
    ensures effect { result ≡ bit_effect size source destination codes }
    ensures fits { result.value < span size }
{
    Effect::new(size, destination & source, false, codes.c)
}

/// BIC and BICB: the bits of destination that source lacks, of words those of the low bytes if the
/// size is a byte. N and Z are of them, V is cleared, C is kept (DEC PDP-11/40 Processor Handbook
/// (1972), Instruction set, BIC).
#[inline]
#[tactic(auto, unfolding(crate::specs::Logic::bic_effect))]
pub fn bic(size: Size, source: u16, destination: u16, codes: Codes) -> Effect
    ensures effect { result ≡ bic_effect size source destination codes }
    ensures fits { result.value < span size }
{
    Effect::new(size, destination & !source, false, codes.c)
}

/// BIS and BISB: the bits that destination or source has, of words those of the low bytes if the
/// size is a byte. N and Z are of them, V is cleared, C is kept (DEC PDP-11/40 Processor Handbook
/// (1972), Instruction set, BIS).
#[inline]
#[tactic(auto, unfolding(crate::specs::Logic::bis_effect))]
pub fn bis(size: Size, source: u16, destination: u16, codes: Codes) -> Effect
    ensures effect { result ≡ bis_effect size source destination codes }
    ensures fits { result.value < span size }
{
    Effect::new(size, destination | source, false, codes.c)
}

/// XOR: the bits in which the register and destination differ, both words. N and Z are of them, V
/// is cleared, C is kept (DEC PDP-11/40 Processor Handbook (1972), Instruction set, XOR).
#[inline]
#[tactic(auto, unfolding(crate::specs::Logic::xor_effect))]
pub fn xor(register: u16, destination: u16, codes: Codes) -> Effect
    ensures effect { result ≡ xor_effect register destination codes }
{
    Effect::new(Size::Word, destination ^ register, false, codes.c)
}
