ghost use Rattle.std.specs.Prelude.{◌≡◌, ◌<◌};
ghost use Rattle.pdp_word.specs.Size.{span};
ghost use Rattle.pdp_alu.specs.Effect.{mov_effect};

use crate::effect::Effect;
use pdp_word::{Codes, Size};

/// MOV and MOVB: the value itself, of a word the low byte if the size is a byte. N and Z are of
/// that value at that size, V is cleared, C is kept (DEC PDP-11/40 Processor Handbook (1972),
/// Instruction set, MOV).
#[inline]
#[tactic(auto, unfolding(crate::specs::Effect::mov_effect))]
pub fn mov(size: Size, value: u16, codes: Codes) -> Effect
    ensures effect { result ≡ mov_effect size value codes }
    ensures fits { result.value < span size }
{
    Effect::new(size, value, false, codes.c)
}
