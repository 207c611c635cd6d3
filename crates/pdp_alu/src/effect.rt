ghost use Rattle.std.specs.Prelude.{◌≡◌, ◌<◌};
ghost use Rattle.pdp_word.specs.Size.{span};
ghost use Rattle.pdp_alu.specs.Effect.{effect};

use crate::operand::{cut, most_negative};
use pdp_word::{Codes, Size};

/// What an instruction makes of its operands: the value, below the span of its size, and the codes.
#[derive(Clone, Copy)]
pub struct Effect {
    pub value: u16,
    pub codes: Codes,
}

impl Effect {
    /// The effect with this value, cut to the size, with N and Z of what is left.
    #[inline]
    pub(crate) fn new(size: Size, value: u16, overflow: bool, carry: bool) -> Effect
        ensures effect { result ≡ effect size value overflow carry }
        ensures fits { result.value < span size }
    {
        let value = cut(size, value);
        Effect {
            value,
            codes: Codes {
                n: value >= most_negative(size),
                z: value == 0,
                v: overflow,
                c: carry,
            },
        }
    }
}
