ghost use Rattle.std.specs.Prelude.{◌≡◌};
ghost use Rattle.pdp_alu.specs.Bytes.{swab_effect, sxt_effect};

use crate::effect::Effect;
use pdp_word::{Codes, join, low_byte};

/// SWAB: the word with its bytes exchanged. N and Z are of the low byte of the result, V and C are
/// cleared (DEC PDP-11/40 Processor Handbook (1972), Instruction set, SWAB).
#[inline]
#[tactic(auto, unfolding(crate::specs::Bytes::swab_effect))]
pub fn swab(word: u16) -> Effect
    ensures effect { result ≡ swab_effect word }
{
    let low = (word >> 8) as u8;
    Effect {
        value: join(low_byte(word), low),
        codes: Codes {
            n: low >= 0o200,
            z: low == 0,
            v: false,
            c: false,
        },
    }
}

/// SXT: 177777 if N is set, else 0. Z is set if N is clear, N and C are kept, V is cleared (DEC
/// PDP-11/40 Processor Handbook (1972), Instruction set, SXT) [4.22].
#[inline]
#[tactic(auto, unfolding(crate::specs::Bytes::sxt_effect))]
pub fn sxt(codes: Codes) -> Effect
    ensures effect { result ≡ sxt_effect codes }
{
    Effect {
        value: if codes.n { 0o177777 } else { 0 },
        codes: Codes {
            z: !codes.n,
            v: false,
            ..codes
        },
    }
}
