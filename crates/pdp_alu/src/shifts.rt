ghost use Rattle.std.specs.Prelude.{◌≡◌, ◌%◌, ◌<◌};
ghost use Rattle.pdp_word.specs.Size.{span};
ghost use Rattle.pdp_alu.specs.Shifts.{asl_effect, asr_effect, moved_left, moved_right, rol_effect};
ghost use Rattle.pdp_alu.specs.Shifts.{ror_effect, shift_effect};

use crate::effect::Effect;
use crate::operand::{cut, is_negative, most_negative};
use pdp_word::{Codes, Size};

/// ROR and RORB: the bits of the value one place to the right through C, of a word those of the low
/// byte if the size is a byte: C goes into the top bit, the lowest bit into C. N and Z are of the
/// result, V is N exclusive or the new C (DEC PDP-11/40 Processor Handbook (1972), Instruction set,
/// ROR).
#[inline]
#[tactic(auto, unfolding(crate::specs::Shifts::ror_effect))]
pub fn ror(size: Size, value: u16, codes: Codes) -> Effect
    ensures effect { result ≡ ror_effect size value codes }
    ensures fits { result.value < span size }
{
    move_right(size, value, codes.c)
}

/// ROL and ROLB: the bits of the value one place to the left through C, of a word those of the low
/// byte if the size is a byte: C goes into the lowest bit, the top bit into C. N and Z are of the
/// result, V is N exclusive or the new C (DEC PDP-11/40 Processor Handbook (1972), Instruction set,
/// ROL).
#[inline]
#[tactic(auto, unfolding(crate::specs::Shifts::rol_effect))]
pub fn rol(size: Size, value: u16, codes: Codes) -> Effect
    ensures effect { result ≡ rol_effect size value codes }
    ensures fits { result.value < span size }
{
    move_left(size, value, codes.c)
}

/// ASR and ASRB: the bits of the value one place to the right, of a word those of the low byte if
/// the size is a byte: the top bit stays, the lowest bit goes into C. N and Z are of the result, V
/// is N exclusive or the new C (DEC PDP-11/40 Processor Handbook (1972), Instruction set, ASR).
#[inline]
#[tactic(auto, unfolding(crate::specs::Shifts::asr_effect))]
pub fn asr(size: Size, value: u16) -> Effect
    ensures effect { result ≡ asr_effect size value }
    ensures fits { result.value < span size }
{
    move_right(size, value, is_negative(size, cut(size, value)))
}

/// ASL and ASLB: the bits of the value one place to the left, of a word those of the low byte if
/// the size is a byte: 0 goes into the lowest bit, the top bit into C. N and Z are of the result, V
/// is N exclusive or the new C (DEC PDP-11/40 Processor Handbook (1972), Instruction set, ASL).
#[inline]
#[tactic(auto, unfolding(crate::specs::Shifts::asl_effect))]
pub fn asl(size: Size, value: u16) -> Effect
    ensures effect { result ≡ asl_effect size value }
    ensures fits { result.value < span size }
{
    move_left(size, value, false)
}

/// One place to the right: a bit into the top bit, the lowest bit out.
#[inline]
fn move_right(size: Size, value: u16, top: bool) -> Effect
    ensures effect { result ≡ moved_right size (value % span size) top }
    ensures fits { result.value < span size }
{
    let rest = cut(size, value) >> 1;
    let moved = if top {
        most_negative(size) + rest
    } else {
        rest
    };
    shifted(size, moved, value & 1 == 1)
}

/// One place to the left: a bit into the lowest bit, the top bit out.
#[inline]
fn move_left(size: Size, value: u16, lowest: bool) -> Effect
    ensures effect { result ≡ moved_left size (value % span size) lowest }
    ensures fits { result.value < span size }
{
    let out = is_negative(size, cut(size, value));
    shifted(size, (value << 1) + u16::from(lowest), out)
}

/// The result of a shift and the bit that it moved out.
#[inline]
fn shifted(size: Size, moved: u16, out: bool) -> Effect
    ensures effect { result ≡ shift_effect size moved out }
    ensures fits { result.value < span size }
{
    let negative = is_negative(size, cut(size, moved));
    Effect::new(size, moved, negative != out, out)
}
