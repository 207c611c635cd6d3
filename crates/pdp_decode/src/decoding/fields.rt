// The fields of an instruction word.
ghost use Rattle.std.specs.Prelude.{◌≡◌};
ghost use Rattle.pdp_decode.specs.Fields.{offset_in, source_in, operand_in, register_in};
ghost use Rattle.pdp_decode.specs.Fields.{last_register_in, word_count_in, code_in, codes_in};

use crate::instruction::Specifier;
use pdp_word::Codes;

// SS of an instruction with two operands.
#[inline(always)]
pub(crate) const fn source(word: u16) -> Specifier
    ensures { result ≡ source_in word }
{
    operand(word >> 6)
}

// The low six bits: DD, or SS if the source is the one operand.
#[inline(always)]
pub(crate) const fn operand(word: u16) -> Specifier
    ensures { result ≡ operand_in word }
{
    let register = last_register(word);
    match word >> 3 & 7 {
        0 => Specifier::Register(register),
        1 => Specifier::Deferred(register),
        2 => Specifier::Autoincrement(register),
        3 => Specifier::AutoincrementDeferred(register),
        4 => Specifier::Autodecrement(register),
        5 => Specifier::AutodecrementDeferred(register),
        6 => Specifier::Index(register),
        _ => Specifier::IndexDeferred(register),
    }
}

// R above the low six bits.
#[inline(always)]
pub(crate) const fn register(word: u16) -> u8
    ensures { result ≡ register_in word }
{
    (word >> 6 & 7) as u8
}

// R in the low three bits.
#[inline(always)]
pub(crate) const fn last_register(word: u16) -> u8
    ensures { result ≡ last_register_in word }
{
    (word & 7) as u8
}

// NN, a count of words in the low six bits.
#[inline(always)]
pub(crate) const fn words(word: u16) -> u8
    ensures { result ≡ word_count_in word }
{
    (word & 0o77) as u8
}

// The low byte, a signed count of words.
#[inline(always)]
pub(crate) const fn offset(word: u16) -> i8
    ensures { result ≡ offset_in word }
{
    code(word).cast_signed()
}

// The low byte, which the program of a trap reads.
#[inline(always)]
pub(crate) const fn code(word: u16) -> u8
    ensures { result ≡ code_in word }
{
    (word & 0o377) as u8
}

// N, Z, V and C in bits 3 to 0.
#[inline(always)]
pub(crate) const fn codes(word: u16) -> Codes
    ensures { result ≡ codes_in word }
{
    Codes {
        n: word >> 3 & 1 == 1,
        z: word >> 2 & 1 == 1,
        v: word >> 1 & 1 == 1,
        c: word & 1 == 1,
    }
}
