ghost use Rattle.std.specs.Prelude.{◌≡◌};
ghost use Rattle.pdp_word.specs.Word.{signed_value, low_byte, high_byte, join, sign_extended};

/// A word read as a two's complement number of 16 bits, from -100000 to 77777 (octal)
/// (DEC PDP-11/40 Processor Handbook (1972), Instruction set).
#[inline]
pub fn signed(word: u16) -> i32
    ensures { result ≡ signed_value word }
{
    if word < 0o100000 {
        i32::from(word)
    } else {
        i32::from(word) - 0o200000
    }
}

/// The low byte of a word, bits 7 to 0: the one at the word's even address
/// (DEC PDP-11/40 Processor Handbook (1972), Addressing modes).
#[inline]
pub fn low_byte(word: u16) -> u8
    ensures { result ≡ low_byte word }
{
    (word & 0xff) as u8
}

/// The word with these two bytes, the low one at its even address, the high one at the odd address
/// after it (DEC PDP-11/40 Processor Handbook (1972), Addressing modes).
#[inline]
pub fn join(high: u8, low: u8) -> u16
    ensures value { result ≡ join high low }
    ensures high { high_byte result ≡ high }
    ensures low { low_byte result ≡ low }
{
    u16::from(high) * 256 + u16::from(low)
}

/// The word that MOVB leaves in a register: the byte below, its top bit in all of the high byte
/// (DEC PDP-11/40 Processor Handbook (1972), Instruction set, MOV).
#[inline]
pub fn sign_extend(byte: u8) -> u16
    ensures { result ≡ sign_extended byte }
{
    i16::from(byte.cast_signed()).cast_unsigned()
}
