ghost use Rattle.std.specs.Prelude.{◌≡◌};
ghost use Rattle.pdp_alu.specs.Long.{high_word, join_words, long_effect, low_word, signed_long};

use pdp_word::Codes;

/// What MUL and ASHC make of their operands: a number of 32 bits, and the codes.
#[derive(Clone, Copy)]
pub struct LongEffect {
    pub value: u32,
    pub codes: Codes,
}

impl LongEffect {
    /// The effect with this value, with N and Z of its 32 bits.
    #[inline]
    pub(crate) fn new(value: u32, overflow: bool, carry: bool) -> LongEffect
        ensures effect { result ≡ long_effect value overflow carry }
    {
        LongEffect {
            value,
            codes: Codes {
                n: value >= 1 << 31,
                z: value == 0,
                v: overflow,
                c: carry,
            },
        }
    }
}

/// The number of 32 bits with these two words, as R and R or 1 hold it
/// (DEC PDP-11/40 Processor Handbook (1972), Extended instruction set).
#[inline]
pub fn join_words(high: u16, low: u16) -> u32
    ensures value { result ≡ join_words high low }
{
    u32::from(high) * 0o200000 + u32::from(low)
}

/// The high word of a number of 32 bits, its bits 31 to 16
/// (DEC PDP-11/40 Processor Handbook (1972), Extended instruction set).
#[inline]
pub fn high_word(long: u32) -> u16
    ensures value { result ≡ high_word long }
{
    (long >> 16) as u16
}

/// The low word of a number of 32 bits, its bits 15 to 0
/// (DEC PDP-11/40 Processor Handbook (1972), Extended instruction set).
#[inline]
pub fn low_word(long: u32) -> u16
    ensures value { result ≡ low_word long }
{
    (long & 0o177777) as u16
}

/// A number of 32 bits as a signed number.
#[inline]
pub fn signed_long(long: u32) -> i32
    ensures { result ≡ signed_long long }
{
    long.cast_signed()
}
