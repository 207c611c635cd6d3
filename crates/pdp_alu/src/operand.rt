ghost use Rattle.std.specs.Prelude.{◌≡◌, ◌%◌};
ghost use Rattle.pdp_word.specs.Size.{is_negative, span};
ghost use Rattle.pdp_word.specs.declared.size.Size.TheVariants.{Word};
ghost use Rattle.pdp_alu.specs.Operand.{all_ones, most_negative, most_positive, overflows};

use pdp_word::Size;

/// A number cut to the size: the whole word, or its low byte if the size is a byte.
///
/// DEC PDP-11/40 Processor Handbook (1972), Addressing modes.
#[inline(always)]
pub fn cut(size: Size, number: u16) -> u16
    ensures { result ≡ number % span size }
{
    match size {
        Size::Word => number,
        Size::Byte => number & 0o377,
    }
}

/// The largest positive number of this size.
#[inline]
pub fn most_positive(size: Size) -> u16
    ensures { result ≡ most_positive size }
{
    match size {
        Size::Word => 0o077777,
        Size::Byte => 0o177,
    }
}

/// The most negative number of this size: its top bit alone.
#[inline]
pub fn most_negative(size: Size) -> u16
    ensures { result ≡ most_negative size }
{
    match size {
        Size::Word => 0o100000,
        Size::Byte => 0o200,
    }
}

/// Every bit of this size.
#[inline]
pub fn all_ones(size: Size) -> u16
    ensures { result ≡ all_ones size }
{
    match size {
        Size::Word => 0o177777,
        Size::Byte => 0o377,
    }
}

/// Whether the top bit of an operand of this size is set.
#[inline]
pub fn is_negative(size: Size, operand: u16) -> bool
    ensures { result ≡ is_negative size operand }
{
    operand >= most_negative(size)
}

/// Whether a number is no signed word.
#[inline]
pub fn overflows(number: i64) -> bool
    ensures { result ≡ overflows Word number }
{
    number < -0o100000 || 0o100000 <= number
}
