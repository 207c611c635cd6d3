ghost use Rattle.std.specs.Prelude.{◌≡◌, option_map};
ghost use Rattle.pdp_program.specs.Numbers.{options_given, start_number, stride_number};
ghost use Rattle.pdp_program.specs.Numbers.{units_number};

use pdp_replay::DEFAULT_STRIDE;
use pdp_word::{read_decimal, read_octal};

/// The units if none are given.
const UNITS: u8 = 31;

/// The start address if none is given.
const START: u16 = 0o1000;

/// The numbers that a run starts from, each as its field holds it: a number that its field can't
/// hold is the field's largest one, which is out of range too.
#[derive(Clone, Copy)]
pub struct Options {
    /// The size of core, in units of 4,096 words.
    pub units: u8,
    /// The address that PC has at power-up.
    pub start: u16,
    /// How many turns apart checkpoints are at first.
    pub stride: u32,
}

/// The options with these texts, decimal, octal and decimal: without them 31 units, start address
/// 1000 and a stride of 10,000 turns. `None` if a text is no number of 1 to 10 digits.
pub fn read_options(
    units: Option<&str>,
    start: Option<&str>,
    stride: Option<&str>,
) -> Option<Options>
    ensures { result ≡ options_given (option_map (λ text. text.now) units.entry)
        (option_map (λ text. text.now) start.entry) (option_map (λ text. text.now) stride.entry) }
{
    let units = units_given(units)?;
    let start = start_given(start)?;
    let stride = stride_given(stride)?;
    Some(Options {
        units,
        start,
        stride,
    })
}

fn units_given(text: Option<&str>) -> Option<u8>
    ensures { result ≡ units_number (option_map (λ text. text.now) text.entry) }
{
    let Some(text) = text else { return Some(UNITS) };
    let units = read_decimal(text.as_bytes())?;
    Some(u8::try_from(units).unwrap_or(u8::MAX))
}

fn start_given(text: Option<&str>) -> Option<u16>
    ensures { result ≡ start_number (option_map (λ text. text.now) text.entry) }
{
    let Some(text) = text else { return Some(START) };
    let start = read_octal(text.as_bytes())?;
    Some(u16::try_from(start).unwrap_or(u16::MAX))
}

fn stride_given(text: Option<&str>) -> Option<u32>
    ensures { result ≡ stride_number (option_map (λ text. text.now) text.entry) }
{
    let Some(text) = text else {
        return Some(DEFAULT_STRIDE)
    };
    let stride = read_decimal(text.as_bytes())?;
    Some(u32::try_from(stride).unwrap_or(u32::MAX))
}
