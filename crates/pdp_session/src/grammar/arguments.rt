ghost use Rattle.std.specs.Prelude.{◌≡◌, ◌≤◌, length};
ghost use Rattle.std.specs.Option.{option_map};
ghost use Rattle.pdp_session.specs.Grammar.Arguments.{one_of, two_of, drive_named, drive_first};
ghost use Rattle.pdp_session.specs.Grammar.Arguments.{word_named, byte_named, bytes_named};
ghost use Rattle.pdp_session.specs.Grammar.Arguments.{device_named, event_named, turn_named};
ghost use Rattle.pdp_session.specs.Grammar.Arguments.{count_named, mode_named, turns_first};
ghost use Rattle.pdp_session.specs.Grammar.Words.{words_of_line};
ghost use Rattle.pdp_session.specs.Lines.{longest_line};

use super::words::next_word;
use crate::edit::TapeBytes;
use crate::version::Version;
use pdp_kt11::Mode;
use pdp_replay::DelayedDevice;
use pdp_word::{read_decimal, read_octal};

/// The word of a text that has one.
pub fn one_word(text: &[u8]) -> Option<&[u8]>
    ensures { option_map (λ word. word.now) result ≡ one_of (words_of_line text.now) }
{
    let (word, rest) = next_word(text)?;
    if next_word(rest).is_some() {
        return None;
    }
    Some(word)
}

/// The words of a text that has two.
pub fn two_words(text: &[u8]) -> Option<(&[u8], &[u8])>
    ensures { option_map (λ words. (words.0.now, words.1.now)) result ≡ two_of
        (words_of_line text.now) }
{
    let (first, rest) = next_word(text)?;
    let second = one_word(rest)?;
    Some((first, second))
}

/// A word of the machine, in octal; `None` above 177777.
pub fn read_word(text: &[u8]) -> Option<u16>
    ensures { result ≡ word_named text.now }
{
    let number = read_octal(text)?;
    u16::try_from(number).ok()
}

/// A byte, in octal; `None` above 377.
pub fn read_byte(text: &[u8]) -> Option<u8>
    ensures { result ≡ byte_named text.now }
{
    let number = read_octal(text)?;
    u8::try_from(number).ok()
}

/// A drive by its number, in octal; one that 8 bits can't hold becomes the largest that they hold,
/// which no drive has.
fn read_drive(text: &[u8]) -> Option<u8>
    ensures { result ≡ drive_named text.now }
{
    let number = read_octal(text)?;
    Some(u8::try_from(number).unwrap_or(u8::MAX))
}

/// The drive that a text's words are about, and the words that say what: in version 1 they name no
/// drive.
pub fn drive_first(version: Version, text: &[u8]) -> Option<(u8, &[u8])>
    ensures { option_map (λ found. (found.0, words_of_line found.1.now)) result
        ≡ drive_first version (words_of_line text.now) }
{
    match version {
        Version::One => Some((0, text)),
        Version::Two => {
            let (drive, others) = next_word(text)?;
            let drive = read_drive(drive)?;
            Some((drive, others))
        }
    }
}

/// The bytes that a text's words are, in octal; `None` if one of its words is no byte.
pub fn read_bytes(text: &[u8]) -> Option<TapeBytes>
    requires { length text.now ≤ longest_line }
    ensures { option_map (λ bytes. bytes.items) result ≡ bytes_named (words_of_line text.now) }
{
    let mut bytes = TapeBytes::new();
    let mut rest = text;
    while let Some((word, others)) = next_word(rest) {
        bytes.push(read_byte(word)?);
        rest = others;
    }
    Some(bytes)
}

/// A mode of the processor, by its name.
#[tactic(auto, unfolding(crate::specs::Grammar::Arguments::mode_named))]
pub fn read_mode(name: &[u8]) -> Option<Mode>
    ensures { result ≡ mode_named name.now }
{
    if name == b"kernel".as_slice() {
        Some(Mode::Kernel)
    } else if name == b"user".as_slice() {
        Some(Mode::User)
    } else {
        None
    }
}

/// A device that has a delay, by its name.
#[tactic(auto, unfolding(crate::specs::Grammar::Arguments::device_named))]
pub fn read_device_name(name: &[u8]) -> Option<DelayedDevice>
    ensures { result ≡ device_named name.now }
{
    if name == b"printer".as_slice() {
        Some(DelayedDevice::Printer)
    } else if name == b"reader".as_slice() {
        Some(DelayedDevice::Reader)
    } else if name == b"punch".as_slice() {
        Some(DelayedDevice::Punch)
    } else if name == b"disk".as_slice() {
        Some(DelayedDevice::Disk)
    } else if name == b"clock".as_slice() {
        Some(DelayedDevice::Clock)
    } else {
        None
    }
}

/// An event by its number, in decimal; one that 32 bits can't hold becomes 0, which no event has.
pub fn read_event_number(text: &[u8]) -> Option<u32>
    ensures { result ≡ event_named text.now }
{
    let number = read_decimal(text)?;
    Some(u32::try_from(number).unwrap_or(0))
}

/// A turn, in decimal; one that 32 bits can't hold becomes the largest that they hold, which no run
/// reaches.
pub fn read_turn(text: &[u8]) -> Option<u32>
    ensures { result ≡ turn_named text.now }
{
    let number = read_decimal(text)?;
    Some(u32::try_from(number).unwrap_or(u32::MAX))
}

/// A count, in decimal; one that 32 bits can't hold becomes the largest that they hold, which no
/// count may be.
pub fn read_count(text: &[u8]) -> Option<u32>
    ensures { result ≡ count_named text.now }
{
    let number = read_decimal(text)?;
    Some(u32::try_from(number).unwrap_or(u32::MAX))
}

/// Two turns, and the words that say what.
pub fn turns_first(text: &[u8]) -> Option<(u32, u32, &[u8])>
    ensures { option_map (λ found. (found.0, found.1, words_of_line found.2.now)) result
        ≡ turns_first (words_of_line text.now) }
{
    let (from, others) = next_word(text)?;
    let (to, what) = next_word(others)?;
    let from = read_turn(from)?;
    let to = read_turn(to)?;
    Some((from, to, what))
}
