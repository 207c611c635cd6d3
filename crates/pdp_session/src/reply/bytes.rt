ghost use Rattle.std.specs.Prelude.{◌≡◌, ◌+◌, ◌≤◌, ◌++◌, length};
ghost use Rattle.pdp_session.specs.Reply.{stands_for_itself, byte_text, byte_texts, bytes_head};
ghost use Rattle.pdp_session.specs.Reply.{bytes_line};
ghost use Rattle.pdp_session.specs.Inside.Sends.{Sends};

use super::texts::{LONGEST_TEXT, Text, add, octal3};
use crate::streams::{Drain, Failed, send};
use itoa::Buffer;

/// The most bytes that are written out at once: with their escapes they have room in a text.
const MOST_BYTES: usize = 64;

/// Writes bytes, in one line after their name and their count, some of them at a time.
pub fn send_bytes<W: Drain>(name: &str, bytes: &[u8], writer: &mut W) -> Result<(), Failed>
    requires { length name.now ≤ 7 }
    ensures { Sends (bytes_line name.now bytes.now)
        (W.output writer.old) (W.output writer.new) result }
{
    send(writer, bytes_head(name, bytes.len()).as_slice())?;
    let mut rest = bytes;
    while !rest.is_empty() {
        let (front, others) = rest.split_at(rest.len().min(MOST_BYTES));
        send(writer, bytes_text(front).as_slice())?;
        rest = others;
    }
    send(writer, b"\n")
}

/// What comes before so many bytes: their name and their count.
fn bytes_head(name: &str, count: usize) -> Text
    requires { length name.now ≤ 7 }
    ensures { result.items ≡ bytes_head name.now count }
{
    let mut text = Text::new();
    let mut buffer = Buffer::new();
    add(&mut text, name.as_bytes());
    add(&mut text, b" ");
    add(&mut text, buffer.format(count).as_bytes());
    add(&mut text, b":");
    text
}

/// Some bytes as they are shown.
fn bytes_text(bytes: &[u8]) -> Text
    requires { length bytes.now ≤ MOST_BYTES }
    ensures { result.items ≡ byte_texts bytes.now }
{
    let mut text = Text::new();
    for byte in bytes {
        add_byte(&mut text, *byte);
    }
    text
}

/// A printing byte but a backslash stands for itself; any other is a backslash and three octal
/// digits.
fn add_byte(text: &mut Text, byte: u8)
    requires { length text.old.items + 4 ≤ LONGEST_TEXT }
    ensures byte_text { text.new.items ≡ text.old.items ++ byte_text byte }
    ensures length { length text.new.items ≤ length text.old.items + 4 }
{
    if stands_for_itself(byte) {
        text.push(byte);
    } else {
        add(text, b"\\");
        add(text, &octal3(u16::from(byte)));
    }
}

/// A printing byte, 040 to 176, but no backslash.
fn stands_for_itself(byte: u8) -> bool
    ensures { result ≡ stands_for_itself byte }
{
    (b' '..=b'~').contains(&byte) && byte != b'\\'
}
