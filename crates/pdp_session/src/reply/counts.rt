ghost use Rattle.std.specs.Prelude.{◌≡◌};
ghost use Rattle.pdp_session.specs.Reply.{line_at};
ghost use Rattle.pdp_session.specs.Search.{count_shown, counts_line};
ghost use Rattle.pdp_session.specs.Inside.Sends.{Sends};

use super::texts::{Text, add};
use crate::search::FoundList;
use crate::streams::{Drain, Failed, send};
use itoa::Buffer;

/// Writes counts, in one line after their name.
pub fn send_counts<W: Drain>(counts: &FoundList<u32>, writer: &mut W) -> Result<(), Failed>
    ensures { Sends (counts_line counts.now) (W.output writer.old) (W.output writer.new) result }
{
    send(writer, b"counts")?;
    for index in 0..counts.len() {
        send_count(counts, index, writer)?;
    }
    send(writer, b"\n")
}

/// Writes the count of this index, if there is one.
fn send_count<W: Drain>(counts: &FoundList<u32>, index: usize, writer: &mut W) -> Result<(), Failed>
    ensures { Sends (line_at count_shown counts.now index)
        (W.output writer.old) (W.output writer.new) result }
{
    let text = match counts.item(index) {
        Some(count) => count_text(count),
        None => Text::new(),
    };
    send(writer, text.as_slice())
}

/// A count in decimal, after a space.
fn count_text(count: u32) -> Text
    ensures { result.items ≡ count_shown count }
{
    let mut text = Text::new();
    let mut buffer = Buffer::new();
    add(&mut text, b" ");
    add(&mut text, buffer.format(count).as_bytes());
    text
}
