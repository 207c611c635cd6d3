ghost use Rattle.std.specs.Prelude.{◌≡◌};
ghost use Rattle.pdp_session.specs.Reply.{line_at};
ghost use Rattle.pdp_session.specs.Search.{read_line, reads_head, reads_text};
ghost use Rattle.pdp_session.specs.Inside.Sends.{Sends};

use super::findings::{listed_head, word_use_text};
use super::texts::Text;
use crate::search::FoundList;
use crate::streams::{Drain, Failed, send};
use pdp_replay::WordRead;

/// Writes how many reads there are, whether there may be more, and a line for each.
pub fn send_reads<W: Drain>(
    reads: &FoundList<WordRead>,
    more: bool,
    writer: &mut W,
) -> Result<(), Failed>
    ensures { Sends (reads_text reads.now more) (W.output writer.old) (W.output writer.new)
        result }
{
    let count = reads.len();
    send(writer, reads_head(count, more).as_slice())?;
    for index in 0..count {
        send_read(reads, index, writer)?;
    }
    Ok(())
}

/// How many reads are listed, and whether there may be more.
fn reads_head(count: usize, more: bool) -> Text
    ensures { result.items ≡ reads_head count more }
{
    listed_head("reads", count, more)
}

/// Writes the line of the read of this index, if there is one.
fn send_read<W: Drain>(
    reads: &FoundList<WordRead>,
    index: usize,
    writer: &mut W,
) -> Result<(), Failed>
    ensures { Sends (line_at read_line reads.now index)
        (W.output writer.old) (W.output writer.new) result }
{
    let text = match reads.item(index) {
        Some(read) => read_text(read),
        None => Text::new(),
    };
    send(writer, text.as_slice())
}

/// A read, with the word that was read.
fn read_text(read: WordRead) -> Text
    ensures { result.items ≡ read_line read }
{
    word_use_text(read.turn, read.agent, read.word)
}
