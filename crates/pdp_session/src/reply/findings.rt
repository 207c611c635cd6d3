ghost use Rattle.std.specs.Prelude.{◌≡◌, ◌≤◌, length};
ghost use Rattle.pdp_session.specs.Reply.{line_at, listed_head, more_mark};
ghost use Rattle.pdp_session.specs.Search.{finding_text, found_text, text_name, turn_line};
ghost use Rattle.pdp_session.specs.Search.{word_use_line, write_line, writes_head, writes_text};
ghost use Rattle.pdp_session.specs.Inside.Sends.{Sends};

use super::accesses::send_accesses;
use super::bytes::send_bytes;
use super::counts::send_counts;
use super::history::agent_name;
use super::moves::send_moves;
use super::past_shown::{send_events, setup_text};
use super::reads::send_reads;
use super::send_value;
use super::texts::{Text, add, add_word, refusal_text};
use super::transfers::send_transfers;
use crate::search::{Finding, FoundList};
use crate::streams::{Drain, Failed, send};
use itoa::Buffer;
use pdp_replay::{Fault, LastWrite, TextKind};
use pdp_store::Agent;

/// Writes what a search found, or why it was refused.
pub fn send_found<W: Drain>(found: &Result<Finding, Fault>, writer: &mut W) -> Result<(), Failed>
    ensures { Sends (found_text found.now) (W.output writer.old) (W.output writer.new) result }
{
    match found {
        Ok(finding) => send_finding(finding, writer),
        Err(fault) => send(writer, refusal_text(*fault).as_slice()),
    }
}

/// Writes what a search found: one row for each kind of search.
fn send_finding<W: Drain>(finding: &Finding, writer: &mut W) -> Result<(), Failed>
    ensures { Sends (finding_text finding.now) (W.output writer.old) (W.output writer.new) result }
{
    match finding {
        Finding::First(turn) => send(writer, turn_text("first", *turn).as_slice()),
        Finding::Latest(turn) => send(writer, turn_text("latest", *turn).as_slice()),
        Finding::Writes(writes, more) => send_writes(writes, *more, writer),
        Finding::Reads(reads, more) => send_reads(reads, *more, writer),
        Finding::Accesses(details, more) => send_accesses(details, *more, writer),
        Finding::Moves(details) => send_moves(details, writer),
        Finding::Transfers(completions, more) => send_transfers(completions, *more, writer),
        Finding::Change(turn) => send(writer, turn_text("change", *turn).as_slice()),
        Finding::TextFrom(kind, bytes) => send_bytes(text_name(*kind), bytes.items(), writer),
        Finding::When(turn) => send(writer, turn_text("when", *turn).as_slice()),
        Finding::Fades(turn) => send(writer, turn_text("fades", *turn).as_slice()),
        Finding::Answer(value) => send_value(value, writer),
        Finding::Counts(counts) => send_counts(counts, writer),
        Finding::Events(events) => send_events(events, writer),
        Finding::Setup(version, setup) => { send(writer, setup_text(*version, setup).as_slice()) }
    }
}

/// What was looked for, and the turn that was found, or that there is none.
fn turn_text(name: &str, turn: Option<u32>) -> Text
    requires { length name.now ≤ 6 }
    ensures { result.items ≡ turn_line name.now turn }
{
    let mut text = Text::new();
    add(&mut text, name.as_bytes());
    let Some(turn) = turn else {
        add(&mut text, b" none\n");
        return text
    };
    let mut buffer = Buffer::new();
    add(&mut text, b" ");
    add(&mut text, buffer.format(turn).as_bytes());
    add(&mut text, b"\n");
    text
}

/// The name of a text.
fn text_name(kind: TextKind) -> &'static str
    ensures name { result.now ≡ text_name kind }
    ensures length { length result.now ≤ 7 }
{
    match kind {
        TextKind::Printed => "text",
        TextKind::Punched => "punched",
    }
}

/// Writes how many writes there are, whether there may be more, and a line for each.
fn send_writes<W: Drain>(
    writes: &FoundList<LastWrite>,
    more: bool,
    writer: &mut W,
) -> Result<(), Failed>
    ensures { Sends (writes_text writes.now more) (W.output writer.old) (W.output writer.new)
        result }
{
    let count = writes.len();
    send(writer, writes_head(count, more).as_slice())?;
    for index in 0..count {
        send_write(writes, index, writer)?;
    }
    Ok(())
}

/// How many writes are listed, and whether there may be more.
fn writes_head(count: usize, more: bool) -> Text
    ensures { result.items ≡ writes_head count more }
{
    listed_head("writes", count, more)
}

/// What a list is of, how many are listed, and whether there may be more.
pub fn listed_head(name: &str, count: usize, more: bool) -> Text
    requires { length name.now ≤ 9 }
    ensures { result.items ≡ listed_head name.now count more }
{
    let mut text = Text::new();
    let mut buffer = Buffer::new();
    add(&mut text, name.as_bytes());
    add(&mut text, b" ");
    add(&mut text, buffer.format(count).as_bytes());
    add(&mut text, more_mark(more).as_bytes());
    text
}

/// The end of a line that says whether there may be more.
fn more_mark(more: bool) -> &'static str
    ensures mark { result.now ≡ more_mark more }
    ensures length { length result.now ≤ 9 }
{
    if more { " or more\n" } else { "\n" }
}

/// Writes the line of the write of this index, if there is one.
fn send_write<W: Drain>(
    writes: &FoundList<LastWrite>,
    index: usize,
    writer: &mut W,
) -> Result<(), Failed>
    ensures { Sends (line_at write_line writes.now index)
        (W.output writer.old) (W.output writer.new) result }
{
    let text = match writes.item(index) {
        Some(write) => write_text(write),
        None => Text::new(),
    };
    send(writer, text.as_slice())
}

/// A write, with the word after the turn.
fn write_text(write: LastWrite) -> Text
    ensures { result.items ≡ write_line write }
{
    word_use_text(write.turn, write.agent, write.word)
}

/// A read or a write: its turn, its agent, and a word.
pub fn word_use_text(turn: u32, agent: Agent, word: u16) -> Text
    ensures { result.items ≡ word_use_line turn agent word }
{
    let mut text = Text::new();
    let mut buffer = Buffer::new();
    add(&mut text, buffer.format(turn).as_bytes());
    add(&mut text, b" ");
    add(&mut text, agent_name(agent).as_bytes());
    add_word(&mut text, word);
    add(&mut text, b"\n");
    text
}
