ghost use Rattle.std.specs.Prelude.{◌≡◌, ◌+◌, ◌≤◌, ◌++◌, length, codes, decimal};
ghost use Rattle.pdp_session.specs.Reply.{line_at};
ghost use Rattle.pdp_session.specs.PastShown.{event_line, event_text, events_text, named_number};
ghost use Rattle.pdp_session.specs.PastShown.{setup_line, version_number};
ghost use Rattle.pdp_session.specs.Inside.Sends.{Sends};

use super::texts::{LONGEST_TEXT, Text, add, add_word, count_text, octal3};
use crate::search::FoundList;
use crate::streams::{Drain, Failed, send};
use crate::version::Version;
use itoa::Buffer;
use pdp_replay::{Entry, Event, SetupNumbers};

/// Writes how many events a script has, and a line for each.
pub fn send_events<W: Drain>(events: &FoundList<Entry>, writer: &mut W) -> Result<(), Failed>
    ensures { Sends (events_text events.now) (W.output writer.old) (W.output writer.new) result }
{
    let count = events.len();
    send(writer, count_text("events", count).as_slice())?;
    for index in 0..count {
        send_event(events, index, writer)?;
    }
    Ok(())
}

/// Writes the line of the event of this index, if there is one.
fn send_event<W: Drain>(
    events: &FoundList<Entry>,
    index: usize,
    writer: &mut W,
) -> Result<(), Failed>
    ensures { Sends (line_at event_line events.now index)
        (W.output writer.old) (W.output writer.new) result }
{
    let text = match events.item(index) {
        Some(entry) => entry_text(entry),
        None => Text::new(),
    };
    send(writer, text.as_slice())
}

/// An event: its number, its turn, and what happens.
fn entry_text(entry: Entry) -> Text
    ensures { result.items ≡ event_line entry }
{
    let mut text = Text::new();
    let mut buffer = Buffer::new();
    add(&mut text, buffer.format(entry.number).as_bytes());
    add(&mut text, b" ");
    add(&mut text, buffer.format(entry.turn).as_bytes());
    add(&mut text, b" ");
    add_event(&mut text, entry.event);
    add(&mut text, b"\n");
    text
}

/// Adds what happens, as in the line that makes the event.
pub fn add_event(text: &mut Text, event: Event)
    requires { length text.old.items + 15 ≤ LONGEST_TEXT }
    ensures event_text { text.new.items ≡ text.old.items ++ event_text event }
    ensures length { length text.new.items ≤ length text.old.items + 15 }
{
    match event {
        Event::Key(byte) => {
            add(text, b"key ");
            add(text, &octal3(u16::from(byte)));
        }
        Event::Tick => add(text, b"tick"),
        Event::PrinterDone => add(text, b"printer"),
        Event::ReaderDone => add(text, b"reader"),
        Event::PunchDone => add(text, b"punch"),
        Event::DiskDone => add(text, b"disk"),
        Event::Switches(word) => {
            add(text, b"switches");
            add_word(text, word);
        }
        Event::Continue => add(text, b"continue"),
    }
}

/// The number of a version.
fn version_number(version: Version) -> u32
    ensures { result ≡ version_number version }
{
    match version {
        Version::One => 1,
        Version::Two => 2,
    }
}

/// Adds a number in decimal after its name.
fn add_number(text: &mut Text, name: &str, number: u32)
    requires { length text.old.items + length name.now + 10 ≤ LONGEST_TEXT }
    ensures named_number { text.new.items ≡ text.old.items ++ named_number name.now number }
    ensures length { length text.new.items ≤ length text.old.items + length name.now + 10 }
{
    let mut buffer = Buffer::new();
    add(text, name.as_bytes());
    add(text, buffer.format(number).as_bytes());
}

/// The numbers of the setup, each after its name.
#[tactic(auto, unfolding(crate::specs::PastShown::setup_line))]
pub fn setup_text(version: Version, setup: &SetupNumbers) -> Text
    ensures { result.items ≡ setup_line version setup.now }
{
    let mut text = Text::new();
    add_number(&mut text, "setup version ", version_number(version));
    add_number(&mut text, " units ", u32::from(setup.units));
    add(&mut text, b" start");
    add_word(&mut text, setup.start);
    add_number(&mut text, " stride ", setup.stride);
    add_number(&mut text, " printer ", setup.delays.printer);
    add_number(&mut text, " reader ", setup.delays.reader);
    add_number(&mut text, " punch ", setup.delays.punch);
    add_number(&mut text, " disk ", setup.delays.disk);
    add_number(&mut text, " clock ", setup.delays.clock);
    let mut buffer = Buffer::new();
    add(&mut text, b" tape ");
    add(&mut text, buffer.format(setup.tape_len).as_bytes());
    add(&mut text, b"\n");
    text
}
