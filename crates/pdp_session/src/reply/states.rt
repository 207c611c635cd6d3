ghost use Rattle.std.specs.Prelude.{◌≡◌, ◌≤◌, length};
ghost use Rattle.pdp_session.specs.Reply.{abort_name, cause_text, found_line, line_at, search_name};
ghost use Rattle.pdp_session.specs.Reply.{translation_line, unreadable_line, virtual_line};
ghost use Rattle.pdp_session.specs.Reply.{words_found_text};
ghost use Rattle.pdp_session.specs.Inside.Sends.{Sends};

use super::findings::listed_head;
use super::send_words;
use super::texts::{Text, add, add_address, add_octal7};
use crate::streams::{Drain, Failed, send};
use pdp_kt11::Abort;
use pdp_replay::{Cause, FoundWords, Unreadable, Words};
use pdp_word::write_octal6;

/// What words were looked for in.
#[derive(Clone, Copy)]
pub enum FoundWhere {
    InCore,
    OnDrive,
}

/// The physical address of a virtual one, or the abort.
#[tactic(auto, unfolding(crate::specs::Reply::translation_line))]
pub fn translation_text(translated: Result<u32, Abort>) -> Text
    ensures { result.items ≡ translation_line translated }
{
    let mut text = Text::new();
    match translated {
        Ok(physical) => {
            add(&mut text, b"translate ");
            add(&mut text, &write_octal6(physical));
        }
        Err(abort) => {
            add(&mut text, b"translate abort ");
            add(&mut text, abort_name(abort).as_bytes());
        }
    }
    add(&mut text, b"\n");
    text
}

/// Why memory management doesn't let an access through.
fn abort_name(abort: Abort) -> &'static str
    ensures name { result.now ≡ abort_name abort }
    ensures length { length result.now ≤ 12 }
{
    match abort {
        Abort::Resident => "non-resident",
        Abort::Length => "length",
        Abort::ReadOnly => "read-only",
    }
}

/// Writes the words at virtual addresses, or the first that can't be read.
pub fn send_virtual<W: Drain>(
    words: &Result<Words, Unreadable>,
    writer: &mut W,
) -> Result<(), Failed>
    ensures { Sends (virtual_line words.now) (W.output writer.old) (W.output writer.new) result }
{
    match words {
        Ok(words) => send_words("virtual", words.items(), writer),
        Err(unreadable) => send(writer, unreadable_text(*unreadable).as_slice()),
    }
}

/// The first word that can't be read, and why.
#[tactic(auto, unfolding(crate::specs::Reply::unreadable_line))]
fn unreadable_text(unreadable: Unreadable) -> Text
    ensures { result.items ≡ unreadable_line unreadable }
{
    let mut text = Text::new();
    add(&mut text, b"virtual ");
    add(&mut text, cause_text(unreadable.cause).as_slice());
    add(&mut text, b" at ");
    add(&mut text, &write_octal6(u32::from(unreadable.address)));
    add(&mut text, b"\n");
    text
}

/// Why a word can't be read.
fn cause_text(cause: Cause) -> Text
    ensures text { result.items ≡ cause_text cause }
    ensures length { length result.items ≤ 18 }
{
    let mut text = Text::new();
    match cause {
        Cause::Abort(abort) => {
            add(&mut text, b"abort ");
            add(&mut text, abort_name(abort).as_bytes());
        }
        Cause::Timeout => add(&mut text, b"timeout"),
        Cause::Device => add(&mut text, b"device"),
    }
    text
}

/// Writes how many words were found, whether there are more, and a line for each.
pub fn send_found_words<W: Drain>(
    place: FoundWhere,
    found: &FoundWords,
    writer: &mut W,
) -> Result<(), Failed>
    ensures { Sends (words_found_text place found.now)
        (W.output writer.old) (W.output writer.new) result }
{
    let numbers = found.numbers.items();
    let count = numbers.len();
    send(
        writer,
        listed_head(search_name(place), count, found.more).as_slice(),
    )?;
    for index in 0..count {
        send_number(place, numbers, index, writer)?;
    }
    Ok(())
}

/// The search for words of core or of a drive, by its name.
fn search_name(place: FoundWhere) -> &'static str
    ensures name { result.now ≡ search_name place }
    ensures length { length result.now ≤ 7 }
{
    match place {
        FoundWhere::InCore => "find",
        FoundWhere::OnDrive => "finddsk",
    }
}

/// Writes the line of the number of this index, if there is one.
fn send_number<W: Drain>(
    place: FoundWhere,
    numbers: &[u32],
    index: usize,
    writer: &mut W,
) -> Result<(), Failed>
    ensures { Sends (line_at (found_line place) numbers.now index)
        (W.output writer.old) (W.output writer.new) result }
{
    let text = match numbers.get(index).copied() {
        Some(number) => found_text(place, number),
        None => Text::new(),
    };
    send(writer, text.as_slice())
}

/// A word that was found: of core its address, of a drive its number.
fn found_text(place: FoundWhere, number: u32) -> Text
    ensures { result.items ≡ found_line place number }
{
    let mut text = Text::new();
    match place {
        FoundWhere::InCore => add_address(&mut text, number),
        FoundWhere::OnDrive => add_octal7(&mut text, number),
    }
    add(&mut text, b"\n");
    text
}
