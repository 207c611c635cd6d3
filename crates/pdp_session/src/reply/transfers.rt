ghost use Rattle.std.specs.Prelude.{◌≡◌, ◌+◌, ◌≤◌, ◌++◌, length};
ghost use Rattle.pdp_session.specs.Reply.{line_at};
ghost use Rattle.pdp_session.specs.Transfers.{asked_text, begun_text, done_text, function_name};
ghost use Rattle.pdp_session.specs.Transfers.{transfer_line, transfers_head, transfers_text};
ghost use Rattle.pdp_session.specs.Transfers.{turns_text};
ghost use Rattle.pdp_session.specs.Inside.Sends.{Sends};

use super::findings::listed_head;
use super::texts::{LONGEST_TEXT, Text, add, add_octal7, add_word};
use crate::search::FoundList;
use crate::streams::{Drain, Failed, send};
use itoa::Buffer;
use pdp_replay::DiskCompletion;
use pdp_rk11::{Function, Rk};
use pdp_word::write_octal6;

/// Writes how many completions there are, whether there may be more, and a line for each.
pub fn send_transfers<W: Drain>(
    completions: &FoundList<DiskCompletion>,
    more: bool,
    writer: &mut W,
) -> Result<(), Failed>
    ensures { Sends (transfers_text completions.now more) (W.output writer.old)
        (W.output writer.new) result }
{
    let count = completions.len();
    send(writer, transfers_head(count, more).as_slice())?;
    for index in 0..count {
        send_transfer(completions, index, writer)?;
    }
    Ok(())
}

/// How many completions are listed, and whether there may be more.
fn transfers_head(count: usize, more: bool) -> Text
    ensures { result.items ≡ transfers_head count more }
{
    listed_head("transfers", count, more)
}

/// Writes the line of the completion of this index, if there is one.
fn send_transfer<W: Drain>(
    completions: &FoundList<DiskCompletion>,
    index: usize,
    writer: &mut W,
) -> Result<(), Failed>
    ensures { Sends (line_at transfer_line completions.now index)
        (W.output writer.old) (W.output writer.new) result }
{
    let text = match completions.item(index) {
        Some(completion) => transfer_text(completion),
        None => Text::new(),
    };
    send(writer, text.as_slice())
}

/// A completion: its turns, what was asked for, and what was done.
fn transfer_text(completion: DiskCompletion) -> Text
    ensures { result.items ≡ transfer_line completion }
{
    let mut text = Text::new();
    add_turns(&mut text, completion);
    add_asked(&mut text, completion.before);
    add_done(&mut text, completion.before, completion.after);
    text
}

/// Adds the turns of a completion.
#[tactic(auto, unfolding(crate::specs::Transfers::turns_text))]
fn add_turns(text: &mut Text, completion: DiskCompletion)
    requires { length text.old.items + 22 ≤ LONGEST_TEXT }
    ensures text { text.new.items ≡ text.old.items ++ turns_text completion }
    ensures length { length text.new.items ≤ length text.old.items + 22 }
{
    let mut buffer = Buffer::new();
    add(text, buffer.format(completion.turn).as_bytes());
    add(text, b" ");
    add_begun(text, completion.begun);
    add(text, b" ");
}

/// Adds the turn that began a function.
fn add_begun(text: &mut Text, begun: Option<u32>)
    requires { length text.old.items + 10 ≤ LONGEST_TEXT }
    ensures text { text.new.items ≡ text.old.items ++ begun_text begun }
    ensures length { length text.new.items ≤ length text.old.items + 10 }
{
    match begun {
        Some(turn) => {
            let mut buffer = Buffer::new();
            add(text, buffer.format(turn).as_bytes());
        }
        None => add(text, b"before"),
    }
}

/// Adds what was asked for.
#[tactic(auto, unfolding(crate::specs::Transfers::asked_text))]
pub fn add_asked(text: &mut Text, asked: Rk)
    requires { length text.old.items + 50 ≤ LONGEST_TEXT }
    ensures text { text.new.items ≡ text.old.items ++ asked_text asked }
    ensures length { length text.new.items ≤ length text.old.items + 50 }
{
    let mut buffer = Buffer::new();
    add(text, function_name(asked.function).as_bytes());
    add(text, b" ");
    add(text, buffer.format(asked.drive() as u32).as_bytes());
    add(text, b" ");
    add_octal7(text, asked.first_word());
    add(text, b" ");
    add(text, &write_octal6(asked.address / 2 * 2));
    add(text, b" ");
}

/// Adds what was done: how many words, and RKER, and ends the line.
#[tactic(auto, unfolding(crate::specs::Transfers::done_text))]
pub fn add_done(text: &mut Text, before: Rk, after: Rk)
    requires { length text.old.items + 18 ≤ LONGEST_TEXT }
    ensures text { text.new.items ≡ text.old.items ++ done_text before after }
    ensures length { length text.new.items ≤ length text.old.items + 18 }
{
    let mut buffer = Buffer::new();
    let count = after.words_done(&before);
    add(text, buffer.format(count).as_bytes());
    add_word(text, after.error_word());
    add(text, b"\n");
}

/// The name of a function.
pub fn function_name(function: Function) -> &'static str
    ensures name { result.now ≡ function_name function }
    ensures length { length result.now ≤ 13 }
{
    match function {
        Function::ControlReset => "control-reset",
        Function::Write => "write",
        Function::Read => "read",
        Function::WriteCheck => "write-check",
        Function::Seek => "seek",
        Function::ReadCheck => "read-check",
        Function::DriveReset => "drive-reset",
        Function::WriteLock => "write-lock",
    }
}
