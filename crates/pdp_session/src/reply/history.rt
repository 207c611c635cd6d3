ghost use Rattle.std.specs.Prelude.{◌≡◌, ◌+◌, ◌≤◌, ◌++◌, length, codes};
ghost use Rattle.pdp_word.specs.Number.{octal_digits};
ghost use Rattle.pdp_session.specs.Reply.{agent_name, last_line, act_text, entry_line, line_at};
ghost use Rattle.pdp_session.specs.Reply.{trail_text};
ghost use Rattle.pdp_session.specs.Inside.Sends.{Sends};

use super::texts::{LONGEST_TEXT, Text, add, add_word, count_text, octal3};
use crate::streams::{Drain, Failed, send};
use itoa::Buffer;
use pdp_replay::{Act, Agent, LastWrite, Trail, TrailEntry};

/// The last write to a word: its turn, its agent and the word since, or that there was none.
pub fn last_text(last: Option<LastWrite>) -> Text
    ensures { result.items ≡ last_line last }
{
    let mut text = Text::new();
    let Some(write) = last else {
        add(&mut text, b"last never\n");
        return text
    };
    let mut buffer = Buffer::new();
    add(&mut text, b"last ");
    add(&mut text, buffer.format(write.turn).as_bytes());
    add(&mut text, b" ");
    add(&mut text, agent_name(write.agent).as_bytes());
    add_word(&mut text, write.word);
    add(&mut text, b"\n");
    text
}

pub fn agent_name(agent: Agent) -> &'static str
    ensures name { result.now ≡ agent_name agent }
    ensures length { length result.now ≤ 4 }
{
    match agent {
        Agent::Cpu => "cpu",
        Agent::Disk => "disk",
    }
}

/// Writes how many turns a trail has, and a line for each.
pub fn send_trail<W: Drain>(trail: &Trail, writer: &mut W) -> Result<(), Failed>
    ensures { Sends (trail_text trail.now) (W.output writer.old) (W.output writer.new) result }
{
    let count = trail.len();
    send(writer, count_text("trail", count).as_slice())?;
    for index in 0..count {
        send_entry(trail, index, writer)?;
    }
    Ok(())
}

/// Writes the line of the turn of this index in a trail, if there is one.
fn send_entry<W: Drain>(trail: &Trail, index: usize, writer: &mut W) -> Result<(), Failed>
    ensures { Sends (line_at entry_line trail.now index)
        (W.output writer.old) (W.output writer.new) result }
{
    let text = match trail.entry(index) {
        Some(entry) => entry_text(entry),
        None => Text::new(),
    };
    send(writer, text.as_slice())
}

/// A turn, PC before it, and its act.
fn entry_text(entry: TrailEntry) -> Text
    ensures { result.items ≡ entry_line entry }
{
    let mut text = Text::new();
    let mut buffer = Buffer::new();
    add(&mut text, buffer.format(entry.turn).as_bytes());
    add_word(&mut text, entry.pc);
    add(&mut text, b" ");
    add_act(&mut text, entry.act);
    add(&mut text, b"\n");
    text
}

/// An act by its name, an interrupt with its vector.
pub fn add_act(text: &mut Text, act: Act)
    requires { length text.old.items + 7 ≤ LONGEST_TEXT }
    ensures act_text { text.new.items ≡ text.old.items ++ act_text act }
    ensures length { length text.new.items ≤ length text.old.items + 7 }
{
    match act {
        Act::Instr => add(text, b"instr"),
        Act::Trace => add(text, b"trace"),
        Act::Stack => add(text, b"stack"),
        Act::Irq(vector) => add_interrupt(text, vector),
        Act::Idle => add(text, b"idle"),
    }
}

/// The interrupt with this vector, in three octal digits.
fn add_interrupt(text: &mut Text, vector: u16)
    requires { length text.old.items + 7 ≤ LONGEST_TEXT }
    ensures act_text { text.new.items ≡ text.old.items ++ codes "irq " ++ octal_digits 3 vector }
    ensures length { length text.new.items ≡ length text.old.items + 7 }
{
    add(text, b"irq ");
    add(text, &octal3(vector));
}
