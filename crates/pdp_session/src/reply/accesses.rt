ghost use Rattle.std.specs.Prelude.{◌≡◌, ◌+◌, ◌≤◌, ◌++◌, length};
ghost use Rattle.pdp_replay.specs.declared.ask.accesses.TurnDetail.TheVariants as detail;
ghost use Rattle.pdp_session.specs.Reply.{line_at};
ghost use Rattle.pdp_session.specs.Accesses.{accesses_head, accesses_text, completion_line};
ghost use Rattle.pdp_session.specs.Accesses.{cycle_line, detail_line, head_line, kind_name};
ghost use Rattle.pdp_session.specs.Accesses.{mode_name, output_line, output_name, place_text};
ghost use Rattle.pdp_session.specs.Accesses.{cycle_value_text};
ghost use Rattle.pdp_session.specs.Inside.Sends.{Sends};

use super::findings::listed_head;
use super::history::add_act;
use super::past_shown::add_event;
use super::texts::{LONGEST_TEXT, Text, add, add_word, octal3};
use super::transfers::{add_asked, add_done};
use crate::search::FoundList;
use crate::streams::{Drain, Failed, send};
use itoa::Buffer;
use pdp_cpu::Mode;
use pdp_replay::{DiskTurn, Event, TextKind, TurnDetail, TurnHead};
use pdp_store::{BusCycle, CycleKind};
use pdp_word::write_octal6;

/// The first address of a register (bytes); those below it are of core.
const FIRST_REGISTER: u32 = 0o760000;

/// Writes how many lines follow, whether turns were left, and a line for each detail.
pub fn send_accesses<W: Drain>(
    details: &FoundList<TurnDetail>,
    more: bool,
    writer: &mut W,
) -> Result<(), Failed>
    ensures { Sends (accesses_text details.now more) (W.output writer.old)
        (W.output writer.new) result }
{
    let count = details.len();
    send(writer, accesses_head(count, more).as_slice())?;
    for index in 0..count {
        send_detail(details, index, writer)?;
    }
    Ok(())
}

/// How many lines follow, and whether turns were left.
fn accesses_head(count: usize, more: bool) -> Text
    ensures { result.items ≡ accesses_head count more }
{
    listed_head("accesses", count, more)
}

/// Writes the line of the detail of this index, if there is one.
fn send_detail<W: Drain>(
    details: &FoundList<TurnDetail>,
    index: usize,
    writer: &mut W,
) -> Result<(), Failed>
    ensures { Sends (line_at detail_line details.now index)
        (W.output writer.old) (W.output writer.new) result }
{
    let text = match details.item(index) {
        Some(detail) => detail_text(detail),
        None => Text::new(),
    };
    send(writer, text.as_slice())
}

/// A detail of a turn.
fn detail_text(detail: TurnDetail) -> Text
    ensures { result.items ≡ detail_line detail }
{
    match detail {
        TurnDetail::Head(head) => head_text(head),
        TurnDetail::Event(event) => happening_text(event),
        TurnDetail::Output(kind, byte) => output_text(kind, byte),
        TurnDetail::Completion(disk) => completion_text(disk),
        TurnDetail::Cycle(cycle) => cycle_text(cycle),
    }
}

/// A turn, the mode and PC before it, and its act.
#[tactic(auto, unfolding(crate::specs::Accesses::head_line))]
fn head_text(head: TurnHead) -> Text
    ensures { result.items ≡ head_line head }
{
    let mut text = Text::new();
    let mut buffer = Buffer::new();
    add(&mut text, buffer.format(head.turn).as_bytes());
    add(&mut text, b" ");
    add(&mut text, mode_name(head.mode).as_bytes());
    add_word(&mut text, head.pc);
    add(&mut text, b" ");
    add_act(&mut text, head.act);
    add(&mut text, b"\n");
    text
}

fn mode_name(mode: Mode) -> &'static str
    ensures name { result.now ≡ mode_name mode }
    ensures length { length result.now ≤ 6 }
{
    match mode {
        Mode::Kernel => "kernel",
        Mode::Bad1 => "01",
        Mode::Bad2 => "10",
        Mode::User => "user",
    }
}

/// An event, as in the line that makes it.
fn happening_text(event: Event) -> Text
    ensures { result.items ≡ detail_line (detail.Event event) }
{
    let mut text = Text::new();
    add(&mut text, b"event ");
    add_event(&mut text, event);
    add(&mut text, b"\n");
    text
}

/// A byte that came out.
#[tactic(auto, unfolding(crate::specs::Accesses::output_line))]
fn output_text(kind: TextKind, byte: u8) -> Text
    ensures { result.items ≡ output_line kind byte }
{
    let mut text = Text::new();
    add(&mut text, output_name(kind).as_bytes());
    add(&mut text, &octal3(u16::from(byte)));
    add(&mut text, b"\n");
    text
}

fn output_name(kind: TextKind) -> &'static str
    ensures name { result.now ≡ output_name kind }
    ensures length { length result.now ≤ 8 }
{
    match kind {
        TextKind::Printed => "printed ",
        TextKind::Punched => "punched ",
    }
}

/// A function of the disk that was completed.
#[tactic(auto, unfolding(crate::specs::Accesses::completion_line))]
fn completion_text(disk: DiskTurn) -> Text
    ensures { result.items ≡ completion_line disk }
{
    let mut text = Text::new();
    add(&mut text, b"disk ");
    add_asked(&mut text, disk.before);
    add_done(&mut text, disk.before, disk.after);
    text
}

/// A cycle of the processor on the bus.
#[tactic(auto, unfolding(crate::specs::Accesses::cycle_line))]
fn cycle_text(cycle: BusCycle) -> Text
    ensures { result.items ≡ cycle_line cycle }
{
    let mut text = Text::new();
    add(&mut text, kind_name(cycle.kind).as_bytes());
    add(&mut text, place_text(cycle.address, cycle.value).as_bytes());
    add(&mut text, b" ");
    add(&mut text, &write_octal6(cycle.address));
    add_value(&mut text, cycle.value);
    add(&mut text, b"\n");
    text
}

/// What the processor asked for.
fn kind_name(kind: CycleKind) -> &'static str
    ensures name { result.now ≡ kind_name kind }
    ensures length { length result.now ≤ 5 }
{
    match kind {
        CycleKind::Read => "read",
        CycleKind::Write => "write",
        CycleKind::WriteByte => "byte",
    }
}

/// Whether it is core that has an address, if anything has it.
fn place_text(address: u32, value: Option<u16>) -> &'static str
    ensures place { result.now ≡ place_text address value }
    ensures length { length result.now ≤ 5 }
{
    match value {
        Some(_) if address < FIRST_REGISTER => " core",
        _ => "",
    }
}

/// Adds what was read or written, or that nothing has the address.
fn add_value(text: &mut Text, value: Option<u16>)
    requires { length text.old.items + 8 ≤ LONGEST_TEXT }
    ensures text { text.new.items ≡ text.old.items ++ cycle_value_text value }
    ensures length { length text.new.items ≤ length text.old.items + 8 }
{
    match value {
        Some(word) => add_word(text, word),
        None => add(text, b" timeout"),
    }
}
