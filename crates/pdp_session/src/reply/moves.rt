ghost use Rattle.std.specs.Prelude.{◌≡◌, ◌+◌, ◌≤◌, ◌++◌, length};
ghost use Rattle.pdp_session.specs.Reply.{line_at};
ghost use Rattle.pdp_session.specs.MoveLines.{act_line, buffer_name, cell_text, code_name};
ghost use Rattle.pdp_session.specs.MoveLines.{disk_line, drive_word_text, half_text};
ghost use Rattle.pdp_session.specs.MoveLines.{in_place_text, move_line, moves_text};
ghost use Rattle.pdp_session.specs.MoveLines.{numbered_line, reader_line, name_of_place};
ghost use Rattle.pdp_session.specs.MoveLines.{tape_end_text};
ghost use Rattle.pdp_session.specs.Inside.Sends.{Sends};

use super::texts::{LONGEST_TEXT, Text, add, add_address, add_octal7, count_text};
use super::transfers::function_name;
use crate::search::FoundList;
use crate::streams::{Drain, Failed, send};
use itoa::Buffer;
use pdp_moves::{BufferName, CellName, CodeName, HalfName};
use pdp_replay::MoveDetail;
use pdp_rk11::DiskMoves;
use pdp_turn_moves::{ActMove, TapeRead};

/// Writes how many lines follow, and a line for each move.
pub fn send_moves<W: Drain>(details: &FoundList<MoveDetail>, writer: &mut W) -> Result<(), Failed>
    ensures { Sends (moves_text details.now) (W.output writer.old) (W.output writer.new) result }
{
    let count = details.len();
    send(writer, count_text("moves", count).as_slice())?;
    for index in 0..count {
        send_move(details, index, writer)?;
    }
    Ok(())
}

/// Writes the line of the move of this index, if there is one.
fn send_move<W: Drain>(
    details: &FoundList<MoveDetail>,
    index: usize,
    writer: &mut W,
) -> Result<(), Failed>
    ensures { Sends (line_at move_line details.now index)
        (W.output writer.old) (W.output writer.new) result }
{
    let text = match details.item(index) {
        Some(detail) => move_text(detail),
        None => Text::new(),
    };
    send(writer, text.as_slice())
}

/// A move as a line.
fn move_text(detail: MoveDetail) -> Text
    ensures { result.items ≡ move_line detail }
{
    match detail {
        MoveDetail::Turn(turn) => numbered_text("turn ", turn as usize),
        MoveDetail::Key(number) => numbered_text("TKB of event ", number),
        MoveDetail::Switches(number) => numbered_text("switches of event ", number),
        MoveDetail::Reader(reader) => reader_text(reader),
        MoveDetail::Disk(moves) => disk_text(moves),
        MoveDetail::Act(made) => made_text(made),
    }
}

/// A number in decimal, which ends a line.
fn numbered_text(name: &str, number: usize) -> Text
    requires { length name.now ≤ 18 }
    ensures { result.items ≡ numbered_line name.now number }
{
    let mut text = Text::new();
    let mut buffer = Buffer::new();
    add(&mut text, name.as_bytes());
    add(&mut text, buffer.format(number).as_bytes());
    add(&mut text, b"\n");
    text
}

/// What the reader made of a byte of the tape.
#[tactic(auto, unfolding(crate::specs::MoveLines::reader_line))]
fn reader_text(reader: TapeRead) -> Text
    ensures { result.items ≡ reader_line reader }
{
    let mut text = Text::new();
    let mut buffer = Buffer::new();
    add(&mut text, b"PRB of tape ");
    add(&mut text, buffer.format(reader.number).as_bytes());
    add(&mut text, tape_end(reader.at_end).as_bytes());
    text
}

/// The end of a line of the reader: PRB stays if the tape has ended.
fn tape_end(at_end: bool) -> &'static str
    ensures text { result.now ≡ tape_end_text at_end }
    ensures length { length result.now ≤ 5 }
{
    if at_end { " PRB\n" } else { "\n" }
}

/// What the disk moved.
#[tactic(auto, unfolding(crate::specs::MoveLines::disk_line))]
fn disk_text(moves: DiskMoves) -> Text
    ensures { result.items ≡ disk_line moves }
{
    let mut text = Text::new();
    let mut buffer = Buffer::new();
    add(&mut text, b"disk ");
    add(&mut text, function_name(moves.function).as_bytes());
    add(&mut text, b" ");
    add(&mut text, buffer.format(moves.drive).as_bytes());
    add(&mut text, b" ");
    add_octal7(&mut text, moves.transfer.disk_start);
    add(&mut text, b" ");
    add_address(&mut text, moves.transfer.core_start);
    add(&mut text, b" ");
    add(&mut text, buffer.format(moves.transfer.count).as_bytes());
    add(&mut text, in_place(moves.transfer.no_increment).as_bytes());
    text
}

/// The end of a line of the disk: whether the bus address isn't incremented.
fn in_place(no_increment: bool) -> &'static str
    ensures text { result.now ≡ in_place_text no_increment }
    ensures length { length result.now ≤ 10 }
{
    if no_increment { " in place\n" } else { "\n" }
}

/// A cell after an act, and one before it that it is made of, or that it is made of nothing.
#[tactic(auto, unfolding(crate::specs::MoveLines::act_line))]
fn made_text(made: ActMove) -> Text
    ensures { result.items ≡ act_line made }
{
    let mut text = Text::new();
    match made {
        ActMove::Of(cell, source) => {
            add_cell(&mut text, cell);
            add(&mut text, b" of ");
            add_cell(&mut text, source);
            add(&mut text, b"\n");
        }
        ActMove::OfNothing(cell) => {
            add_cell(&mut text, cell);
            add(&mut text, b" of nothing\n");
        }
    }
    text
}

/// Adds a cell by its name.
#[tactic(auto, unfolding(crate::specs::MoveLines::cell_text))]
fn add_cell(text: &mut Text, cell: CellName)
    requires { length text.old.items + 25 ≤ LONGEST_TEXT }
    ensures text { text.new.items ≡ text.old.items ++ cell_text cell }
    ensures length { length text.new.items ≤ length text.old.items + 25 }
{
    match cell {
        CellName::CoreByte { word, half } => {
            add(text, b"core ");
            add_address(text, word);
            add(text, half_text(half).as_bytes());
        }
        CellName::DriveByte { drive, word, half } => {
            add_drive_word(text, drive, word);
            add(text, half_text(half).as_bytes());
        }
        CellName::RegisterByte { place, half } => {
            add_register_name(text, place);
            add(text, half_text(half).as_bytes());
        }
        CellName::CodeNow(code) => add_named(text, "code ", code_name(code)),
        CellName::Buffer(buffer) => add(text, buffer_name(buffer).as_bytes()),
        CellName::TapeByte(number) => {
            let mut buffer = Buffer::new();
            add(text, b"tape ");
            add(text, buffer.format(number).as_bytes());
        }
        CellName::ValueByte(half) => add_named(text, "value", half_text(half)),
        CellName::SourceByte(half) => add_named(text, "source", half_text(half)),
        CellName::ResultByte(half) => add_named(text, "result", half_text(half)),
        CellName::StatusByte(half) => add_named(text, "status", half_text(half)),
        CellName::CodeDue(code) => add_named(text, "due ", code_name(code)),
        CellName::CodeSaved(code) => add_named(text, "saved ", code_name(code)),
    }
}

/// Adds two texts.
fn add_named(text: &mut Text, name: &str, which: &str)
    requires { length text.old.items + length name.now + length which.now ≤ LONGEST_TEXT }
    ensures text { text.new.items ≡ text.old.items ++ (name.now ++ which.now) }
    ensures length { length text.new.items
        ≡ length text.old.items + length name.now + length which.now }
{
    add(text, name.as_bytes());
    add(text, which.as_bytes());
}

/// Adds a word of a drive: the drive, and the number of the word.
fn add_drive_word(text: &mut Text, drive: u32, word: u32)
    requires { length text.old.items + 23 ≤ LONGEST_TEXT }
    ensures text { text.new.items ≡ text.old.items ++ drive_word_text drive word }
    ensures length { length text.new.items ≤ length text.old.items + 23 }
{
    let mut buffer = Buffer::new();
    add(text, b"disk ");
    add(text, buffer.format(drive).as_bytes());
    add(text, b" ");
    add_octal7(text, word);
}

/// Adds a register by its place.
fn add_register_name(text: &mut Text, place: u8)
    requires { length text.old.items + 4 ≤ LONGEST_TEXT }
    ensures text { text.new.items ≡ text.old.items ++ name_of_place place }
    ensures length { length text.new.items ≤ length text.old.items + 4 }
{
    if place == 6 {
        add(text, b"KSP");
    } else if place == 7 {
        add(text, b"USP");
    } else {
        let mut buffer = Buffer::new();
        add(text, b"R");
        add(text, buffer.format(place).as_bytes());
    }
}

/// A half of a word, after the word.
fn half_text(half: HalfName) -> &'static str
    ensures text { result.now ≡ half_text half }
    ensures length { length result.now ≡ 2 }
{
    match half {
        HalfName::Low => ".0",
        HalfName::High => ".1",
    }
}

/// A condition code by its letter.
fn code_name(code: CodeName) -> &'static str
    ensures name { result.now ≡ code_name code }
    ensures length { length result.now ≡ 1 }
{
    match code {
        CodeName::Negative => "N",
        CodeName::Zero => "Z",
        CodeName::Overflow => "V",
        CodeName::Carry => "C",
    }
}

/// What a device holds, by the name of its register.
fn buffer_name(buffer: BufferName) -> &'static str
    ensures name { result.now ≡ buffer_name buffer }
    ensures length { length result.now ≤ 8 }
{
    match buffer {
        BufferName::Keyboard => "TKB",
        BufferName::Printer => "TPB",
        BufferName::Reader => "PRB",
        BufferName::Punch => "PPB",
        BufferName::Switches => "switches",
    }
}
