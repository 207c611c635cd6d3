ghost use Rattle.std.specs.Prelude.{◌≡◌};
ghost use Rattle.pdp_session.specs.Reply.{text_of, value_text, patches_text, kept_patch_line};
ghost use Rattle.pdp_session.specs.Reply.{is_refused, line_at, words_line};
ghost use Rattle.pdp_session.specs.Inside.Sends.{Sends};
ghost use Rattle.pdp_session.specs.Version.{version_of};

mod accesses;
mod bytes;
mod counts;
mod findings;
mod history;
mod moves;
mod past_shown;
mod reads;
mod states;
mod texts;
mod transfers;

use crate::streams::{Drain, Failed, send};
use crate::version::Version;
use bytes::send_bytes;
pub use findings::send_found;
use history::{last_text, send_trail};
use pdp_replay::{Engine, Fault, Value};
use states::{FoundWhere, send_found_words, send_virtual, translation_text};
use texts::{
    Text, count_text, devices_text, done_text, insertion_text, no_such_edit_text, pages_text,
    patch_text, refusal_text, regs_text, word_text,
};

/// What a line is answered.
#[derive(Drop)]
pub enum Reply {
    Nothing,
    Done,
    Inserted(u32),
    Shown(Value),
    // The patches of the past as it is then.
    Listed,
    // There is no edit to take back, or to make again.
    NoSuchEdit,
    Refused(Fault),
}

/// Whether a line was refused that can be refused as a fault alone.
pub fn is_refused(reply: &Reply) -> bool
    ensures { result ≡ is_refused reply.now }
{
    match reply {
        Reply::Refused(_) => true,
        _ => false,
    }
}

/// Writes a reply: nothing, or lines that each end in LF.
#[tactic(auto, unfolding(crate::specs::Reply::text_of))]
pub fn send_reply<W: Drain>(engine: &Engine, reply: Reply, writer: &mut W) -> Result<(), Failed>
    ensures { Sends (text_of reply engine.now.past)
        (W.output writer.old) (W.output writer.new) result }
{
    let text = match reply {
        Reply::Nothing => Text::new(),
        Reply::Done => done_text(),
        Reply::Inserted(number) => insertion_text(number),
        Reply::Shown(value) => return send_value(&value, writer),
        Reply::Listed => return send_patches(engine, writer),
        Reply::NoSuchEdit => no_such_edit_text(),
        Reply::Refused(fault) => refusal_text(fault),
    };
    send(writer, text.as_slice())
}

/// Writes the answer to a question: one row for each kind of question.
fn send_value<W: Drain>(value: &Value, writer: &mut W) -> Result<(), Failed>
    ensures { Sends (value_text value.now) (W.output writer.old) (W.output writer.new) result }
{
    match value {
        Value::Regs(regs) => send(writer, regs_text(*regs).as_slice()),
        Value::Core(words) => send_words("mem", words.items(), writer),
        Value::Disk(words) => send_words("dsk", words.items(), writer),
        Value::Text(bytes) => send_bytes("text", bytes.items(), writer),
        Value::Punched(bytes) => send_bytes("punched", bytes.items(), writer),
        Value::Devices(devices) => send(writer, devices_text(*devices).as_slice()),
        Value::Pages(pages) => send(writer, pages_text(*pages).as_slice()),
        Value::Last(last) => send(writer, last_text(*last).as_slice()),
        Value::Trail(trail) => send_trail(trail, writer),
        Value::Translation(translated) => send(writer, translation_text(*translated).as_slice()),
        Value::Virtual(words) => send_virtual(words, writer),
        Value::FoundCore(found) => send_found_words(FoundWhere::InCore, found, writer),
        Value::FoundDisk(found) => send_found_words(FoundWhere::OnDrive, found, writer),
    }
}

/// Writes how many patches there are, and a line for each.
fn send_patches<W: Drain>(engine: &Engine, writer: &mut W) -> Result<(), Failed>
    ensures { Sends (patches_text engine.now.past)
        (W.output writer.old) (W.output writer.new) result }
{
    let count = engine.patch_count();
    send(writer, count_text("patches", count).as_slice())?;
    for index in 0..count {
        send_patch(engine, index, writer)?;
    }
    Ok(())
}

/// Writes the line of the patch of this index, if there is one.
fn send_patch<W: Drain>(engine: &Engine, index: usize, writer: &mut W) -> Result<(), Failed>
    ensures { Sends (line_at (kept_patch_line (version_of engine.now.past))
        engine.now.past.setup.patches index)
        (W.output writer.old) (W.output writer.new) result }
{
    let text = match engine.patch(index) {
        Some(patch) => patch_text(Version::of(engine), patch),
        None => Text::new(),
    };
    send(writer, text.as_slice())
}

/// Writes words, in one line after a name.
fn send_words<W: Drain>(name: &str, words: &[u16], writer: &mut W) -> Result<(), Failed>
    ensures { Sends (words_line name.now words.now)
        (W.output writer.old) (W.output writer.new) result }
{
    send(writer, name.as_bytes())?;
    for word in words {
        send(writer, word_text(*word).as_slice())?;
    }
    send(writer, b"\n")
}
