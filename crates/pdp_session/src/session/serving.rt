ghost use Rattle.std.specs.Prelude.{◌∷◌, [], Ok};
ghost use Rattle.pdp_session.specs.History.{pasts};
ghost use Rattle.pdp_session.specs.Inside.Progress.{Serves, ServesMeant, Takes, TakesEnd};
ghost use Rattle.pdp_session.specs.Language.{Language, language_with};

use crate::command::Command;
use crate::grammar::{LineMeaning, read_line};
use crate::history::{History, Step};
use crate::lines::{Held, hold, without_return};
use crate::reply::{Reply, send_found, send_reply};
use crate::search::Search;
use crate::streams::{Drain, Failed};
use crate::version::Version;
use std::alloc::Global;

/// Answers one line, which comes without what ended it, and writes its reply. SEARCHES is whether
/// its language has searches.
fn serve_line<const SEARCHES: bool, W: Drain>(
    alloc: Global,
    history: &mut History,
    line: &[u8],
    writer: &mut W,
) -> Result<(), Failed>
    ensures { Serves (language_with SEARCHES) line.now (pasts history.old) (pasts history.new)
        (W.output writer.old) (W.output writer.new) result }
{
    match read_line::<SEARCHES>(Version::of(history.engine()), line) {
        Ok(LineMeaning::Nothing) => send_reply(history.engine(), Reply::Nothing, writer),
        Ok(LineMeaning::Command(command)) => {
            serve_command::<SEARCHES, W>(alloc, history, command, writer)
        }
        Ok(LineMeaning::Search(search)) => serve_search(alloc, history, search, writer),
        Ok(LineMeaning::Step(step)) => serve_step(alloc, history, step, writer),
        Err(fault) => send_reply(history.engine(), Reply::Refused(fault), writer),
    }
}

/// Runs a command, and writes its reply.
fn serve_command<const SEARCHES: bool, W: Drain>(
    alloc: Global,
    history: &mut History,
    command: Command,
    writer: &mut W,
) -> Result<(), Failed>
    ensures { ServesMeant (language_with SEARCHES) (Ok (LineMeaning.Command command))
        (pasts history.old) (pasts history.new) (W.output writer.old) (W.output writer.new)
        result }
{
    let reply = history.run::<SEARCHES>(alloc, command);
    send_reply(history.engine(), reply, writer)
}

/// Makes a search, and writes what it finds.
fn serve_search<W: Drain>(
    alloc: Global,
    history: &mut History,
    search: Search,
    writer: &mut W,
) -> Result<(), Failed>
    ensures { (language : Language) → ServesMeant language (Ok (LineMeaning.Search search))
        (pasts history.old) (pasts history.new) (W.output writer.old) (W.output writer.new)
        result }
{
    let found = history.find(alloc, search);
    send_found(&found, writer)
}

/// Takes an edit back, or makes one again, and writes the reply.
fn serve_step<W: Drain>(
    alloc: Global,
    history: &mut History,
    step: Step,
    writer: &mut W,
) -> Result<(), Failed>
    ensures { (language : Language) → ServesMeant language (Ok (LineMeaning.Step step))
        (pasts history.old) (pasts history.new) (W.output writer.old) (W.output writer.new)
        result }
{
    let reply = history.step(alloc, step);
    send_reply(history.engine(), reply, writer)
}

/// Takes one byte of input: an LF ends the line, and any other byte is held.
fn take_byte<const SEARCHES: bool, W: Drain>(
    alloc: Global,
    history: &mut History,
    held: &mut Held,
    byte: u8,
    writer: &mut W,
) -> Result<(), Failed>
    ensures { Takes (language_with SEARCHES) (byte ∷ []) held.old.items held.new.items
        (pasts history.old) (pasts history.new) (W.output writer.old) (W.output writer.new) result }
{
    if byte != b'\n' {
        hold(held, byte);
        return Ok(());
    }
    let line = without_return(held.as_slice());
    let sent = serve_line::<SEARCHES, W>(alloc, history, line, writer);
    held.clear();
    sent
}

/// Takes some bytes of input, and answers each line that ends among them.
pub fn take_bytes<const SEARCHES: bool, W: Drain>(
    alloc: Global,
    history: &mut History,
    held: &mut Held,
    bytes: &[u8],
    writer: &mut W,
) -> Result<(), Failed>
    ensures { Takes (language_with SEARCHES) bytes.now held.old.items held.new.items
        (pasts history.old) (pasts history.new) (W.output writer.old) (W.output writer.new) result }
{
    for byte in bytes {
        take_byte::<SEARCHES, W>(alloc, history, held, *byte, writer)?;
    }
    Ok(())
}

/// Answers the line that the end of the input left open, if it has a byte.
pub fn serve_last_line<const SEARCHES: bool, W: Drain>(
    alloc: Global,
    history: &mut History,
    held: &Held,
    writer: &mut W,
) -> Result<(), Failed>
    ensures { TakesEnd (language_with SEARCHES) held.now.items (pasts history.old)
        (W.output writer.old) (W.output writer.new) result }
{
    if held.is_empty() {
        return Ok(());
    }
    serve_line::<SEARCHES, W>(alloc, history, held.as_slice(), writer)
}
