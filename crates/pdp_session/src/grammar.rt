//! The grammar of the session language: what a line means. A command is one row of [`read_command`]
//! and one form below it; an edit that can also be asked about is one row of `read_past_edit` and
//! one form below that, and a question one row of `read_question` and one form below that.

ghost use Rattle.std.specs.Prelude.{◌≡◌, ◌≤◌, length};
ghost use Rattle.pdp_session.specs.Grammar.{uncore_form, tape_form, delay_form, version_form};
ghost use Rattle.pdp_session.specs.Grammar.{patches_form, command_with, line_means};
ghost use Rattle.pdp_session.specs.Lines.{longest_line};
ghost use Rattle.pdp_session.specs.Grammar.Words.{words_of_line};
ghost use Rattle.pdp_session.specs.Language.{language_with, line_read, search_of};

mod arguments;
mod conditions;
mod counts;
mod events;
mod past_edits;
mod questions;
mod searches;
mod state_questions;
mod words;

use crate::command::Command;
use crate::edit::Edit;
use crate::history::Step;
use crate::search::Search;
use crate::version::Version;
use arguments::{one_word, read_bytes, read_device_name, read_turn, two_words};
use past_edits::read_past_edit;
use pdp_replay::Fault;
use pdp_word::{read_decimal, read_octal};
use questions::read_question;
use searches::read_search;
use words::next_word;

/// The most bytes that a line may have.
pub const LONGEST_LINE: usize = 200;

/// What a line means.
#[derive(Drop)]
pub enum LineMeaning {
    // A comment, or a line without words.
    Nothing,
    Command(Command),
    // The search language alone has searches and steps.
    Search(Search),
    Step(Step),
}

/// A line, less what ended it, in this version; SEARCHES is whether its language has searches.
/// `LineTooLong` comes if the line has more than 200 bytes, and `BadLine` if it is not in the
/// grammar.
pub fn read_line<const SEARCHES: bool>(version: Version, line: &[u8]) -> Result<LineMeaning, Fault>
    ensures { result ≡ line_read (line_means version line.now)
        (search_of (language_with SEARCHES) version line.now) }
{
    match read_session_line(version, line) {
        Ok(None) => Ok(LineMeaning::Nothing),
        Ok(Some(command)) => Ok(LineMeaning::Command(command)),
        Err(fault) => {
            if fault != Fault::BadLine {
                return Err(fault);
            }
            read_search::<SEARCHES>(version, line).ok_or(fault)
        }
    }
}

/// A line of the session language as a command; `None` for a line without words and for a comment.
/// Err as that of `read_line`.
#[tactic(auto, unfolding(crate::specs::Grammar::line_means))]
fn read_session_line(version: Version, line: &[u8]) -> Result<Option<Command>, Fault>
    ensures { result ≡ line_means version line.now }
{
    if line.len() > LONGEST_LINE {
        return Err(Fault::LineTooLong);
    }
    if line.first() == Some(&b'#') {
        return Ok(None);
    }
    match next_word(line) {
        None => Ok(None),
        Some((name, arguments)) => {
            let command = read_command(version, name, arguments).ok_or(Fault::BadLine)?;
            Ok(Some(command))
        }
    }
}

/// The command of a name, with the words that follow it.
#[tactic(auto, unfolding(crate::specs::Grammar::command_with))]
fn read_command(version: Version, name: &[u8], arguments: &[u8]) -> Option<Command>
    requires { length arguments.now ≤ longest_line }
    ensures { result ≡ command_with version name.now (words_of_line arguments.now) }
{
    if name == b"uncore".as_slice() {
        read_uncore(arguments)
    } else if name == b"tape".as_slice() {
        read_tape(arguments)
    } else if name == b"delay".as_slice() {
        read_delay(arguments)
    } else if name == b"version".as_slice() {
        read_version(arguments)
    } else if name == b"patches".as_slice() {
        read_patches(arguments)
    } else if let Some(edit) = read_past_edit(version, name, arguments) {
        Some(Command::Edit(Edit::Past(edit)))
    } else {
        let question = read_question(version, name, arguments)?;
        Some(Command::Ask(question))
    }
}

/// `uncore A`
fn read_uncore(arguments: &[u8]) -> Option<Command>
    ensures { result ≡ uncore_form (words_of_line arguments.now) }
{
    let address = read_octal(one_word(arguments)?)?;
    Some(Command::Edit(Edit::RevertCore { address }))
}

/// `tape B B ..`
fn read_tape(arguments: &[u8]) -> Option<Command>
    requires { length arguments.now ≤ longest_line }
    ensures { result ≡ tape_form (words_of_line arguments.now) }
{
    let bytes = read_bytes(arguments)?;
    Some(Command::Edit(Edit::SetTape(bytes)))
}

/// `delay printer N`, also `reader`, `punch`, `disk` and `clock`
fn read_delay(arguments: &[u8]) -> Option<Command>
    ensures { result ≡ delay_form (words_of_line arguments.now) }
{
    let (name, delay) = two_words(arguments)?;
    let device = read_device_name(name)?;
    let delay = read_turn(delay)?;
    Some(Command::Edit(Edit::SetDelay { device, delay }))
}

/// `version 2`; there is no line that leads back to version 1
fn read_version(arguments: &[u8]) -> Option<Command>
    ensures { result ≡ version_form (words_of_line arguments.now) }
{
    match read_decimal(one_word(arguments)?)? {
        2 => Some(Command::UseEightDrives),
        _ => None,
    }
}

/// `patches`
fn read_patches(arguments: &[u8]) -> Option<Command>
    ensures { result ≡ patches_form (words_of_line arguments.now) }
{
    if next_word(arguments).is_some() {
        return None;
    }
    Some(Command::ListPatches)
}
