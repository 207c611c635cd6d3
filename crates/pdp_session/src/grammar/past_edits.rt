//! The grammar of the edits that can also be asked about: an edit is one row of [`read_past_edit`]
//! and one form below it.

ghost use Rattle.std.specs.Prelude.{◌≡◌};
ghost use Rattle.pdp_session.specs.Grammar.PastEdits.{alter_form, at_form, core_form, disk_form};
ghost use Rattle.pdp_session.specs.Grammar.PastEdits.{drop_form, past_edit_with};
ghost use Rattle.pdp_session.specs.Grammar.Words.{words_of_line};

use super::arguments::{drive_first, one_word, read_event_number, read_turn, read_word, two_words};
use super::events::read_event;
use super::words::next_word;
use crate::version::Version;
use pdp_replay::{PastEdit, Patch, ScriptEdit};
use pdp_word::read_octal;

/// The edit of a name, with the words that follow it.
#[tactic(auto, unfolding(crate::specs::Grammar::PastEdits::past_edit_with))]
pub fn read_past_edit(version: Version, name: &[u8], arguments: &[u8]) -> Option<PastEdit>
    ensures { result ≡ past_edit_with version name.now (words_of_line arguments.now) }
{
    if name == b"core".as_slice() {
        Some(PastEdit::Word(read_core(arguments)?))
    } else if name == b"disk".as_slice() {
        Some(PastEdit::Word(read_disk(version, arguments)?))
    } else if name == b"at".as_slice() {
        Some(PastEdit::Script(read_at(arguments)?))
    } else if name == b"alter".as_slice() {
        Some(PastEdit::Script(read_alter(arguments)?))
    } else if name == b"drop".as_slice() {
        Some(PastEdit::Script(read_drop(arguments)?))
    } else {
        None
    }
}

/// `core A W`
fn read_core(arguments: &[u8]) -> Option<Patch>
    ensures { result ≡ core_form (words_of_line arguments.now) }
{
    let (address, word) = two_words(arguments)?;
    let address = read_octal(address)?;
    let word = read_word(word)?;
    Some(Patch::Core(address, word))
}

/// `disk I W`, in version 2 `disk D I W`
fn read_disk(version: Version, arguments: &[u8]) -> Option<Patch>
    ensures { result ≡ disk_form version (words_of_line arguments.now) }
{
    let (drive, others) = drive_first(version, arguments)?;
    let (number, word) = two_words(others)?;
    let number = read_octal(number)?;
    let word = read_word(word)?;
    Some(Patch::Disk(drive, number, word))
}

/// `at T event`
fn read_at(arguments: &[u8]) -> Option<ScriptEdit>
    ensures { result ≡ at_form (words_of_line arguments.now) }
{
    let (turn, event) = next_word(arguments)?;
    let turn = read_turn(turn)?;
    let event = read_event(event)?;
    Some(ScriptEdit::Insert { turn, event })
}

/// `alter E T event`
fn read_alter(arguments: &[u8]) -> Option<ScriptEdit>
    ensures { result ≡ alter_form (words_of_line arguments.now) }
{
    let (number, others) = next_word(arguments)?;
    let (turn, event) = next_word(others)?;
    let number = read_event_number(number)?;
    let turn = read_turn(turn)?;
    let event = read_event(event)?;
    Some(ScriptEdit::Alter {
        number,
        turn,
        event,
    })
}

/// `drop E`
fn read_drop(arguments: &[u8]) -> Option<ScriptEdit>
    ensures { result ≡ drop_form (words_of_line arguments.now) }
{
    let number = read_event_number(one_word(arguments)?)?;
    Some(ScriptEdit::Drop { number })
}
