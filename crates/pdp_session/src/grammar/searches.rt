//! The grammar of the lines that the search language alone has: a search is one row of
//! [`read_named`] and one form below it, a question that the search language alone has one row of
//! `read_state_question` and one form below that, and `undo` and `redo` a row of [`read_step`] each.

ghost use Rattle.std.specs.Prelude.{◌≡◌, Err};
ghost use Rattle.pdp_session.specs.Grammar.{line_means};
ghost use Rattle.pdp_session.specs.Grammar.Searches.{accesses_form, alone, change_form};
ghost use Rattle.pdp_session.specs.Grammar.Searches.{fades_form, first_form};
ghost use Rattle.pdp_session.specs.Grammar.Searches.{latest_form, moves_form, part_named};
ghost use Rattle.pdp_session.specs.Grammar.Searches.{plainly_sought, reads_form};
ghost use Rattle.pdp_session.specs.Grammar.Searches.{search_named, search_with};
ghost use Rattle.pdp_session.specs.Grammar.Searches.{sought_in_any_mode, sought_in_mode};
ghost use Rattle.pdp_session.specs.Grammar.Searches.{sought_named, step_with, text_from_form};
ghost use Rattle.pdp_session.specs.Grammar.Searches.{transfers_form};
ghost use Rattle.pdp_session.specs.Grammar.Searches.{when_form, writes_form};
ghost use Rattle.pdp_session.specs.Grammar.Words.{words_of_line};
ghost use Rattle.pdp_session.specs.Language.{language_with, search_of};

use super::LineMeaning;
use super::arguments::{
    drive_first, one_word, read_count, read_mode, read_turn, read_word, turns_first, two_words,
};
use super::conditions::read_conditions;
use super::counts::read_counts;
use super::past_edits::read_past_edit;
use super::state_questions::read_state_question;
use super::words::next_word;
use crate::history::Step;
use crate::search::Search;
use crate::version::Version;
use pdp_replay::{Fault, Sought, TextKind};
use pdp_word::read_octal;

/// The search or the step that a line is which is no line of the session language, less what ended
/// it, in this version, if its language has searches.
#[tactic(auto, unfolding(crate::specs::Language::search_of))]
pub fn read_search<const SEARCHES: bool>(version: Version, line: &[u8]) -> Option<LineMeaning>
    requires { line_means version line.now ≡ Err Fault.BadLine }
    ensures { result ≡ search_of (language_with SEARCHES) version line.now }
{
    if SEARCHES {
        read_words(version, line)
    } else {
        None
    }
}

/// The search or the step that the words of a text are.
fn read_words(version: Version, text: &[u8]) -> Option<LineMeaning>
    ensures { result ≡ search_named version (words_of_line text.now) }
{
    let (name, arguments) = next_word(text)?;
    if let Some(step) = read_step(name, arguments) {
        Some(LineMeaning::Step(step))
    } else {
        let search = read_named(version, name, arguments)?;
        Some(LineMeaning::Search(search))
    }
}

/// `undo` or `redo`, without arguments.
#[tactic(auto, unfolding(crate::specs::Grammar::Searches::step_with))]
fn read_step(name: &[u8], arguments: &[u8]) -> Option<Step>
    ensures { result ≡ step_with name.now (words_of_line arguments.now) }
{
    if next_word(arguments).is_some() {
        return None;
    }
    if name == b"undo".as_slice() {
        Some(Step::Undo)
    } else if name == b"redo".as_slice() {
        Some(Step::Redo)
    } else {
        None
    }
}

/// The search of a name, with the words that follow it.
#[tactic(auto, unfolding(crate::specs::Grammar::Searches::search_with))]
fn read_named(version: Version, name: &[u8], arguments: &[u8]) -> Option<Search>
    ensures { result ≡ search_with version name.now (words_of_line arguments.now) }
{
    if name == b"first".as_slice() {
        read_first(arguments)
    } else if name == b"latest".as_slice() {
        read_latest(arguments)
    } else if name == b"writes".as_slice() {
        read_writes(arguments)
    } else if name == b"reads".as_slice() {
        read_reads(arguments)
    } else if name == b"accesses".as_slice() {
        read_accesses(arguments)
    } else if name == b"moves".as_slice() {
        read_moves(arguments)
    } else if name == b"transfers".as_slice() {
        read_transfers(arguments)
    } else if name == b"change".as_slice() {
        read_change(version, arguments)
    } else if name == b"text".as_slice() {
        read_text_from(TextKind::Printed, arguments)
    } else if name == b"punched".as_slice() {
        read_text_from(TextKind::Punched, arguments)
    } else if name == b"when".as_slice() {
        read_when(arguments)
    } else if name == b"fades".as_slice() {
        read_fades(version, arguments)
    } else if name == b"counts".as_slice() {
        read_counts(arguments)
    } else if name == b"events".as_slice() {
        read_alone(Search::Events, arguments)
    } else if name == b"setup".as_slice() {
        read_alone(Search::Setup, arguments)
    } else {
        let question = read_state_question(version, name, arguments)?;
        Some(Search::Ask(question))
    }
}

/// `events` or `setup`, without arguments.
fn read_alone(search: Search, arguments: &[u8]) -> Option<Search>
    ensures { result ≡ alone search (words_of_line arguments.now) }
{
    if next_word(arguments).is_some() {
        return None;
    }
    Some(search)
}

/// `first N M at A`, also `first N M at A kernel`, `first N M at A user`, `first N M vector V`,
/// `first N M trap V` and `first N M where C`
fn read_first(arguments: &[u8]) -> Option<Search>
    ensures { result ≡ first_form (words_of_line arguments.now) }
{
    let (from, to, what) = turns_first(arguments)?;
    let sought = read_sought(what)?;
    Some(Search::First { from, to, sought })
}

/// `latest N M at A` and so on
fn read_latest(arguments: &[u8]) -> Option<Search>
    ensures { result ≡ latest_form (words_of_line arguments.now) }
{
    let (from, to, what) = turns_first(arguments)?;
    let sought = read_sought(what)?;
    Some(Search::Latest { from, to, sought })
}

/// What a search looks for; `where C` and so on are conditions.
#[tactic(auto, unfolding(crate::specs::Grammar::Searches::sought_named))]
fn read_sought(text: &[u8]) -> Option<Sought>
    ensures { result ≡ sought_named (words_of_line text.now) }
{
    let (word, others) = next_word(text)?;
    if word == b"where".as_slice() {
        let conditions = read_conditions(others)?;
        return Some(Sought::Where { conditions });
    }
    read_plainly_sought(word, others)
}

/// `at A` and so on.
fn read_plainly_sought(word: &[u8], text: &[u8]) -> Option<Sought>
    ensures { result ≡ plainly_sought word.now (words_of_line text.now) }
{
    let (number, rest) = next_word(text)?;
    match next_word(rest) {
        None => sought_in_any_mode(word, number),
        Some((mode, rest)) => {
            if next_word(rest).is_some() {
                return None;
            }
            sought_in_mode(word, number, mode)
        }
    }
}

/// `at A`, `vector V` or `trap V`
#[tactic(auto, unfolding(crate::specs::Grammar::Searches::sought_in_any_mode))]
fn sought_in_any_mode(word: &[u8], number: &[u8]) -> Option<Sought>
    ensures { result ≡ sought_in_any_mode word.now number.now }
{
    if word == b"at".as_slice() {
        let address = read_word(number)?;
        Some(Sought::Instruction {
            address,
            mode: None,
        })
    } else if word == b"vector".as_slice() {
        let vector = read_word(number)?;
        Some(Sought::Interrupt { vector })
    } else if word == b"trap".as_slice() {
        let vector = read_word(number)?;
        Some(Sought::Trap { vector })
    } else {
        None
    }
}

/// `at A kernel` or `at A user`
#[tactic(auto, unfolding(crate::specs::Grammar::Searches::sought_in_mode))]
fn sought_in_mode(word: &[u8], number: &[u8], name: &[u8]) -> Option<Sought>
    ensures { result ≡ sought_in_mode word.now number.now name.now }
{
    if word != b"at".as_slice() {
        return None;
    }
    let address = read_word(number)?;
    let mode = read_mode(name)?;
    Some(Sought::Instruction {
        address,
        mode: Some(mode),
    })
}

/// `writes N M A`
fn read_writes(arguments: &[u8]) -> Option<Search>
    ensures { result ≡ writes_form (words_of_line arguments.now) }
{
    let (from, to, what) = turns_first(arguments)?;
    let address = read_octal(one_word(what)?)?;
    Some(Search::Writes { from, to, address })
}

/// `reads N M A`
fn read_reads(arguments: &[u8]) -> Option<Search>
    ensures { result ≡ reads_form (words_of_line arguments.now) }
{
    let (from, to, what) = turns_first(arguments)?;
    let address = read_octal(one_word(what)?)?;
    Some(Search::Reads { from, to, address })
}

/// `accesses N C`
fn read_accesses(arguments: &[u8]) -> Option<Search>
    ensures { result ≡ accesses_form (words_of_line arguments.now) }
{
    let (turn, turns) = two_words(arguments)?;
    let turn = read_turn(turn)?;
    let count = read_count(turns)?;
    Some(Search::Accesses { turn, count })
}

/// `moves N C`
fn read_moves(arguments: &[u8]) -> Option<Search>
    ensures { result ≡ moves_form (words_of_line arguments.now) }
{
    let (turn, turns) = two_words(arguments)?;
    let turn = read_turn(turn)?;
    let count = read_count(turns)?;
    Some(Search::Moves { turn, count })
}

/// `transfers N M`
fn read_transfers(arguments: &[u8]) -> Option<Search>
    ensures { result ≡ transfers_form (words_of_line arguments.now) }
{
    let (from, to) = two_words(arguments)?;
    let from = read_turn(from)?;
    let to = read_turn(to)?;
    Some(Search::Transfers { from, to })
}

/// `change N M I`, in version 2 `change N M D I`
fn read_change(version: Version, arguments: &[u8]) -> Option<Search>
    ensures { result ≡ change_form version (words_of_line arguments.now) }
{
    let (from, to, what) = turns_first(arguments)?;
    let (drive, others) = drive_first(version, what)?;
    let number = read_octal(one_word(others)?)?;
    Some(Search::Change {
        from,
        to,
        drive,
        number,
    })
}

/// `N from F`
fn read_part(text: &[u8]) -> Option<(u32, u32)>
    ensures { result ≡ part_named (words_of_line text.now) }
{
    let (turn, others) = next_word(text)?;
    let (word, number) = two_words(others)?;
    let turn = read_turn(turn)?;
    let number = read_count(number)?;
    if word != b"from".as_slice() {
        return None;
    }
    Some((turn, number))
}

/// `text N from F` and `punched N from F`
fn read_text_from(kind: TextKind, arguments: &[u8]) -> Option<Search>
    ensures { result ≡ text_from_form kind (words_of_line arguments.now) }
{
    let (turn, first) = read_part(arguments)?;
    Some(Search::TextFrom { kind, turn, first })
}

/// `when F`
fn read_when(arguments: &[u8]) -> Option<Search>
    ensures { result ≡ when_form (words_of_line arguments.now) }
{
    let number = read_count(one_word(arguments)?)?;
    Some(Search::When { number })
}

/// `fades N EDIT`
fn read_fades(version: Version, arguments: &[u8]) -> Option<Search>
    ensures { result ≡ fades_form version (words_of_line arguments.now) }
{
    let (turn, words) = next_word(arguments)?;
    let (name, others) = next_word(words)?;
    let to = read_turn(turn)?;
    let edit = read_past_edit(version, name, others)?;
    Some(Search::Fades { to, edit })
}
