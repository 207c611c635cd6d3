//! The grammar of the questions that the search language alone has: a question is one row of
//! [`read_state_question`] and one form below it.

ghost use Rattle.std.specs.Prelude.{◌≡◌};
ghost use Rattle.pdp_session.specs.Grammar.StateQuestions.{find_form, finddsk_form, mask_by_name};
ghost use Rattle.pdp_session.specs.Grammar.StateQuestions.{mask_named, state_question_with};
ghost use Rattle.pdp_session.specs.Grammar.StateQuestions.{translate_form, virtual_form};
ghost use Rattle.pdp_session.specs.Grammar.StateQuestions.{wanted_named};
ghost use Rattle.pdp_session.specs.Grammar.Words.{words_of_line};

use super::arguments::{
    drive_first, one_word, read_count, read_mode, read_turn, read_word, two_words,
};
use super::words::next_word;
use crate::version::Version;
use pdp_replay::{Question, VirtualWords, WantedWords, WordPattern};
use pdp_word::read_octal;

/// A mask that has every bit of a word.
const ALL_BITS: u16 = 0o177777;

/// The question of a name, with the words that follow it.
#[tactic(auto, unfolding(crate::specs::Grammar::StateQuestions::state_question_with))]
pub fn read_state_question(version: Version, name: &[u8], arguments: &[u8]) -> Option<Question>
    ensures { result ≡ state_question_with version name.now (words_of_line arguments.now) }
{
    if name == b"translate".as_slice() {
        read_translate(arguments)
    } else if name == b"virtual".as_slice() {
        read_virtual(arguments)
    } else if name == b"find".as_slice() {
        read_find(arguments)
    } else if name == b"finddsk".as_slice() {
        read_finddsk(version, arguments)
    } else {
        None
    }
}

/// `translate N MODE A`
fn read_translate(arguments: &[u8]) -> Option<Question>
    ensures { result ≡ translate_form (words_of_line arguments.now) }
{
    let (turn, others) = next_word(arguments)?;
    let (name, address) = two_words(others)?;
    let turn = read_turn(turn)?;
    let mode = read_mode(name)?;
    let address = read_word(address)?;
    Some(Question::Translate {
        turn,
        mode,
        address,
    })
}

/// `virtual N MODE A C`
fn read_virtual(arguments: &[u8]) -> Option<Question>
    ensures { result ≡ virtual_form (words_of_line arguments.now) }
{
    let (turn, others) = next_word(arguments)?;
    let (name, range) = next_word(others)?;
    let (address, count) = two_words(range)?;
    let turn = read_turn(turn)?;
    let words = VirtualWords {
        mode: read_mode(name)?,
        address: read_word(address)?,
        count: read_count(count)?,
    };
    Some(Question::Virtual { turn, words })
}

/// `find N A B W` and `find N A B W mask W`
fn read_find(arguments: &[u8]) -> Option<Question>
    ensures { result ≡ find_form (words_of_line arguments.now) }
{
    let (turn, others) = next_word(arguments)?;
    let turn = read_turn(turn)?;
    let wanted = read_wanted(others)?;
    Some(Question::FindCore { turn, wanted })
}

/// `finddsk N I J W` and `finddsk N I J W mask W`, in version 2 `finddsk N D I J W` and so on
fn read_finddsk(version: Version, arguments: &[u8]) -> Option<Question>
    ensures { result ≡ finddsk_form version (words_of_line arguments.now) }
{
    let (turn, others) = next_word(arguments)?;
    let turn = read_turn(turn)?;
    let (drive, range) = drive_first(version, others)?;
    let wanted = read_wanted(range)?;
    Some(Question::FindDisk {
        turn,
        drive,
        wanted,
    })
}

/// The first and the last of the words that are looked at, and the pattern.
fn read_wanted(text: &[u8]) -> Option<WantedWords>
    ensures { result ≡ wanted_named (words_of_line text.now) }
{
    let (first, others) = next_word(text)?;
    let (last, others) = next_word(others)?;
    let (word, rest) = next_word(others)?;
    let first = read_octal(first)?;
    let last = read_octal(last)?;
    let pattern = WordPattern {
        word: read_word(word)?,
        mask: read_mask(rest)?,
    };
    Some(WantedWords {
        first,
        last,
        pattern,
    })
}

/// `mask W`, or nothing, if every bit counts.
fn read_mask(text: &[u8]) -> Option<u16>
    ensures { result ≡ mask_named (words_of_line text.now) }
{
    match next_word(text) {
        None => Some(ALL_BITS),
        Some((name, rest)) => {
            let mask = one_word(rest)?;
            mask_by_name(name, mask)
        }
    }
}

/// `mask W`
#[tactic(auto, unfolding(crate::specs::Grammar::StateQuestions::mask_by_name))]
fn mask_by_name(name: &[u8], mask: &[u8]) -> Option<u16>
    ensures { result ≡ mask_by_name name.now mask.now }
{
    if name != b"mask".as_slice() {
        return None;
    }
    read_word(mask)
}
