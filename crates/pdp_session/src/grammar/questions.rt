ghost use Rattle.std.specs.Prelude.{◌≡◌};
ghost use Rattle.pdp_session.specs.Grammar.Questions.{only_turn, range_named, mem_form, dsk_form};
ghost use Rattle.pdp_session.specs.Grammar.Questions.{last_form, trail_form, question_with};
ghost use Rattle.pdp_session.specs.Grammar.Words.{words_of_line};

use super::arguments::{drive_first, one_word, read_count, read_turn, two_words};
use super::words::next_word;
use crate::version::Version;
use pdp_replay::Question;
use pdp_word::read_octal;

/// The question of a name, with the words that follow it.
#[tactic(auto, unfolding(crate::specs::Grammar::Questions::question_with))]
pub fn read_question(version: Version, name: &[u8], arguments: &[u8]) -> Option<Question>
    ensures { result ≡ question_with version name.now (words_of_line arguments.now) }
{
    if name == b"regs".as_slice() {
        Some(Question::Regs(read_only_turn(arguments)?))
    } else if name == b"mem".as_slice() {
        read_mem(arguments)
    } else if name == b"dsk".as_slice() {
        read_dsk(version, arguments)
    } else if name == b"text".as_slice() {
        Some(Question::Text(read_only_turn(arguments)?))
    } else if name == b"punched".as_slice() {
        Some(Question::Punched(read_only_turn(arguments)?))
    } else if name == b"devices".as_slice() {
        Some(Question::Devices(read_only_turn(arguments)?))
    } else if name == b"pages".as_slice() {
        Some(Question::Pages(read_only_turn(arguments)?))
    } else if name == b"last".as_slice() {
        read_last(arguments)
    } else if name == b"trail".as_slice() {
        read_trail(arguments)
    } else {
        None
    }
}

/// A turn, and no other word.
fn read_only_turn(arguments: &[u8]) -> Option<u32>
    ensures { result ≡ only_turn (words_of_line arguments.now) }
{
    read_turn(one_word(arguments)?)
}

/// `mem N A C`
fn read_mem(arguments: &[u8]) -> Option<Question>
    ensures { result ≡ mem_form (words_of_line arguments.now) }
{
    let (turn, others) = next_word(arguments)?;
    let turn = read_turn(turn)?;
    let (address, count) = read_range(others)?;
    Some(Question::Core(turn, address, count))
}

/// `dsk N I C`, in version 2 `dsk N D I C`
fn read_dsk(version: Version, arguments: &[u8]) -> Option<Question>
    ensures { result ≡ dsk_form version (words_of_line arguments.now) }
{
    let (turn, others) = next_word(arguments)?;
    let turn = read_turn(turn)?;
    let (drive, range) = drive_first(version, others)?;
    let (number, count) = read_range(range)?;
    Some(Question::Disk(turn, drive, number, count))
}

/// The number of the first of some words, and how many.
fn read_range(arguments: &[u8]) -> Option<(u32, u32)>
    ensures { result ≡ range_named (words_of_line arguments.now) }
{
    let (first, count) = two_words(arguments)?;
    let first = read_octal(first)?;
    let count = read_count(count)?;
    Some((first, count))
}

/// `last N A`
fn read_last(arguments: &[u8]) -> Option<Question>
    ensures { result ≡ last_form (words_of_line arguments.now) }
{
    let (turn, address) = two_words(arguments)?;
    let turn = read_turn(turn)?;
    let address = read_octal(address)?;
    Some(Question::Last(turn, address))
}

/// `trail N C`
fn read_trail(arguments: &[u8]) -> Option<Question>
    ensures { result ≡ trail_form (words_of_line arguments.now) }
{
    let (turn, turns) = two_words(arguments)?;
    let turn = read_turn(turn)?;
    let turns = read_count(turns)?;
    Some(Question::Trail(turn, turns))
}
