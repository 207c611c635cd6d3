//! The grammar of the search that counts instructions.

ghost use Rattle.std.specs.Prelude.{◌≡◌};
ghost use Rattle.pdp_session.specs.Grammar.Counts.{counts_form, counted_words_named};
ghost use Rattle.pdp_session.specs.Grammar.Words.{words_of_line};

use super::arguments::{read_count, read_mode, read_word, turns_first, two_words};
use super::words::next_word;
use crate::search::Search;
use pdp_replay::CountedWords;

/// `counts N M kernel A C` and `counts N M user A C`
pub fn read_counts(arguments: &[u8]) -> Option<Search>
    ensures { result ≡ counts_form (words_of_line arguments.now) }
{
    let (from, to, what) = turns_first(arguments)?;
    let words = read_words(what)?;
    Some(Search::Counts { from, to, words })
}

/// `kernel A C` or `user A C`
fn read_words(text: &[u8]) -> Option<CountedWords>
    ensures { result ≡ counted_words_named (words_of_line text.now) }
{
    let (name, others) = next_word(text)?;
    let (address, number) = two_words(others)?;
    let mode = read_mode(name)?;
    let first = read_word(address)?;
    let count = read_count(number)?;
    Some(CountedWords { mode, first, count })
}
