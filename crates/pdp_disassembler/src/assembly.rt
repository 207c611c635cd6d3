// The words of a text.
ghost use Rattle.std.specs.Prelude.{◌≡◌, ◌≢◌, ◌≤◌, ◌<◌, ℕ, List, ◌++◌, MatchOption, option_map};
ghost use Rattle.std.specs.Prelude.{take};
ghost use Rattle.pdp_decode.specs.Table.{instr_of_word};
ghost use Rattle.pdp_disassembler.specs.Assembly.{Assembles, IsAssembly, IsOfOther, base_word_at};
ghost use Rattle.pdp_disassembler.specs.Text.{instruction_text, operator_text};
ghost use Rattle.pdp_disassembler.specs.TextLaw.{AreThreeWords};

use crate::disassembly::disassemble;
use crate::operators::operator_of;
use crate::reading::read_words;
use arrayvec::ArrayVec;
use pdp_decode::decode;

/// The words of an instruction, 1 to 3. They take no memory.
pub type InstructionWords = ArrayVec<u16, 3>;

/// How many words are tried.
const BASE_COUNT: u16 = 0o2400;

/// The words of the instruction at an address, from its text, which is exactly as [`disassemble`]
/// writes it. `None` if no instruction has this text at this address.
///
/// A text has one instruction at most ([`crate::equal_texts_have_equal_words`]).
pub fn assemble(address: u16, text: &[u8]) -> Option<InstructionWords>
    ensures { Assembles address text.now (option_map (λ words. words.items) result) }
{
    for number in 0..BASE_COUNT {
        if let Some(words) = assemble_as(address, text, base_word_at(number)) {
            return Some(words);
        }
    }
    None
}

/// The word of this number that is tried. Each instruction has its word among them, with zeros in
/// its fields: the words below 400 (octal) serve those without fields, and the others are the
/// multiples of 100.
fn base_word_at(number: u16) -> u16
    requires { number < BASE_COUNT }
    ensures { result ≡ base_word_at number }
{
    if number < 0o400 {
        number
    } else {
        (number - 0o400) * 0o100
    }
}

/// The words of a text, if it is that of an instruction whose word is `base` except for its fields.
fn assemble_as(address: u16, text: &[u8], base: u16) -> Option<InstructionWords>
    ensures { MatchOption result (IsOfOther address text.now base)
        (λ words. IsAssembly address text.now words.items) }
{
    let Some(rest) = without_operator(text, base) else {
        return None;
    };
    words_if_shown(address, text, read_words(base, address, rest))
}

/// What follows the operator of `base` in a text that begins with it.
fn without_operator(text: &[u8], base: u16) -> Option<&[u8]>
    ensures { MatchOption result
        ((rest : List ℕ) → text.now ≢ operator_text (instr_of_word base) ++ rest)
        (λ rest. text.now ≡ operator_text (instr_of_word base) ++ rest.now) }
{
    text.strip_prefix(operator_of(decode(base)).as_bytes())
}

/// The words that the instruction takes of these three, if this is its text.
fn words_if_shown(address: u16, text: &[u8], words: [u16; 3]) -> Option<InstructionWords>
    ensures { MatchOption result (instruction_text address words ≢ text.now)
        (λ taken. IsAssembly address text.now taken.items) }
{
    let shown = disassemble(address, words);
    if shown.text.as_slice() == text {
        Some(first_words(words, shown.word_count))
    } else {
        None
    }
}

/// The first of these words. The clause `fit` tells the caller of all three.
fn first_words(words: [u16; 3], count: usize) -> InstructionWords
    requires { count ≤ 3 }
    ensures items { result.items ≡ take count words }
    ensures fit { AreThreeWords words }
{
    let mut taken = InstructionWords::new();
    // it never fails: there is room for three
    let _ = taken.try_extend_from_slice(&words[..count]);
    taken
}
