// The answer to a line.
ghost use Rattle.std.specs.Prelude.{◌≡◌, ◌+◌, ◌≤◌, ◌++◌, codes, IfOk, length, option_map};
ghost use Rattle.pdp_word.specs.Number.{octal_digits};
ghost use Rattle.disassemble.specs.Answer.{IsAnswer, IsFound, IsWordsAnswer, answer_text, bad_text};
ghost use Rattle.disassemble.specs.Answer.{assembly_text, reason_text, text_answer, words_text};
ghost use Rattle.disassemble.specs.Line.{address_of_text, after_field};

use crate::line::{BadLine, Code, after_field, code_on, first_field, word_in};
use arrayvec::ArrayVec;
use itoa::Buffer;
use pdp_disassembler::{InstructionWords, LONGEST_TEXT, assemble, disassemble};
use pdp_word::write_octal6;
use std::alloc::{AllocError, Global};

/// What lines have, and what their answers [P].
#[derive(Clone, Copy)]
pub enum Direction {
    /// An address and three words; the text of the instruction.
    WordsToText,
    /// An address and the text of an instruction; its words.
    TextToWords,
}

/// The most bytes that an answer has room for.
const LONGEST_ANSWER: usize = LONGEST_TEXT + 24;

/// An answer, with its line feed. It takes no memory.
pub type AnswerText = ArrayVec<u8, LONGEST_ANSWER>;

/// The answer to a line, which comes without its line feed.
#[tactic(auto, unfolding(crate::specs::Answer::IsAnswer))]
pub fn line_answer(
    alloc: Global,
    direction: Direction,
    line: &[u8],
) -> Result<AnswerText, AllocError>
    ensures { IfOk result (λ answer. IsAnswer direction line.now answer.items) }
{
    match direction {
        Direction::WordsToText => text_answer(alloc, line),
        Direction::TextToWords => Ok(words_answer(line)),
    }
}

/// How many words the instruction takes, and its text.
#[tactic(auto, unfolding(crate::specs::Answer::text_answer))]
fn text_answer(alloc: Global, line: &[u8]) -> Result<AnswerText, AllocError>
    ensures { IfOk result (λ answer. answer.items ≡ text_answer line.now) }
{
    match code_on(alloc, line)? {
        Ok(code) => Ok(instruction_answer(code)),
        Err(bad) => Ok(bad_line_answer(bad)),
    }
}

fn instruction_answer(code: Code) -> AnswerText
    ensures { result.items ≡ answer_text (Ok code) }
{
    let disassembly = disassemble(code.address, code.words);
    let mut answer = AnswerText::new();
    let mut buffer = Buffer::new();
    add(
        &mut answer,
        buffer.format(disassembly.word_count).as_bytes(),
    );
    add(&mut answer, b" ");
    add(&mut answer, disassembly.text.as_slice());
    add(&mut answer, b"\n");
    answer
}

/// The words of the instruction that has this text at this address.
fn words_answer(line: &[u8]) -> AnswerText
    ensures { IsWordsAnswer (address_of_text line.now) (after_field line.now) result.items }
{
    match address_of_text(line) {
        Ok(address) => assembly_answer(address, after_field(line)),
        Err(bad) => bad_line_answer(bad),
    }
}

/// The address that the first field shows, if a text follows.
fn address_of_text(line: &[u8]) -> Result<u16, BadLine>
    ensures { result ≡ address_of_text line.now }
{
    if after_field(line).is_empty() {
        return Err(BadLine::NoText);
    }
    word_in(first_field(line))
}

fn assembly_answer(address: u16, text: &[u8]) -> AnswerText
    ensures { IsFound address text.now result.items }
{
    found_answer(assemble(address, text))
}

fn found_answer(found: Option<InstructionWords>) -> AnswerText
    ensures { result.items ≡ assembly_text (option_map (λ words. words.items) found) }
{
    match found {
        Some(words) => shown_words(words.as_slice()),
        None => bad_line_answer(BadLine::NoInstruction),
    }
}

fn shown_words(words: &[u16]) -> AnswerText
    requires { length words.now ≤ 3 }
    ensures { result.items ≡ words_text words.now ++ codes "\n" }
{
    let mut answer = AnswerText::new();
    add_words(&mut answer, words);
    add(&mut answer, b"\n");
    answer
}

/// Adds words in six octal digits, with a space between each two.
fn add_words(answer: &mut AnswerText, words: &[u16])
    requires room { length answer.old.items + 20 ≤ LONGEST_ANSWER }
    requires three { length words.now ≤ 3 }
    ensures words { answer.new.items ≡ answer.old.items ++ words_text words.now }
    ensures length { length answer.new.items ≤ length answer.old.items + 20 }
{
    match words {
        [] => {}
        [word] => add_word(answer, *word),
        [word, next] => {
            add_word(answer, *word);
            add(answer, b" ");
            add_word(answer, *next);
        }
        [word, next, last] => {
            add_word(answer, *word);
            add(answer, b" ");
            add_word(answer, *next);
            add(answer, b" ");
            add_word(answer, *last);
        }
        _ => {}
    }
}

fn add_word(answer: &mut AnswerText, word: u16)
    requires { length answer.old.items + 6 ≤ LONGEST_ANSWER }
    ensures word { answer.new.items ≡ answer.old.items ++ octal_digits 6 word }
    ensures length { length answer.new.items ≡ length answer.old.items + 6 }
{
    add(answer, &write_octal6(u32::from(word)));
}

fn bad_line_answer(bad: BadLine) -> AnswerText
    ensures { result.items ≡ bad_text bad }
{
    let mut answer = AnswerText::new();
    add(&mut answer, b"bad line: ");
    add(&mut answer, reason_of(bad).as_bytes());
    add(&mut answer, b"\n");
    answer
}

fn reason_of(bad: BadLine) -> &'static str
    ensures value { result.now ≡ reason_text bad }
    ensures length { length result.now ≤ 35 }
{
    match bad {
        BadLine::FieldCount => "not an address and three words",
        BadLine::NoText => "not an address and an instruction",
        BadLine::Digits => "not a number of 1 to 6 octal digits",
        BadLine::Range => "a number over 177777",
        BadLine::NoInstruction => "no instruction has this text",
    }
}

/// Adds `bytes` at the end.
fn add(answer: &mut AnswerText, bytes: &[u8])
    requires { length answer.old.items + length bytes.now ≤ LONGEST_ANSWER }
    ensures { answer.new.items ≡ answer.old.items ++ bytes.now }
{
    // it never fails: there is room, as the contract requires
    let _ = answer.try_extend_from_slice(bytes);
}
