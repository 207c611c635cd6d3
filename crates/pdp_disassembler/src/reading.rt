// The words that the text of an instruction says. The words of any other text mean nothing.
ghost use Rattle.std.specs.Prelude.{◌≡◌, ◌+◌, ◌*◌, ◌%◌, ◌<◌, ◌≤◌, ◌∷◌, ◌++◌, drop, length};
ghost use Rattle.std.specs.Prelude.{option_to_list};
ghost use Rattle.std.specs.List.{prefix_len};
ghost use Rattle.pdp_word.specs.Number.{is_digit};
ghost use Rattle.pdp_decode.specs.Table.{instr_of_word};
ghost use Rattle.pdp_disassembler.specs.Operands.{operands_of};
ghost use Rattle.pdp_disassembler.specs.Reading.{after_comma, first_read, front, is_mark};
ghost use Rattle.pdp_disassembler.specs.Reading.{is_no_comma, mode_read, number_form, offset_back};
ghost use Rattle.pdp_disassembler.specs.Reading.{one_operand_words, operand_read};
ghost use Rattle.pdp_disassembler.specs.Reading.{register_form, swapped_operand_words};
ghost use Rattle.pdp_disassembler.specs.Reading.{two_operand_words};
ghost use Rattle.pdp_disassembler.specs.Reading.{register_read, second_read, with_fields};
ghost use Rattle.pdp_disassembler.specs.Reading.{with_zeros, word_back, word_of_digits};
ghost use Rattle.pdp_disassembler.specs.Reading.{words_back, words_of_text, words_read_as};
ghost use Rattle.pdp_disassembler.specs.Text.{further};

use crate::operands::{Operands, operands_of};
use pdp_decode::decode;
use pdp_word::read_octal;

/// An operand, as its text says it.
#[derive(Clone, Copy)]
struct OperandRead {
    /// Mode and register.
    bits: u16,
    /// Its own word, if it has one.
    word: Option<u16>,
}

/// The words of the instruction at `address` whose word is `base`, except for its fields. `rest` is
/// its text without the operator. Zeros follow the words that it takes.
pub fn read_words(base: u16, address: u16, rest: &[u8]) -> [u16; 3]
    ensures { result ≡ words_of_text base address rest.now }
{
    read_words_as(
        operands_of(decode(base)),
        base,
        address,
        without_first(rest),
    )
}

/// A text without its first byte, a space or a comma.
fn without_first(text: &[u8]) -> &[u8]
    ensures { result.now ≡ drop 1 text.now }
{
    match text {
        [_, rest @ ..] => rest,
        [] => text,
    }
}

/// The words of an instruction that has operands of the kind of `operands`.
#[tactic(auto, unfolding(crate::specs::Reading::words_read_as))]
fn read_words_as(operands: Operands, base: u16, address: u16, text: &[u8]) -> [u16; 3]
    ensures { result ≡ with_zeros (words_read_as operands base address text.now) }
{
    match operands {
        Operands::Absent => [base, 0, 0],
        Operands::Register(_) | Operands::Single(_) => one_operand(base, address, text),
        Operands::Number(_) => [base.wrapping_add(read_word(text)), 0, 0],
        Operands::Branch(_) => {
            let offset = offset_back(address, read_word(text));
            [base.wrapping_add(offset), 0, 0]
        }
        Operands::Loop { .. } => [base.wrapping_add(loop_fields(address, text)), 0, 0],
        Operands::RegisterFirst { .. } | Operands::Double { .. } => {
            two_operands(base, address, text)
        }
        Operands::RegisterLast { .. } => swapped_operands(base, address, text),
        Operands::Word => [read_word(text), 0, 0],
    }
}

fn one_operand(base: u16, address: u16, text: &[u8]) -> [u16; 3]
    ensures { result ≡ with_zeros
        (one_operand_words base (operand_read (further address 2) text.now)) }
{
    let operand = read_operand(address.wrapping_add(2), text);
    three_words(base.wrapping_add(operand.bits), operand.word, None)
}

fn two_operands(base: u16, address: u16, text: &[u8]) -> [u16; 3]
    ensures { result ≡ with_zeros (two_operand_words base (first_read address text.now)
        (second_read address (length (first_read address text.now).1) text.now)) }
{
    let first = read_first(address, text);
    let second = read_second(address, first.word, text);
    let fields = first.bits * 0o100 + second.bits;
    three_words(base.wrapping_add(fields), first.word, second.word)
}

fn swapped_operands(base: u16, address: u16, text: &[u8]) -> [u16; 3]
    ensures { result ≡ with_zeros (swapped_operand_words base (first_read address text.now)
        (second_read address (length (first_read address text.now).1) text.now)) }
{
    let first = read_first(address, text);
    let second = read_second(address, first.word, text);
    let fields = second.bits * 0o100 + first.bits;
    three_words(base.wrapping_add(fields), first.word, second.word)
}

/// The register of SOB and its words.
fn loop_fields(address: u16, text: &[u8]) -> u16
    ensures { result ≡ (first_read address text.now).0 * 0o100
        + words_back address (word_of_digits (after_comma text.now)) }
{
    let first = read_first(address, text);
    let target = read_word(after_comma(text));
    first.bits * 0o100 + words_back(address, target)
}

/// An instruction word, and the words of its operands that have one.
fn three_words(word: u16, first: Option<u16>, second: Option<u16>) -> [u16; 3]
    ensures { result ≡ with_zeros (word ∷ (option_to_list first ++ option_to_list second)) }
{
    match (first, second) {
        (Some(next), Some(last)) => [word, next, last],
        (Some(next), None) | (None, Some(next)) => [word, next, 0],
        (None, None) => [word, 0, 0],
    }
}

/// The operand before the comma.
fn read_first(address: u16, text: &[u8]) -> OperandRead
    ensures bits { result.bits ≡ (first_read address text.now).0 }
    ensures range { result.bits < 0o100 }
    ensures word { option_to_list result.word ≡ (first_read address text.now).1 }
{
    let (first, _) = text.split_at(length_before_comma(text));
    read_operand(address.wrapping_add(2), first)
}

/// The operand after the comma. Its word comes after that of the first, if that has one.
fn read_second(address: u16, first: Option<u16>, text: &[u8]) -> OperandRead
    ensures bits { result.bits
        ≡ (second_read address (length (option_to_list first)) text.now).0 }
    ensures range { result.bits < 0o100 }
    ensures word { option_to_list result.word
        ≡ (second_read address (length (option_to_list first)) text.now).1 }
{
    let own = if first.is_some() { 4 } else { 2 };
    read_operand(address.wrapping_add(own), after_comma(text))
}

fn after_comma(text: &[u8]) -> &[u8]
    ensures { result.now ≡ after_comma text.now }
{
    let (_, rest) = text.split_at(length_before_comma(text));
    without_first(rest)
}

fn length_before_comma(text: &[u8]) -> usize
    ensures value { result ≡ prefix_len is_no_comma text.now }
    ensures within { result ≤ length text.now }
{
    text.iter().take_while(|byte| **byte != b',').count()
}

/// An operand, whose own word, if it has one, is at `address`.
#[tactic(auto, unfolding(crate::specs::Reading::operand_read))]
fn read_operand(address: u16, text: &[u8]) -> OperandRead
    ensures bits { result.bits ≡ (operand_read address text.now).0 }
    ensures range { result.bits < 0o100 }
    ensures word { option_to_list result.word ≡ (operand_read address text.now).1 }
{
    let (mark, unmarked) = text.split_at(mark_length(text));
    let (digits, ending) = unmarked.split_at(digits_length(unmarked));
    if digits.is_empty() {
        register_form(mark, ending)
    } else {
        number_form(address, mark, ending, read_word(digits))
    }
}

fn mark_length(text: &[u8]) -> usize
    ensures value { result ≡ prefix_len is_mark text.now }
    ensures within { result ≤ length text.now }
{
    text.iter().take_while(|byte| is_mark(**byte)).count()
}

/// Whether a byte stands before a number or the name of a register.
fn is_mark(byte: u8) -> bool
    ensures { result ≡ is_mark byte }
{
    matches!(byte, b'@' | b'#' | b'(' | b'-')
}

fn digits_length(text: &[u8]) -> usize
    ensures value { result ≡ prefix_len (is_digit 8) text.now }
    ensures within { result ≤ length text.now }
{
    text.iter().take_while(|byte| is_digit(**byte)).count()
}

fn is_digit(byte: u8) -> bool
    ensures { result ≡ is_digit 8 byte }
{
    b'0' <= byte && byte <= b'7'
}

/// An operand without a number: the name of its register is in `ending`.
fn register_form(mark: &[u8], ending: &[u8]) -> OperandRead
    ensures bits { result.bits ≡ (register_form mark.now ending.now).0 }
    ensures range { result.bits < 0o100 }
    ensures word { option_to_list result.word ≡ (register_form mark.now ending.now).1 }
{
    OperandRead {
        bits: read_mode(mark, after_name(ending)) * 8 + read_register(ending),
        word: None,
    }
}

/// What follows the name of a register.
fn after_name(text: &[u8]) -> &[u8]
    ensures { result.now ≡ drop 2 text.now }
{
    match text {
        [_, _, rest @ ..] => rest,
        _ => &[],
    }
}

fn read_mode(mark: &[u8], ending: &[u8]) -> u16
    ensures mode { result ≡ mode_read mark.now ending.now }
    ensures range { result ≤ 5 }
{
    match mark {
        b"@-(" => 5,
        b"-(" => 4,
        b"@(" => 3,
        b"(" => match ending {
            b")" => 1,
            _ => 2,
        },
        _ => 0,
    }
}

/// An operand with a number.
fn number_form(address: u16, mark: &[u8], ending: &[u8], number: u16) -> OperandRead
    ensures bits { result.bits ≡ (number_form address mark.now ending.now number).0 }
    ensures range { result.bits < 0o100 }
    ensures word { option_to_list result.word
        ≡ (number_form address mark.now ending.now number).1 }
{
    let deferred = if mark.is_empty() { 0 } else { 0o10 };
    match (mark, ending) {
        (b"#", _) => OperandRead {
            bits: 0o27,
            word: Some(number),
        },
        (b"@#", _) => OperandRead {
            bits: 0o37,
            word: Some(number),
        },
        (_, []) => OperandRead {
            bits: 0o67 + deferred,
            word: Some(word_back(address, number)),
        },
        (_, [_, name @ ..]) => OperandRead {
            bits: 0o60 + deferred + read_register(name),
            word: Some(number),
        },
    }
}

/// The register whose name a text begins with, if it begins with one.
fn read_register(text: &[u8]) -> u16
    ensures register { result ≡ register_read text.now }
    ensures range { result < 8 }
{
    match text {
        [b'R', digit, ..] => u16::from(*digit) % 8,
        [b'S', _, ..] => 6,
        _ => 7,
    }
}

/// The word that octal digits show.
fn read_word(digits: &[u8]) -> u16
    ensures { result ≡ word_of_digits digits.now }
{
    match read_octal(digits) {
        Some(number) => (number % 0o200000) as u16,
        None => 0,
    }
}

/// The word of a relative operand, which is at `address`, from the address that it names.
fn word_back(address: u16, target: u16) -> u16
    ensures { result ≡ word_back address target }
{
    target.wrapping_sub(address.wrapping_add(2))
}

/// The low byte of the branch at `address`, from the address that it names.
fn offset_back(address: u16, target: u16) -> u16
    ensures { result ≡ offset_back address target }
{
    target.wrapping_sub(address.wrapping_add(2)) / 2 % 0o400
}

/// The words of the SOB at `address`, from the address that it names.
fn words_back(address: u16, target: u16) -> u16
    ensures { result ≡ words_back address target }
{
    address.wrapping_add(2).wrapping_sub(target) / 2
}
