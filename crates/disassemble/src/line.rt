// A line of input: an address and three words, or an address and the text of an instruction.
ghost use Rattle.std.specs.Prelude.{◌≡◌, ◌≤◌, [], ◌∷◌, IfOk, length, map};
ghost use Rattle.std.specs.List.{prefix_len};
ghost use Rattle.disassemble.specs.Line.{after_field, code_in_fields, fields_of, first_field};
ghost use Rattle.disassemble.specs.Line.{from_field, is_inside, is_separator, word_in_field};

use pdp_word::read_octal;
use std::alloc::{AllocError, Global};

/// An instruction's address, its word, and the two words that follow.
#[derive(Clone, Copy)]
pub struct Code {
    pub address: u16,
    pub words: [u16; 3],
}

/// What is wrong with a line.
#[derive(Clone, Copy)]
pub enum BadLine {
    /// There aren't four fields.
    FieldCount,
    /// No text follows the first field.
    NoText,
    /// A field isn't 1 to 6 octal digits.
    Digits,
    /// A number is over 177777.
    Range,
    /// No instruction has this text at this address.
    NoInstruction,
}

/// The code on this line, which comes without its line feed: four octal numbers, with spaces or
/// tabs between them.
///
/// [`BadLine::FieldCount`] comes first, and then the error of the first bad field.
pub fn code_on(alloc: Global, line: &[u8]) -> Result<Result<Code, BadLine>, AllocError>
    ensures { IfOk result (λ code. code ≡ code_in_fields (fields_of line.now)) }
{
    let fields = fields_of(alloc, line)?;
    match fields.as_slice() {
        [address, word, next, last] => Ok(code_of(address, word, next, last)),
        _ => Ok(Err(BadLine::FieldCount)),
    }
}

fn code_of(address: &[u8], word: &[u8], next: &[u8], last: &[u8]) -> Result<Code, BadLine>
    ensures { result
        ≡ code_in_fields (address.now ∷ word.now ∷ next.now ∷ last.now ∷ []) }
{
    let address = word_in(address)?;
    let words = [word_in(word)?, word_in(next)?, word_in(last)?];
    Ok(Code { address, words })
}

fn fields_of(alloc: Global, line: &[u8]) -> Result<Vec<&[u8]>, AllocError>
    ensures { IfOk result (λ fields.
        map (λ field. field.now) fields.items ≡ fields_of line.now) }
{
    line.split(|byte| is_separator(*byte))
        .filter(|field| !field.is_empty())
        .collect(alloc)
}

fn is_separator(byte: u8) -> bool
    ensures { result ≡ is_separator byte }
{
    byte == b' ' || byte == b'\t'
}

/// The first field of a line.
pub fn first_field(line: &[u8]) -> &[u8]
    ensures { result.now ≡ first_field line.now }
{
    let rest = from_field(line);
    let (field, _) = rest.split_at(field_length(rest));
    field
}

/// What stands after the first field and the separators after it: the text of an instruction.
pub fn after_field(line: &[u8]) -> &[u8]
    ensures { result.now ≡ after_field line.now }
{
    let rest = from_field(line);
    let (_, rest) = rest.split_at(field_length(rest));
    from_field(rest)
}

/// A line without the separators that it begins with.
fn from_field(line: &[u8]) -> &[u8]
    ensures { result.now ≡ from_field line.now }
{
    let (_, rest) = line.split_at(separators_length(line));
    rest
}

fn separators_length(line: &[u8]) -> usize
    ensures value { result ≡ prefix_len is_separator line.now }
    ensures within { result ≤ length line.now }
{
    line.iter().take_while(|byte| is_separator(**byte)).count()
}

fn field_length(line: &[u8]) -> usize
    ensures value { result ≡ prefix_len is_inside line.now }
    ensures within { result ≤ length line.now }
{
    line.iter().take_while(|byte| !is_separator(**byte)).count()
}

/// The word that a field shows.
pub fn word_in(field: &[u8]) -> Result<u16, BadLine>
    ensures { result ≡ word_in_field field.now }
{
    if field.len() > MOST_DIGITS {
        return Err(BadLine::Digits);
    }
    let Some(number) = read_octal(field) else {
        return Err(BadLine::Digits)
    };
    u16::try_from(number).map_err(|_| BadLine::Range)
}

/// The most digits of a word.
const MOST_DIGITS: usize = 6;
