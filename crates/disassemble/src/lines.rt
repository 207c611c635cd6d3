// The lines of the input, answered one by one.
ghost use Rattle.std.specs.Prelude.{◌≡◌, ℕ, List, OnOk, IfOk, IfSome};
ghost use Rattle.std.specs.Io.KnownBytes.{Appends};
ghost use Rattle.std.specs.Str.Lines.{lines, strip_carriage_return};
ghost use Rattle.disassemble.specs.Answer.{AnswersNext, AreAnswers, line_in};

use crate::answer::{Direction, line_answer};
use std::alloc::Global;
use std::io::{BufRead, Error, ErrorKind, Result, Write};

/// Answers each line of `reader` on `writer`. Each answer is written and flushed before the next
/// line is read.
///
/// # Errors
///
/// Those of the reader and of the writer, and out of memory. The contract doesn't say what was
/// written before an error.
pub fn answer_lines<R: BufRead, W: Write>(
    alloc: Global,
    direction: Direction,
    reader: &mut R,
    writer: &mut W,
) -> Result<()>
    ensures { OnOk result (IfSome (R.remaining reader.old) (λ text. (written : List ℕ)
        × Appends (W.contents writer.old) (W.contents writer.new) written
        × AreAnswers direction (lines text) written)) }
{
    'lines: for _ in 0..u64::MAX {
        if !answer_next(alloc, direction, reader, writer)? {
            return Ok(());
        }
    }
    Err(Error::from(ErrorKind::Other))
}

/// Answers the next line, and returns whether there was one.
fn answer_next<R: BufRead, W: Write>(
    alloc: Global,
    direction: Direction,
    reader: &mut R,
    writer: &mut W,
) -> Result<bool>
    ensures { IfOk result (λ was_line. AnswersNext direction (R.remaining reader.old)
        (R.remaining reader.new) (W.contents writer.old) (W.contents writer.new) was_line) }
{
    let mut read = Vec::new(alloc);
    if reader.read_until(b'\n', &mut read)? == 0 {
        return Ok(false);
    }
    let answer = line_answer(alloc, direction, line_in(read.as_slice()))?;
    writer.write_all(answer.as_slice())?;
    writer.flush()?;
    Ok(true)
}

/// A line as it was read, without what ended it.
fn line_in(read: &[u8]) -> &[u8]
    ensures { result.now ≡ line_in read.now }
{
    match read.split_last() {
        Some((b'\n', line)) => without_return(line),
        _ => read,
    }
}

fn without_return(line: &[u8]) -> &[u8]
    ensures { result.now ≡ strip_carriage_return line.now }
{
    match line.split_last() {
        Some((b'\r', front)) => front,
        _ => line,
    }
}
