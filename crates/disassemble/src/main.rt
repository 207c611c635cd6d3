//! disassemble: PDP-11 words in, the text of their instructions out, a line for each line; with
//! `--assemble`, the texts in and the words out. It stands on pdp_disassembler, which makes both,
//! on pdp_word for the numbers of lines, on arrayvec and itoa for the text of answers, and on clap,
//! which reads the command line.
//!
//! # What is proved
//!
//! - The answer to a line is that of the definition: a count of words and a text, or the words of
//!   the one instruction that has the text, or what is wrong with the line (`line_answer`). If the
//!   run ends well, the answers to all lines were written, in their order (`answer_lines`).
//!
//! # What is only tested
//!
//! - The texts of help and `--version`; the built program on lines with texts known from outside.
//!
//! What standard input and output do is left to the system.
#![tactic(auto)]

mod answer;
mod command_line;
mod ending;
mod line;
mod lines;

use command_line::{TextRequest, read_words};
use ending::Ending;
use std::env;
use std::io::{BufReader, Write};
use std::process::ExitCode;

fn main(rt: HostRuntime) -> ExitCode {
    let ending = match run(&rt) {
        Ok(()) => Ending::Done,
        Err(ending) => ending,
    };
    let line = ending.line();
    if !line.is_empty() {
        // if this can't be written, nobody can be told
        let _ = rt.eprintln(line);
    }
    ExitCode::from(ending.status())
}

/// Writes the text that the command line asks for, or answers the lines of standard input.
fn run(rt: &HostRuntime) -> Result<(), Ending> {
    let words = env::args(rt)?.collect::<Vec<String>>(rt.alloc())?;
    match read_words(rt.alloc(), words.as_slice())? {
        TextRequest::Show(text) => rt.stdout().write_all(text.as_bytes())?,
        TextRequest::Answer(direction) => {
            let mut reader = BufReader::new(rt.alloc(), rt.stdin())?;
            lines::answer_lines(rt.alloc(), direction, &mut reader, &mut rt.stdout())?;
        }
    }
    Ok(())
}
