// The command line.
ghost use Rattle.std.specs.Prelude.{◌≡◌, IfOk, map, option_map};
ghost use Rattle.clap.specs.Words.{FailsBy, app_of, fault_of, found_of, matches_of, rows_of};
ghost use Rattle.disassemble.specs.CommandLine.{AsksText, direction_of, text_command};

use crate::answer::Direction;
use crate::ending::Ending;
use clap::error::ErrorKind;
use clap::{Arg, ArgAction, ArgMatches, Command, Error};
use std::alloc::{AllocError, Global};
use std::convert::AsStr;

const ABOUT: &str = "The text of PDP-11 instructions, in the syntax of MACRO-11";

const LINES: &str = "\
Each line of standard input is an address, the word there, and the two words that
follow, all octal with 1 to 6 digits and with spaces between them:
  1000 012700 000005 000000
The reply is a line on standard output: how many words the instruction takes, and its
text. Words past that count are ignored.
  2 MOV #5,R0
A word that is no instruction is shown as a directive. So is 000260, which sets no
condition code, because NOP is the text of 000240.
  1 .WORD 075000
With --assemble each line is an address and a text that this program writes:
  1000 MOV #5,R0
The reply is the words of the instruction.
  012700 000005
The reply to a line that can't be read is 'bad line: ' and the reason.";

/// The release, as the file VERSION has it.
const VERSION: &str = "2026-11-30";

/// What the words of the command line ask for.
#[derive(Drop)]
pub enum TextRequest {
    /// This text, of help or of the release.
    Show(String),
    /// The answers to the lines of standard input.
    Answer(Direction),
}

/// What these words ask for, the program's name first. `BadArguments` if there is a word that is no
/// option, or an option twice. `NoMemory` as soon as it is out of memory.
pub fn read_words<S: AsStr>(alloc: Global, words: &[S]) -> Result<TextRequest, Ending>
    ensures { AsksText (map S.text words.now) result }
{
    match matches_of(alloc, words) {
        Ok(matches) => Ok(TextRequest::Answer(direction_of(matches.get_str("assemble")))),
        Err(error) => match error.kind() {
            ErrorKind::DisplayHelp | ErrorKind::DisplayVersion => {
                Ok(TextRequest::Show(error.to_string(alloc)?))
            }
            ErrorKind::OutOfMemory => Err(Ending::NoMemory),
            _ => Err(Ending::BadArguments),
        },
    }
}

/// What the value of the flag `--assemble` says.
fn direction_of(flag: Option<&str>) -> Direction
    ensures { result ≡ direction_of (option_map (λ text. text.now) flag.entry) }
{
    match flag {
        Some(text) => {
            if text == "true" {
                Direction::TextToWords
            } else {
                Direction::WordsToText
            }
        }
        None => Direction::WordsToText,
    }
}

/// What clap finds in these words.
fn matches_of<'a, S: AsStr>(alloc: Global, words: &'a [S]) -> Result<ArgMatches<'a>, Error>
    ensures faults { FailsBy (fault_of text_command (map S.text words.entry.now)) result }
    ensures rows { IfOk result (λ matches.
        rows_of (found_of matches) ≡ matches_of text_command (map S.text words.entry.now)) }
{
    let command = command(alloc)?;
    command.try_get_matches_from(words)
}

fn command<'a>(alloc: Global) -> Result<Command<'a>, AllocError>
    ensures { IfOk result (λ command. app_of command ≡ text_command) }
{
    let assemble = Arg::new(alloc, "assemble")
        .long("assemble")
        .help("Read the texts of instructions, and print their words")
        .action(ArgAction::SetTrue);
    Command::new(alloc, "disassemble")
        .version(VERSION)
        .about(ABOUT)
        .after_help(LINES)
        .arg(assemble)
}
