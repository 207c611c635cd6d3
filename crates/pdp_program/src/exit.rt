ghost use Rattle.std.specs.Prelude.{◌≡◌, Some, option_map};
ghost use Rattle.pdp_program.specs.Exit.{exit_status, exit_of, line_of, message_of, text_shown};
ghost use Rattle.pdp_program.specs.declared.exit.Exit.TheVariants.{NoMemory};

use pdp_script::Fault;
use std::alloc::{AllocError, AllocFailed};
use std::fmt;
use std::fmt::{Display, Formatter};

/// How a run of the program ends [P].
#[derive(Clone, Copy)]
pub enum Exit {
    /// All input was answered, or help was written.
    Done,
    /// The words of the command line are wrong, or one is no number if a number is wanted.
    BadArguments,
    /// A file can't be read, or standard input or standard output failed.
    InputOrOutput,
    /// There was no memory before the first line.
    NoMemory,
    /// An image has an odd number of bytes, or it or the tape is too long.
    BadImage,
    /// The units, the start address or the stride is out of range.
    BadSetup,
}

impl Exit {
    /// The exit status: 0, 2, 3, 4, and 5 for a bad image or setup [P].
    pub fn status(self) -> u8
        ensures { result ≡ exit_status self }
    {
        match self {
            Exit::Done => 0,
            Exit::BadArguments => 2,
            Exit::InputOrOutput => 3,
            Exit::NoMemory => 4,
            Exit::BadImage | Exit::BadSetup => 5,
        }
    }

    /// The line for standard error, if there is one, of a program of this name.
    pub fn line<'a>(self, program_name: &'a str) -> Option<ErrorLine<'a>>
        ensures { option_map text_shown result ≡ line_of program_name.entry.now self }
    {
        let message = self.message()?;
        Some(ErrorLine {
            program_name,
            message,
        })
    }

    /// What went wrong, if anything did.
    fn message(self) -> Option<&'static str>
        ensures { option_map (λ message. message.now) result ≡ message_of self }
    {
        match self {
            Exit::Done => None,
            Exit::BadArguments => Some("bad arguments"),
            Exit::InputOrOutput => Some("input or output"),
            Exit::NoMemory => Some("refused 1 NoMemory"),
            Exit::BadImage => Some("refused 14 BadImage"),
            Exit::BadSetup => Some("refused 15 BadSetup"),
        }
    }

    /// How the program ends after a session that ended so.
    pub fn of_session(answer: Result<(), Fault>) -> Exit
        ensures { result ≡ exit_of answer }
    {
        match answer {
            Ok(()) => Exit::Done,
            Err(Fault::NoMemory) => Exit::NoMemory,
            Err(Fault::BadImage) => Exit::BadImage,
            Err(Fault::BadSetup) => Exit::BadSetup,
            Err(_) => Exit::InputOrOutput,
        }
    }
}

/// A line for standard error, shown without its line feed: the program's name, a colon, a space and
/// what went wrong. It takes no memory.
#[derive(Clone, Copy)]
pub struct ErrorLine<'a> {
    pub program_name: &'a str,
    pub message: &'static str,
}

impl Display for ErrorLine<'_> {
    ghost output = { λ line. Some (text_shown line) };

    fn fmt<W: fmt::Write>(&self, f: &mut Formatter<W>) -> fmt::Result {
        let name = self.program_name;
        let message = self.message;
        write!(f, "{name}: {message}")
    }
}

impl From<AllocError> for Exit {
    ghost from_gives = { λ _ e. e ≡ NoMemory };

    fn from(_refused: AllocError) -> Exit {
        Exit::NoMemory
    }
}

impl<T: Drop> From<AllocFailed<T>> for Exit {
    ghost from_gives = { λ _ e. e ≡ NoMemory };

    fn from(_refused: AllocFailed<T>) -> Exit {
        Exit::NoMemory
    }
}
