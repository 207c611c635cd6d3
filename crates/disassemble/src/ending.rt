// How a run ends.
ghost use Rattle.std.specs.Prelude.{◌≡◌};
ghost use Rattle.std.specs.IoError.{error_kind};
ghost use Rattle.disassemble.specs.Ending.{ending_of, ending_line, ending_status};
ghost use Rattle.disassemble.specs.declared.ending.Ending.TheVariants.{NoMemory};

use std::alloc::AllocError;
use std::io::{Error, ErrorKind};

/// How a run of the program ends [P].
#[derive(Clone, Copy)]
pub enum Ending {
    /// All lines were answered, or help was written.
    Done,
    /// The words of the command line are wrong.
    BadArguments,
    /// Standard input or standard output failed.
    InputOrOutput,
    /// There was no memory.
    NoMemory,
}

impl Ending {
    /// The exit status: 0, 2, 3 and 4, as those of pdp11 [P].
    pub fn status(self) -> u8
        ensures { result ≡ ending_status self }
    {
        match self {
            Ending::Done => 0,
            Ending::BadArguments => 2,
            Ending::InputOrOutput => 3,
            Ending::NoMemory => 4,
        }
    }

    /// The line for standard error, without its line feed; empty if there is none.
    pub fn line(self) -> &'static str
        ensures { result.now ≡ ending_line self }
    {
        match self {
            Ending::Done => "",
            Ending::BadArguments => "disassemble: bad arguments",
            Ending::InputOrOutput => "disassemble: input or output",
            Ending::NoMemory => "disassemble: no memory",
        }
    }
}

impl From<AllocError> for Ending {
    ghost from_gives = { λ _ e. e ≡ NoMemory };

    fn from(_refused: AllocError) -> Ending {
        Ending::NoMemory
    }
}

impl From<Error> for Ending {
    ghost from_gives = { λ error e. e ≡ ending_of (error_kind error) };

    fn from(error: Error) -> Ending {
        match error.kind() {
            ErrorKind::OutOfMemory => Ending::NoMemory,
            _ => Ending::InputOrOutput,
        }
    }
}
