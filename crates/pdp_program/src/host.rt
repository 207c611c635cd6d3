// A program on the system's own command line, files and streams.
ghost use Rattle.std.specs.Prelude.{◌≡◌, option_map};
ghost use Rattle.std.specs.Process.{exit_status as process_status};
ghost use Rattle.pdp_program.specs.Exit.{IsListed, exit_status, text_shown};
ghost use Rattle.pdp_program.specs.declared.exit.Exit.{Exit};

use crate::exit::{ErrorLine, Exit};
use crate::files::HostFiles;
use crate::program::{Program, outcome};
use pdp_session::{FromRead, ToWrite};
use std::process::ExitCode;
use std::{env, io};

/// Runs a program on the words of the command line, on the files that they name, and on standard
/// input and output: [`outcome`] says what it does. If there is a line for standard error, it is
/// written there. The exit status is one of the table.
pub fn run_on_host<const SEARCHES: bool>(rt: &HostRuntime, program: Program<'_>) -> ExitCode
    ensures { (exit : Exit) × (process_status result ≡ exit_status exit) }
{
    let (status, line) = outcome_on_host::<SEARCHES>(rt, program);
    if let Some(line) = line {
        // if this can't be written, nobody can be told
        let _ = rt.eprintln(line);
    }
    ExitCode::from(status)
}

fn outcome_on_host<'a, const SEARCHES: bool>(
    rt: &HostRuntime,
    program: Program<'a>,
) -> (u8, Option<ErrorLine<'a>>)
    ensures { IsListed program.entry.name.now result.0 (option_map text_shown result.1) }
{
    match words_of(rt) {
        Ok(words) => {
            let mut files = HostFiles::new(rt);
            let mut reader = FromRead::new(rt.stdin());
            let mut writer = ToWrite::new(rt.stdout());
            outcome::<SEARCHES, _, _, _, _>(
                rt.alloc(),
                program,
                words.as_slice(),
                &mut files,
                &mut reader,
                &mut writer,
            )
        }
        Err(exit) => (exit.status(), exit.line(program.name)),
    }
}

/// The words of the command line, the program's name first. Words that aren't text are bad
/// arguments.
fn words_of(rt: &HostRuntime) -> Result<Vec<String>, Exit> {
    match env::args(rt) {
        Ok(words) => Ok(words.collect::<Vec<String>>(rt.alloc())?),
        Err(error) => match error.kind() {
            io::ErrorKind::OutOfMemory => Err(Exit::NoMemory),
            _ => Err(Exit::BadArguments),
        },
    }
}
