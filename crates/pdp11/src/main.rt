//! pdp11: a PDP-11/40 that answers questions about any turn of its run, and whose past can be
//! edited. Session lines come on standard input, and the replies go to standard output. It stands
//! on pdp_program, which has its command line, its files and its exit statuses.
//!
//! # What is proved
//!
//! - What pdp_program proves of a program, for this program's name (`run_on_host`, `outcome`).
//!
//! # What is only tested
//!
//! - The worked rows, tables and examples, all on the built program.
#![tactic(auto)]

use pdp_program::{NO_LINES, Program, SESSION, run_on_host};
use std::process::ExitCode;

/// What it is, the release as the file VERSION has it, and where a session comes from.
const ABOUT: &str = "\
A PDP-11/40 whose past can be edited: session lines in, replies out
Nezdrab 2026-11-30; the lines of a session are read from standard input";

const PROGRAM: Program<'static> = Program {
    name: "pdp11",
    about: ABOUT,
    version: None,
    lines: SESSION,
    more_lines: NO_LINES,
};

fn main(rt: HostRuntime) -> ExitCode {
    run_on_host::<false>(&rt, PROGRAM)
}
