//! What the programs over sessions have in common: the command line, the files that it names, the
//! run of the session, and how the program ends. The name of the program is a parameter, and so is
//! what only its help shows. It stands on pdp_session, which runs the session, on what is below
//! that, and on clap, which reads the command line.
//!
//! # What is proved
//!
//! - Exit status and line on standard error are a pair of the table, and that of the run's result
//!   if the run was reached. The run starts with the words of the images' files and the bytes of
//!   the tape's, if the files are known ([`outcome`]).
//! - `--lines` prints the rows of the program's lines, byte for byte ([`outcome`]).
//! - The exit status of the process is one of the table ([`run_on_host`]).
//!
//! # What is only tested
//!
//! - The text of help, streams that fail, and images of the largest size, on the built programs.
//!
//! What a command line or a file holds, and what standard input and output do, is left to the
//! system.
#![tactic(auto)]

mod command_line;
mod exit;
mod files;
mod host;
mod lines;
mod media;
mod options;
mod program;

pub use exit::{ErrorLine, Exit};
pub use files::{FileFailure, Files};
pub use host::run_on_host;
pub use lines::{LineTable, NO_LINES, SESSION};
pub use program::{Program, outcome};
