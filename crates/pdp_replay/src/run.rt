//! The run as an engine keeps it: its machine, its checkpoints, its turns, and what edits leave.

mod branch;
mod changes;
mod former_runs;
mod kept_run;
mod logged_branch;
mod pauses;
mod turns;

pub(crate) use branch::{Branch, Likeness};
pub(crate) use kept_run::KeptRun;
pub(crate) use logged_branch::{LoggedBranch, PassedTurn};
pub(crate) use pauses::{next_pause, next_taken};
pub(crate) use turns::{quiet_until, run_part};
