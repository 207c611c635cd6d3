//! What a run is made of: from the cells before a turn, back through its act and its beginning, and
//! turn by turn back to the inputs. These are the events, the bytes of the paper tape, and the
//! words of core, of the drives and of the registers as of power-up. The crate has definitions and
//! laws alone.
//!
//! # What is proved
//!
//! - A turn goes the same way in two worlds. If the origins that `made_in_turn` names for a cell
//!   are the same in both, that cell is the same after it (`rows_tell_what_turns_make`).
//! - Two runs go the same way before a turn. If the inputs that `made_before_turn` names for a cell
//!   are the same in both, that cell is the same there (`rows_tell_what_runs_make`), and so are the
//!   bytes that come out in that turn (`outputs_are_made_of_buffers`).
//! - Each run goes the same way as itself (`each_run_goes_the_same_way_as_itself`). The beginning
//!   of a turn goes the same way in worlds that are alike before it, if the disk's last function is
//!   no write check (`beginnings_go_the_same_way`).
//!
//! The laws say that the named inputs are enough, not that each of them matters. They say nothing
//! of two runs that go different ways.
#![tactic(auto)]

mod laws;

pub use laws::{
    beginnings_go_the_same_way, each_run_goes_the_same_way_as_itself, outputs_are_made_of_buffers,
    rows_tell_what_runs_make, rows_tell_what_turns_make, switches_come_to_core,
};
