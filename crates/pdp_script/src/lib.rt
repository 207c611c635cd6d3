//! The ordered script of a run, and the faults that its calls and those of the layers above return.
//! It stands on pdp_unibus for the events, on pdp_word and on thiserror.
//!
//! # What is proved
//!
//! - Each fault has its number and name (`Fault::number`, `name`).
//! - A script is a list of events ordered by turn, in list order within a turn. Each edit is the
//!   list operation with its refusals (`Script::insert`, `alter`, `drop_event`), and leaves all
//!   else (`edits_leave_other_turns`, `edits_leave_other_entries`). An edit can also be done to a
//!   copy (`edited`).
//! - Whether two scripts have the same events from a turn on (`has_events_of`).
//! - What a script has of an event's number (`before`) takes an edit back, exactly, if it is from
//!   before the edit, and makes it again if it is from after (`restore`, `edits_are_taken_back`).
//! - The events of a turn, the next turn that has any, and all of them with their numbers and turns
//!   (`at`, `turn_of`, `next_turn`, `entries`).
//!
//! # What is only tested
//!
//! - That a script holds 65,536 events and no more.
//!
//! What events do is left to pdp_unibus and pdp_cpu, a run of them to pdp_replay.
#![tactic(auto)]

mod entry;
mod faults;
mod labels;
mod laws;
mod script;

pub use entry::Entry;
pub use faults::Fault;
pub use laws::{edits_are_taken_back, edits_leave_other_entries, edits_leave_other_turns};
pub use pdp_unibus::LAST_TURN;
pub use script::{EventBefore, MOST_EVENTS, Script, ScriptEdit};
