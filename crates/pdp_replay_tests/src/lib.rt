//! Tests of the engine, and of the session as a call: what no reply tells. That is how many turns
//! are run for a question or a search, the known turn, the stride, which states are kept, from
//! which turn on an edit would change nothing, which turns begin quietly, a machine without decoded
//! lines, a full script, and streams that fail.
//!
//! They stand in a crate of their own, since a crate that has tests is proved once more for them.
//! What lines make of an engine is in the rows and tables of sessions.
#![tactic(auto)]

#[cfg(test)]
mod dropped_lines;
#[cfg(test)]
mod fading;
#[cfg(test)]
mod failing_streams;
#[cfg(test)]
mod kept_states;
#[cfg(test)]
mod quiet_turns;
#[cfg(test)]
mod script;
#[cfg(test)]
mod searches;
#[cfg(test)]
mod steps;
#[cfg(test)]
mod turns;
