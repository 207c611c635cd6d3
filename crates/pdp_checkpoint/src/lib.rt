//! Checkpoints of the machine: a ladder of at most 256 of them, at the multiples of a stride of
//! turns. It stands on pdp_word, pdp_store, pdp_unibus and pdp_cpu.
//!
//! # What is proved
//!
//! - Checkpoints are taken at turn 0 and at each further multiple of the stride. A 257th doubles
//!   the stride, and those at odd multiples of the old one go (`Ladder::new`, `take`, `stride`,
//!   `next`).
//! - The best checkpoint for a turn is the last at or before it (`best`).
//! - At most 256 further states are kept, of turns near those asked about last (`take_near`,
//!   `drop_near`). The closest state to a turn, of all, is the last at or before it (`closest`).
//! - A cut drops those above a turn, and no other (`cut`). They can be set aside as a former run,
//!   whose states are then some of those that were dropped (`set_aside`). There are at most two
//!   former runs, each with at most 512 states (`stride`). A former run says which of its states is
//!   the last by a turn, and which the first from a turn on (`Former`).
//! - Other delays are put into the state of turn 0, and the others go (`set_delays`).
//! - A patch changes a word in each checkpoint up to a turn and drops the other states, or is
//!   refused and changes nothing. It asks that these checkpoints have the page of the word alike
//!   (`patch`).
//!
//! How a machine runs from one state to the next is left to pdp_cpu, which turns are wanted to
//! pdp_replay.
#![tactic(auto)]

mod aside;
mod checkpoint;
mod former;
mod ladder;
mod patched;
mod thin;

pub use checkpoint::Checkpoint;
pub use former::Former;
pub use ladder::{Ladder, MOST_KEPT, MOST_NEAR, WIDEST_STRIDE};
