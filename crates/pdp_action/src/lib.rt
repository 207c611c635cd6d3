//! What the processor carries an instruction out by: its action, with the operations that the
//! actions name, the conditions of branches, and traps.
//!
//! It stands on pdp_word, pdp_alu and pdp_decode. It has the types that decoded lines keep and the
//! processor dispatches on, so it is below both. What an action does, phase by phase, it leaves to
//! pdp_instruction.
//!
//! # What is proved
//!
//! - `action_of` gives each instruction the action of its row in the instruction set: instructions
//!   that have the same phases are one action, with their operation in it.
//! - `Condition::is_taken` is the branch condition over the codes.
//! - Each operation has the size and the effect of its instruction (`Comparison`, `Combination`,
//!   `Modification`, `Replacement`).
//!
//! # What is only tested
//!
//! Nothing by tests of its own. What programs make of instructions is in the rows and tables of
//! sessions.
#![tactic(auto)]

mod action;
mod condition;
mod operation;
mod trap;

pub use action::{Action, action_of};
pub use condition::Condition;
pub use operation::{Combination, Comparison, Modification, Replacement};
pub use trap::Trap;
