//! The instructions of the PDP-11/40 and the sequences of its traps and interrupts: for each of
//! them its plan of phases, and a function that is the run of the plan. It stands on pdp_operand,
//! pdp_unibus, pdp_action, pdp_alu and what is below these, and knows no turn and no event.
//!
//! # What is proved
//!
//! - An instruction is its fetch, one plan for each row of the opcode table, and what follows a
//!   trap of either, for every store of core and of the drives. While T is set it leaves a trace
//!   trap pending (`instruct`, `execute`). Which trap it was can be told (`instruct_and_tell`).
//! - The sequence of a trap or an interrupt saves PC and the program status and takes new ones from
//!   its vector. If it can't go on, it becomes the red sequence, and if that can't go on, the
//!   processor halts (`begin_sequence`, `SavedContext::of`).
//! - An instruction that cannot go on leaves the codes (`what_cannot_go_on_leaves_the_codes`).
//!
//! What is due in a turn, an instruction or one of these sequences, is left to pdp_cpu.
#![tactic(auto)]

mod branch;
mod change_codes;
mod control;
mod extended;
mod finish;
mod instruction;
mod instruction_trap;
mod jump;
mod laws;
mod moves;
mod one_operand;
mod operands;
mod pair;
mod previous_mode;
mod return_from_trap;
mod saved_context;
mod trap_sequence;
mod two_operands;

pub use instruction::{execute, instruct};
pub use instruction_trap::instruct_and_tell;
pub use laws::what_cannot_go_on_leaves_the_codes;
pub use return_from_trap::returned;
pub use saved_context::SavedContext;
pub use trap_sequence::{begin_sequence, vector};
