//! The microcode as data: a step for each phase of pdp_instruction's plans and sequences, and of
//! the fetch. Each step runs alone, over the real processor and bus, and what one hands to the next
//! is at hand between them. pdp_instruction runs turns, and is faster. By steps are run only those
//! turns whose moves are asked for.
//!
//! # What is proved
//!
//! - A step is its phase (`run_step`), for every processor, bus and latch.
//! - The steps of an action are the phases of its plan, in their order (`steps_of`), and so are
//!   those of the sequence of a trap and of the red sequence (`sequence_steps`, `red_steps`).
//! - Steps that are run one after the other are the run of their phases (`run_steps`). So are those
//!   of the instruction that was fetched (`carry_out`), and of both sequences (`run_sequence`,
//!   `run_red_sequence`), whatever the latch holds.
//!
//! What a plan does is left to pdp_instruction, and what its phases make of what to pdp_made.
#![tactic(auto)]

mod action_steps;
mod control_step;
mod execute_step;
mod extended_step;
mod fetch_step;
#[cfg(test)]
mod instructions_by_steps;
mod jump_step;
mod operand_step;
mod step;
mod step_latch;
mod step_run;
mod trap_sequences;
mod trap_step;

pub use action_steps::{ActionSteps, MOST_STEPS, steps_of};
pub use control_step::ControlStep;
pub use execute_step::ExecuteStep;
pub use extended_step::ExtendedStep;
pub use jump_step::JumpStep;
pub use operand_step::OperandStep;
pub use step::Microstep;
pub use step_latch::StepLatch;
pub use step_run::{carry_out, run_red_sequence, run_sequence, run_step, run_steps};
pub use trap_sequences::{red_steps, sequence_steps};
pub use trap_step::TrapStep;
