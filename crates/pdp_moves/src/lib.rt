//! Moves: what each step of pdp_steps makes of what, told as a list of cells and their sources. The
//! rows of pdp_made are the definition; here code works them out, step by step, over the real
//! processor and bus.
//!
//! # What is proved
//!
//! - The moves of a step that goes on are those of its row (`moves_of_step`), for every processor,
//!   bus and latch: a cell is told exactly if the row makes it of anything but itself, once, with
//!   exactly the sources that the row names, in their order.
//! - Steps that are run one after the other leave what `run_steps` of pdp_steps leaves. The moves
//!   of each are noted, and taken backwards they are what `made_through` of pdp_made says
//!   (`note_steps`), also where a step can't go on. The same holds of the steps of the instruction
//!   that was fetched and of the rows of its action (`carry_out_noting`).
//! - A whole instruction with its fetch and its trap, run by steps, is the instruction. Its moves,
//!   taken backwards, are what `made_along` of pdp_made says (`instruct_noting`). The same holds of
//!   the sequence of a trap or an interrupt (`interrupt_noting`).
//!
//! That the named sources are enough is a law of pdp_made. Nothing here takes memory.
#![tactic(auto)]

mod bus_slave;
mod cell_move;
mod cell_name;
mod control_moves;
mod effect_sources;
mod execute_moves;
mod extended_moves;
#[cfg(test)]
mod instruction_moves;
mod jump_moves;
mod noted_act;
mod noted_plan;
mod noted_sequence;
mod noted_step;
mod operand_moves;
mod operands_taken;
mod register_sources;
mod sources;
mod step_moves;
mod trap_moves;
mod written_word;

pub use cell_move::{CellMove, MOST_MOVES, StepMoves};
pub use cell_name::{BufferName, CellName, CodeName, HalfName};
pub use noted_act::{NotedAct, instruct_noting, interrupt_noting};
pub use noted_plan::{NotedPlan, carry_out_noting, note_plan};
pub use noted_sequence::NotedSequence;
pub use noted_step::{NotedStep, NotedSteps, note_steps};
pub use sources::{MOST_SOURCES, Sources};
pub use step_moves::moves_of_step;
pub use written_word::WrittenWord;
