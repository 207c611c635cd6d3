//! What a value is made of: for each phase of pdp_instruction a row says of which cells before the
//! phase each cell after it is made. A cell holds data: a half of a word or of a register, a
//! condition code, the buffer of a device, a byte of the paper tape, or what one phase hands to the
//! next. The crate has definitions and laws alone.
//!
//! # What is proved
//!
//! - The rows of each action are those of the phases of its plan (`rows_are_those_of_plans`).
//! - From two states that are alike except for data, if the cells that a row names for a cell are
//!   the same in both, that cell is the same after the phase
//!   (`each_row_tells_what_its_phase_makes`). The same holds of plans and courses that go the same
//!   way from both (`rows_tell_what_plans_make`, `rows_tell_what_courses_make`): of an instruction
//!   with its fetch and its traps (`rows_tell_what_instructions_make`), and of the sequence of a
//!   trap or an interrupt (`rows_tell_what_sequences_make`).
//!
//! The laws say that the named cells are enough, not that each of them matters. They say nothing of
//! two states that go different ways. Of turns and of runs are those of pdp_made_run.
#![tactic(auto)]

mod laws;

pub use laws::{
    each_row_tells_what_its_phase_makes, each_state_goes_the_same_way_as_itself,
    rows_are_those_of_plans, rows_tell_what_courses_make, rows_tell_what_instructions_make,
    rows_tell_what_plans_make, rows_tell_what_sequences_make, sums_are_made_of_both_registers,
};
