//! What a past makes: the rows of pdp_made_run for the run from power-up of a past, which has a
//! setup with its patches, and a script. The crate has definitions and laws alone, and no program
//! stands on it.
//!
//! # What is proved
//!
//! - The states of a past's run, which answers are of, are those that the rows go back through
//!   (`states_are_those_of_rows`).
//! - The runs of two pasts go the same way before a turn. If the inputs that `made_at` names for a
//!   cell are the same in both pasts, that cell is the same there
//!   (`rows_tell_what_pasts_make`), and so are a word whose halves are, and the text that was
//!   printed or punched if the inputs of each byte are (`words_and_texts_are_made_of_inputs`).
//! - If no move to a cell is listed of the act of a turn, the act makes the cell of itself alone
//!   (`unlisted_cells_stay`). So it does with each word of core that no bus cycle of the turn wrote,
//!   and with the drives and the tape (`unwritten_cells_stay`).
//!
//! The laws say that the named inputs are enough, not that each of them matters. They say nothing
//! of two runs that go different ways.
#![tactic(auto)]

mod laws;

pub use laws::{
    rows_tell_what_pasts_make, states_are_those_of_rows, unlisted_cells_stay, unwritten_cells_stay,
    words_and_texts_are_made_of_inputs,
};
