//! Moves of a turn. Its beginning is told before it. Its act is run step by step over the real
//! processor and bus, by which instruction, trap or interrupt is due, with what each step makes of
//! what. The rows of pdp_made_run are the definition.
//!
//! # What is proved
//!
//! - An act that is run by steps is the act of the turn, for every processor and bus. Its moves,
//!   taken backwards, are what `made_along` of pdp_made says of the rows of what is due
//!   (`act_noting`).
//! - What the beginning of a turn moves is told before it, in a few words of constant size: for
//!   each cell they name exactly the origins that `made_in_beginning` of pdp_made_run names
//!   (`BeginningMoves::of`).
//! - A whole turn that is run so is the turn of pdp_cpu, and what is noted of it names exactly the
//!   origins that `made_in_turn` of pdp_made_run names (`TurnMoves::run`).
//! - What was noted of an act is listed cell by cell, each with exactly the cells before the act
//!   that it is made of (`moves_of_act`). That depends neither on a log nor on first touches.
//!
//! Only the lists take memory.
#![tactic(auto)]

mod act_move;
mod act_moves;
mod act_sources;
mod beginning_moves;
mod due_act;
mod found_events;
mod laws;
mod told_act;
mod turn_moves;

pub use act_move::ActMove;
pub use act_moves::act_noting;
pub use act_sources::sources_of_act;
pub use beginning_moves::{BeginningMoves, TapeRead};
pub use told_act::moves_of_act;
pub use turn_moves::{ActNotes, TurnMoves};
