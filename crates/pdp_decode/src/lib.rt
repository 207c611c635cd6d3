//! Words to instructions: the opcode table of this project's PDP-11/40 profile, as a total function
//! of the word. It stands on pdp_word. Words and opcodes are octal.
//!
//! # What is proved
//!
//! - Each word is the instruction of its row in the table, or `Reserved` if no row takes it
//!   (`decode`); its fields are in their ranges (`decoded_instructions_have_a_word`).
//! - Decoding and the instruction formats undo each other, except for reserved words
//!   (`decoded_instructions_have_their_word`, `encoded_instructions_decode_back`).
//! - No two rows of the table meet (`rows_never_meet`, `sections_are_one_table`).
//! - Each instruction has its mnemonic (`name_of`).
//!
//! # What is only tested
//!
//! - That the mnemonics are the handbook's texts.
//!
//! What an instruction does is left to pdp_instruction.
#![tactic(auto)]

mod decoding;
mod instruction;
mod laws;

pub use decoding::decode;
pub use instruction::{Instr, Specifier, name_of};
pub use laws::{
    decoded_instructions_have_a_word, decoded_instructions_have_their_word,
    encoded_instructions_decode_back, rows_never_meet, sections_are_one_table,
};
