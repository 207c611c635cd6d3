//! Words to text, and text to words: the instruction at an address, in the syntax of MACRO-11. It
//! stands on pdp_decode for the instruction, on pdp_word for octal digits, and on arrayvec, so that
//! texts and words take no memory.
//!
//! # What is proved
//!
//! - The text is that of the definition. The instruction takes one word, and one more for each
//!   operand whose mode needs a word: 1 to 3 (`disassemble`).
//! - Two instructions at one address have one text exactly if they have the same words
//!   (`equal_texts_have_equal_words`).
//! - A text gives the words of the instruction that has this text at this address, and nothing if
//!   there is none (`assemble`).
//!
//! # What is only tested
//!
//! - That the texts are those of other disassemblers: the program disassemble runs on texts from
//!   the handbook.
//!
//! What an instruction does is left to pdp_cpu.
#![tactic(auto)]

mod assembly;
mod disassembly;
mod laws;
mod operands;
mod operators;
mod reading;
mod texts;

pub use assembly::{InstructionWords, assemble};
pub use disassembly::{Disassembly, disassemble};
pub use laws::equal_texts_have_equal_words;
pub use texts::{InstructionText, LONGEST_TEXT};
