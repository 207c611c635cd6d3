//! Numbers, words and bytes: what every part of the machine speaks of. It stands on no other crate.
//!
//! # What is proved
//!
//! - A text is a number exactly if it has 1 to 10 digits, and its value goes by the place of each
//!   digit (`read_octal`, `read_decimal`). Six octal digits show the number that is read back
//!   (`write_octal6`).
//! - A word as a signed number, its low byte, a byte with its sign extended, the word of two bytes
//!   (`signed`, `low_byte`, `sign_extend`, `join`).
//!
//! Sizes, condition codes and `NoMemory` are plain types here; the crates above set or return them.
#![tactic(auto)]

mod bits;
mod codes;
mod mask;
mod memory;
mod number;
mod size;
mod word;

pub use bits::{bit_of, field};
pub use codes::Codes;
pub use mask::is_set;
pub use memory::NoMemory;
pub use number::{read_decimal, read_octal, write_octal6};
pub use size::Size;
pub use word::{join, low_byte, sign_extend, signed};
