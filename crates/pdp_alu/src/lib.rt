//! Results and condition codes of the instructions, over whole numbers. It stands on pdp_word.
//!
//! # What is proved
//!
//! - Each instruction of one or two operands has the value and the codes of its definition (`mov`,
//!   `cmp`, `add`, `sub`, `bit`, `bic`, `bis`, `xor`, `clr` to `tst`, `ror` to `asl`, `swab`,
//!   `sxt`); so has extended arithmetic (`mul`, `div`, `ash`, `ashc`). MFPI and MTPI have the codes
//!   of MOV.
//! - A sum is exact with C as the bit above the word, and a comparison orders its operands
//!   (`sums_are_exact`, `comparisons_order_operands`). V is set exactly if the signed result does
//!   not fit (`overflow_marks_wrong_signed_results`).
//! - A product is exact. Each division has one quotient and one remainder, and DIV gives them
//!   (`products_are_exact`, `quotients_are_unique`, `divisions_are_exact`).
//! - Shifts to the right divide by powers of 2; shifts to the left multiply by them while V is
//!   clear (`shifts_to_the_right_divide`, `shifts_to_the_left_multiply`).
//! - Logic goes bit by bit, and the codes tell of the value (`logic_goes_bit_by_bit`,
//!   `codes_tell_of_the_value`).
//!
//! Where operands come from and where a value goes is left to pdp_operand, when codes are stored to
//! pdp_instruction.
#![tactic(auto)]

mod arithmetic;
mod arithmetic_shifts;
mod bytes;
mod division;
mod effect;
mod extended_laws;
mod laws;
mod logic;
mod long;
mod moves;
mod multiplication;
mod operand;
mod quotient;
mod shifting;
mod shifts;
mod single_operand;

pub use arithmetic::{add, cmp, sub};
pub use arithmetic_shifts::{ash, ashc};
pub use bytes::{swab, sxt};
pub use division::div;
pub use effect::Effect;
pub use extended_laws::{
    divisions_are_exact, products_are_exact, quotients_are_unique, shifts_to_the_left_multiply,
    shifts_to_the_right_divide,
};
pub use laws::{
    carries_run_on, codes_tell_of_the_value, comparisons_order_operands,
    complements_and_negatives_undo_themselves, differences_are_exact, logic_goes_bit_by_bit,
    overflow_marks_wrong_signed_results, rotations_undo_each_other, shifts_halve_and_double,
    sums_are_exact, swaps_undo_themselves,
};
pub use logic::{bic, bis, bit, xor};
pub use long::{LongEffect, high_word, join_words, low_word};
pub use moves::mov;
pub use multiplication::mul;
pub use operand::cut;
pub use pdp_word::{Codes, Size};
pub use quotient::Div;
pub use shifts::{asl, asr, rol, ror};
pub use single_operand::{adc, clr, com, dec, inc, neg, sbc, tst};
