//! The RK11 disk controller and its RK05 drives: registers, and the completion of each function as
//! one act. It stands on pdp_word, pdp_store and pdp_device.
//!
//! # What is proved
//!
//! - `Rk`: for each register what a read shows and what a write leaves; what RESET and serving do.
//! - `Rk::complete` is one equation over the registers, core with its stamps, and the words of each
//!   drive, whatever their lengths: the tests that forbid a function, the words that move or are
//!   compared, the zero fill, the errors, and where the registers are left.
//! - What a read and a write leave, word by word (`a_read_leaves_the_last_move`,
//!   `a_write_fills_with_zeros`). Words that are written come back when they are read
//!   (`what_is_written_and_read_back_is_the_same`). Checks change no word
//!   (`a_check_changes_no_word`).
//! - Every completion sets ready, and RKCS tells exactly if RKER has an error
//!   (`the_control_register_tells_the_end`).
//! - `Rk::complete` touches exactly the words of its trace, in its own turn: each word of core and
//!   of the drive that a read, a write or a write check moves or compares, each word of the drive
//!   that a read check reads, and each word of the zero fill. A refused function touches none.
//! - The controller before a completion and after it tells how many words the function moved or
//!   compared (`Rk::words_done`, `words_done_are_counted`).
//! - Which words a completion will move is told before it (`Rk::moves`).
//! - A completion does the same whatever last stamps core has (`stamps_disturb_no_completion`).
//!
//! Addresses, how a byte is written to a register and which request is served are left to
//! pdp_io_page, the drives themselves and when a function completes to pdp_unibus.
#![tactic(auto)]

mod bits;
mod completion;
mod disk_moves;
mod failure;
mod function;
mod geometry;
mod laws;
mod register;
mod rk;
mod transfer;
mod words_done;

pub use disk_moves::DiskMoves;
pub use failure::Failure;
pub use function::Function;
pub use laws::{
    a_check_changes_no_word, a_read_leaves_the_last_move, a_write_fills_with_zeros,
    stamps_disturb_no_completion, the_control_register_tells_the_end,
    what_is_written_and_read_back_is_the_same, words_done_are_counted,
};
pub use register::RkRegister;
pub use rk::{ControlWrite, Rk};
pub use transfer::Transfer;
