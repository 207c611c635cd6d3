//! What the devices of the PDP-11/40 share: a ready/enable pair that requests interrupts, an
//! operation that takes its time, and a transmitter, which puts bytes out. It stands on pdp_word.
//! No device is here: KL11 and KW11-L are in pdp_console, PC11 in pdp_tape, RK11 in pdp_rk11.
//!
//! # What is proved
//!
//! - When the request of a device appears and goes (`request_after`).
//! - `ReadyEnable`: ready, enable and the request of a device. The request appears exactly if ready
//!   and enable come to be both set; once served it stays away as long as they are
//!   (`requests_appear_on_a_rise`).
//! - `Operation`: it is due in the turn that its delay says, and in no other
//!   (`completions_come_in_their_turn`).
//! - `Transmitter`, which is both the printer and the punch: of the bytes that are written while
//!   one is on its way the last comes out, once (`a_byte_comes_out_once`).
//!
//! Whose ready/enable pair or transmitter it is, its addresses, its vector and when it completes
//! are left to the crates above.
#![tactic(auto)]

mod bits;
mod laws;
mod operation;
mod ready_enable;
mod request;
mod transmitter;

pub use bits::{STATUS_ENABLE, STATUS_READY};
pub use laws::{a_byte_comes_out_once, completions_come_in_their_turn, requests_appear_on_a_rise};
pub use operation::Operation;
pub use ready_enable::ReadyEnable;
pub use request::request_after;
pub use transmitter::{Transmitter, TransmitterRegister};
