//! The paper tape of the PDP-11/40 (PC11): its reader and its punch. It stands on pdp_word and
//! pdp_device.
//! Of the handbook's devices PC11 is here, KL11 and KW11-L in pdp_console, RK11 in pdp_rk11.
//!
//! # What is proved
//!
//! - `Pc11`: for each register what a read shows and leaves and what a write leaves; what a
//!   completion of the reader or of the punch and RESET do.
//! - The reader's request appears if its condition comes to hold, and at a go that finds error and
//!   sets enable (`reader_requests_appear_on_a_rise`).
//! - Go while the reader is busy changes nothing but enable
//!   (`go_while_busy_changes_nothing_but_enable`).
//! - A read gives the tape's next byte, and error past the tape's end
//!   (`a_tape_is_read_to_its_end`).
//!
//! The addresses, how a byte is written to a register and which request is served are left to
//! pdp_io_page, the tape itself and when an operation completes to pdp_unibus.
#![tactic(auto)]

mod bits;
mod laws;
mod pc11;
mod reader;

pub use laws::{
    a_tape_is_read_to_its_end, go_while_busy_changes_nothing_but_enable,
    reader_requests_appear_on_a_rise,
};
pub use pc11::{Pc11, Pc11Register};
pub use reader::Reader;
