//! The I/O page of the PDP-11/40: the registers of devices and of memory management, the program
//! status word, requests for interrupts, and when a device acts next. It stands on pdp_kt11 and the
//! device crates, and knows neither core nor the drives.
//!
//! # What is proved
//!
//! - Which register has an address, what a read of it gives and does, and what a write of a word or
//!   of a byte leaves (`register_at_address`, `IoPage::value`, `read`, `write`, `write_byte`).
//! - The I/O page at power-up, and what RESET leaves of it (`IoPage::at_power_up`, `reset`).
//! - Which request is chosen, and what serving it and RESET leave (`IoPage::choose`, `serve`,
//!   `the_first_request_is_chosen`, `requests_go_one_by_one_or_by_reset`).
//! - The program status word, what a write of it leaves, and that a word written to it reads back
//!   (`Status::word`, `of_word`, `written`, `status_reads_back`).
//! - Up to which turn no device acts but by events, and whether a source may request
//!   (`IoPage::watch`).
//!
//! What a register does and when a device requests is left to the device crates, bus cycles and the
//! beginning of a turn to pdp_unibus.
#![tactic(auto)]

mod bits;
mod delays;
mod device_table;
mod io_page;
mod laws;
mod priority;
mod register;
mod requests;
mod source;
mod status;
mod watch;

pub use delays::{DelayedDevice, Delays};
pub use io_page::{IoPage, with_byte};
pub use laws::{
    requests_go_one_by_one_or_by_reset, status_reads_back, the_first_request_is_chosen,
};
pub use priority::Priority;
pub use register::{Register, register_at_address};
pub use source::Source;
pub use status::Status;
pub use watch::Watch;
