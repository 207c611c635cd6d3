//! The console of the PDP-11/40: the terminal (KL11), with its keyboard and its printer, and the
//! line clock (KW11-L). It stands on pdp_word and pdp_device.
//! Of the handbook's devices KL11 and KW11-L are here, PC11 in pdp_tape, RK11 in pdp_rk11.
//!
//! # What is proved
//!
//! - `Kl`, the terminal: for each register what a read shows and leaves and what a write leaves;
//!   what a key, a completion of the printer and RESET do.
//! - A key sets done, a read of the buffer clears it, and nothing else that is done to a register
//!   changes done or the key (`keys_set_done_and_reads_clear_it`).
//! - `Kw`, the clock: a tick requests exactly if enable is set, and no write does
//!   (`ticks_request_where_enabled`).
//!
//! The addresses, how a byte is written to a register and which request is served are left to
//! pdp_io_page, when the printer completes and the clock ticks to pdp_unibus.
#![tactic(auto)]

mod bits;
mod keyboard;
mod kl;
mod kw;
mod laws;

pub use keyboard::Keyboard;
pub use kl::{Kl, KlRegister};
pub use kw::Kw;
pub use laws::{keys_set_done_and_reads_clear_it, ticks_request_where_enabled};
