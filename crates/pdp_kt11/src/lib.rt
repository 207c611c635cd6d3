//! Memory management of the PDP-11/40, the KT11-D: processor modes, pages and their registers, and
//! the physical address of a virtual one. It stands on pdp_word.
//!
//! # What is proved
//!
//! - Each access, in each mode and whatever the registers hold, has its physical address, or aborts
//!   by the first test that fails, with W and SR0 after it (`Kt::place`, `Mode::of_bits`).
//! - What a fetch, a read and a write of each register and RESET do (`Kt::fetched`, `read_reg`,
//!   `write_reg`, `reset`, `KtRegister::at`). Registers read back what they keep of a word
//!   (`registers_read_back`).
//! - While mapping is off, addresses go by the rule without mapping (`mapping_off_is_the_old_rule`,
//!   `unmapped`).
//! - Pages whose addresses do not pass 18 bits and that do not overlap never share a word
//!   (`disjoint_pages_never_meet`).
//! - Nothing is written through a read-only page (`read_only_pages_are_never_written`).
//! - W of a page is set exactly if a write went through the page since one of its two registers was
//!   last written, or since power-up (`written_bits_tell_the_truth`).
//! - SR0 tells the first abort and no other, and an abort leaves the pages
//!   (`the_first_abort_is_told`, `aborts_leave_the_pages`).
//!
//! - Which translations are kept changes no address, abort or register: a public contract sees the
//!   registers alone, and that each kept translation is right is an invariant of `Kt`.
//! - An access with mapping on that isn't aborted leaves the translation of its page kept, and of
//!   other pages what was kept; a write to a register and RESET leave none (`KeptMapping`, which
//!   only this crate sees).
//!
//! # What is only tested
//!
//! - That `Kt` tells it: its contracts don't say that its functions call those of `KeptMapping`
//!   (`Kt::held`).
//!
//! The reference itself, its odd addresses and its trap are left to pdp_operand, the bus cycle to
//! pdp_unibus.
#![tactic(auto)]

mod apr;
mod bits;
mod kept_mapping;
mod kept_translation;
mod kt;
mod laws;
mod mode;
mod place;
mod register;
mod registers;
mod status;

pub use apr::{AccessControl, Apr, Expansion, PageNumber, Space};
pub use kt::Kt;
pub use laws::{
    aborts_leave_the_pages, disjoint_pages_never_meet, mapping_off_is_the_old_rule,
    read_only_pages_are_never_written, registers_read_back, the_first_abort_is_told,
    written_bits_tell_the_truth,
};
pub use mode::Mode;
pub use place::{Abort, Access, unmapped};
pub use register::KtRegister;
pub use registers::MappingRegisters;
pub use status::MappingStatus;
