//! References and operands of the PDP-11/40, and the phases that define them: the processor's
//! registers, a reference by a virtual address over the bus, the eight addressing modes, the limit
//! of the kernel's stack, and what an operand reads and writes. It stands on pdp_unibus and what is
//! below it.
//!
//! # What is proved
//!
//! - The eight addressing modes, with the changes of registers, the references and the stack test
//!   that each makes (`address`, `lower`).
//! - What reading and writing an operand returns or traps with, whether a stack trap is then
//!   pending, and whether the write went to the program status word (`fetch`, `fetch_before_store`,
//!   `store`, `read_word` to `write_byte`).
//! - A reference is translated in the space of its mode, and then makes one bus cycle, or traps.
//! - A reference that memory management aborts changes no word of core, and neither does a write
//!   through a read-only page (`aborts_change_no_core_word`).
//! - A plan is the run of its phases (`plan_is_its_phases`).
//!
//! Where a virtual address goes is left to pdp_kt11, what an instruction does with its operands to
//! pdp_instruction.
#![tactic(auto)]

mod laws;
mod operand;
mod place;
mod processor;
mod reference;

pub use laws::{
    aborts_change_no_core_word, courses_leave_what_they_never_touch, plan_is_its_phases,
    stamps_of_courses_are_last_writes, touches_of_courses_are_of_their_turn,
};
pub use operand::{YELLOW_LIMIT, address, fetch, fetch_before_store, is_status, lower, store};
pub use pdp_action::Trap;
pub use place::{Cell, Fill, Place};
pub use processor::{Processor, RegisterId, RunState};
pub use reference::{read_byte, read_decoded, read_word, write_byte, write_word};
