//! The machine of the PDP-11/40: one whole turn of it, and what is saved and shown of it. It stands
//! on pdp_instruction, pdp_operand, pdp_unibus and what is below these.
//!
//! # What is proved
//!
//! - A turn takes the machine to the next state of its definition, for every store of core and of
//!   the drives: its events, and then what is due (a trap, an interrupt, an instruction or
//!   nothing), with the plans of pdp_instruction. It tells with which act it began, and the meter
//!   counts it (`Machine::turn`, `ready`). The vector of the turn's trap can be told too
//!   (`Machine::turn_and_tell`), and so can the disk's controller when the turn has begun
//!   (`Machine::turn_and_tell_disk`). The turn is the same whatever else runs its act
//!   (`Machine::turn_by`, [`RunsAct`]).
//! - A burst of n turns of a calm machine is n turns of the definition without events, each of them
//!   an instruction that leaves the drives, and the meter counts n (`Machine::run_calmly`). A burst
//!   with an end runs only turns before which that lets it pass (`run_calmly_while`, [`BurstEnd`]):
//!   up to an address it runs no turn that begins with PC there (`run_calmly_before`), and up to a
//!   write to a word of core no turn after the first that writes it (`run_calmly_to_write`).
//! - A turn touches the page of every word that it reads, writes, moves or compares, in core and on
//!   the drives: the first touches after it are those before it with its trace (`Machine::turn`).
//!   A load leaves them; `first` returns the first touch of a page, and `forget` drops late ones.
//! - A turn has at most 32 phases (`turns_end_within_32_phases`).
//! - Stamps are the last writes of the trace, in which are the accesses of the processor and those
//!   of the disk (`stamps_are_last_writes`, `touches_are_of_their_turn`). A turn does the same
//!   whatever stamps there are (`stamps_disturb_nothing`).
//! - A machine can keep a log of the bus cycles of its processor (`Machine::logging`, `cycles`,
//!   `unlogged`). It then does the same as without a log (`logs_disturb_nothing`).
//! - A turn that never touches a page of core or of a drive does the same whatever the page has,
//!   and leaves the page (`turns_leave_what_they_never_touch`).
//! - The processor of a halted machine stays until `continue`, and so do core and the drives if
//!   nothing is under way on the disk (`halted_machines_stay`).
//! - What was printed and punched is kept, byte by byte, with the turn of each. A load makes a
//!   machine the one that was saved, on the tape that it then has (`PagedMachine::save`, `load`,
//!   `keep_text`, `set_tape`, `Saved::set_delays`). A page with one word changed is put into each
//!   saved machine that has this page alike (`Saved::patched_page`, `new_pages`, `put_pages`).
//! - Drives are added after those of the machine, with their first touches, or the last ones
//!   removed, and all else stays (`Machine::add_drives`, `keep_drives`).
//! - What is read of a machine (`text`, `punched`, `devices`, `pages`).
//!
//! What an instruction and the sequence of a trap do is left to pdp_instruction, which events a
//! turn has, and how many turns are run, to pdp_replay.
#![tactic(auto)]

mod act;
mod burst_end;
mod calm_turns;
mod drives;
mod due;
mod kept_text;
mod laws;
mod logging;
mod machine;
mod meter;
mod regs;
mod saved;
mod take_due;
mod touched_pages;
mod turn_by;
mod turn_disk;
mod turn_trap;

pub use act::Act;
pub use burst_end::{AtTurn, BeforeAddress, BurstEnd};
pub use kept_text::KeptByte;
pub use laws::{
    halted_machines_stay, logs_disturb_nothing, stamps_are_last_writes, stamps_disturb_nothing,
    touches_are_of_their_turn, turns_end_within_32_phases, turns_keep_the_size_of_core,
    turns_keep_the_sizes_of_drives, turns_keep_the_tape, turns_leave_what_they_never_touch,
};
pub use machine::Machine;
pub use meter::Meter;
pub use pdp_kt11::Mode;
pub use pdp_operand::RunState;
pub use pdp_quick::{Computer, WordTable};
pub use pdp_unibus::{DeviceRegisters, LAST_TURN, PageRegisters};
pub use regs::Regs;
pub use saved::{PagedMachine, Saved, SavedOutput};
pub use turn_by::RunsAct;
pub use turn_disk::ActWithDisk;
pub use turn_trap::ActWithTrap;
