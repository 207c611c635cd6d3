//! The Unibus of the PDP-11/40: bus cycles over core and the registers of the I/O page, and the
//! beginning of a turn with its events, ticks and completions. It stands on pdp_word, pdp_store,
//! pdp_icache, the device crates and pdp_io_page.
//!
//! # What is proved
//!
//! - One bus cycle has the value and the effect of its definition, or times out and changes nothing
//!   (`Bus::read`, `write`, `write_byte`, `timeouts_change_nothing`), for every store of core and
//!   of the drives.
//! - The beginning of a turn: its events, a tick, the completions that are due, and the bytes that
//!   come out of it (`Bus::events`, `begin_quietly`). A byte comes out exactly as its operation
//!   ends, which is in the turn in which it is due unless its event or RESET ended it before
//!   (`bytes_come_out_as_operations_end`, `operations_end_when_due`). A read takes the tape's next
//!   byte (`reads_take_the_next_byte`). A key waits until it is read, and is read once
//!   (`keys_wait_and_are_read_once`). What a beginning will find of the tape, of the reader and of
//!   the disk can be told before it (`Bus::bytes_read`, `reader_operation`, `disk_moves`).
//! - The requests of keyboard, printer, punch and disk are there exactly by their one rule
//!   (`requests_go_by_the_rule`). The bus chooses and serves them, and does RESET, as its I/O page
//!   does (`Bus::choose`, `serve`, `reset`).
//! - A register that is read or written leaves every device but its own, and an event every device
//!   but the one to which it happens (`devices_change_alone`).
//! - What is read of the registers without the effect of a read (`Bus::devices`, `pages`), and by
//!   which name each one of a device is shown (`DeviceRegisters::name`).
//! - The address of a reference by the mapping registers (`Bus::place`, `fetched`).
//! - What is fetched as an instruction is the decoding of what a read gives, with the effects of
//!   the read (`Bus::instr`, `decoded`). That each kept line is the decoding of core now is an
//!   invariant of `Bus`, so no write to core can forget it.
//! - Each bus cycle and each completion of the disk touches the pages of the words that it reads or
//!   writes. So does a fetch whose line is at hand (`Bus::kept_decoded`). The first touch of a page
//!   of core or of a drive is the least turn of its touches that were not forgotten (`Bus::first`,
//!   `forget`).
//! - An access that goes to core and changes no mapping register: a read gives the word or byte and
//!   leaves the bus, as its page was touched before; a write leaves what a bus cycle leaves. One
//!   that isn't so does nothing (`Bus::core_word`, `core_byte`, `write_core`, `write_core_byte`, and
//!   `write_core_pair` for two words).
//! - If core keeps a log, each cycle of the processor is added to it: those of core, of registers,
//!   and those that time out (`Bus::logging`, `cycles`, `unlogged`). A read that goes to core
//!   changes nothing only where no log is kept.
//! - Up to which turn the bus is calm, so that nothing comes between instructions (`calm_until`).
//! - What is saved of a bus is all of it except the tape's bytes and the first touches; a load
//!   makes the bus that again, with the tape and the first touches that it then has (`Bus::save`,
//!   `load`, `set_tape`, `SavedBus::set_delays`). A page with one word changed is made for all
//!   saved buses that have it alike, and put into each (`patched_page`, `new_pages`, `put_pages`).
//! - Drives are added after those of the bus, with their first touches, or the last ones removed,
//!   and all else stays (`Bus::add_drives`, `keep_drives`).
//!
//! Who owns an address outside core is left to pdp_io_page, references and their traps to
//! pdp_operand, interrupts and `Continue` to pdp_cpu.
#![tactic(auto)]

mod before_beginning;
mod beginning;
mod bus;
mod cycles;
mod direct;
mod drives;
mod event;
mod known;
mod last_turn;
mod laws;
mod logging;
mod register_cycles;
mod save;
mod show;
mod tape;
mod touched_pages;

pub use beginning::Output;
pub use bus::{Aborted, Bus, Timeout};
pub use direct::AddressedWord;
pub use event::Event;
pub use last_turn::LAST_TURN;
pub use laws::{
    bytes_come_out_as_operations_end, devices_change_alone, keys_wait_and_are_read_once,
    operations_end_when_due, reads_take_the_next_byte, requests_go_by_the_rule,
    timeouts_change_nothing,
};
pub use save::{NewPages, PatchedPage, SavedBus, SavedTouches};
pub use show::{DeviceRegisters, PageRegisters, SHOWN_REGISTERS};
