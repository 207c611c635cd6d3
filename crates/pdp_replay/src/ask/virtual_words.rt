ghost use Rattle.std.specs.Prelude.{◌≡◌, ◌+◌, ◌*◌, ◌≤◌, length, IfOk, OnOk};
ghost use Rattle.pdp_unibus.specs.Handbook.Cycle.{slave_at};
ghost use Rattle.pdp_replay.specs.Ask.VirtualReads.{core_word_of, place_of_read, virtual_addresses};
ghost use Rattle.pdp_replay.specs.Ask.VirtualReads.{virtual_checked, virtual_word, virtual_words};

use crate::ask::Words;
use crate::ask::items::{Items, MOST_WORDS};
use pdp_cpu::PagedMachine;
use pdp_io_page::register_at_address;
use pdp_kt11::{Abort, Access, Kt, Mode};
use pdp_script::Fault;
use pdp_word::NoMemory;
use std::alloc::Global;

/// How many virtual addresses (bytes) there are.
const VIRTUAL_ADDRESSES: u32 = 0o200000;

/// Words at virtual addresses, one after another, as an instruction of a mode would read them [P].
#[derive(Clone, Copy)]
pub struct VirtualWords {
    pub mode: Mode,
    /// The virtual address of the first (octal, bytes, even).
    pub address: u16,
    /// How many words (1 to 256, the last at address 177776 at most).
    pub count: u32,
}

/// Why a word at a virtual address can't be read off the machine [P].
#[derive(Clone, Copy, Debug, PartialEq, Eq)]
pub enum Cause {
    /// Memory management doesn't let the read through.
    Abort(Abort),
    /// Neither a word of core nor a register has the physical address: a bus cycle would time out.
    Timeout,
    /// A register of a device or of the processor has the physical address: it isn't memory, and a
    /// read of it may have an effect.
    Device,
}

/// The first of some words that can't be read [P].
#[derive(Clone, Copy)]
pub struct Unreadable {
    /// Its virtual address (octal, bytes).
    pub address: u16,
    pub cause: Cause,
}

/// Whether these words can be asked for.
///
/// Err(CountOutOfRange) if the count is not 1 to 256, or a word would be past address 177776
/// (octal); else Err(OddAddress) if the address is odd.
#[tactic(auto, unfolding(crate::specs::Ask::VirtualReads::virtual_checked))]
pub(crate) fn check_virtual(words: VirtualWords) -> Result<(), Fault>
    ensures refusal { virtual_checked words ≡ result }
    ensures within { OnOk result (words.address + 2 * words.count ≤ virtual_addresses) }
{
    if words.count < 1 || words.count > MOST_WORDS {
        return Err(Fault::CountOutOfRange);
    }
    let end = u32::from(words.address) + 2 * words.count;
    if end > VIRTUAL_ADDRESSES {
        return Err(Fault::CountOutOfRange);
    }
    if words.address % 2 != 0 {
        return Err(Fault::OddAddress);
    }
    Ok(())
}

/// The physical byte address (18 bits) of a virtual byte address in a mode, for a read, by the
/// mapping registers of the machine, which stay.
///
/// Err if memory management doesn't let the read through.
pub(crate) fn place_of_read(machine: &PagedMachine, mode: Mode, address: u16) -> Result<u32, Abort>
    ensures { result ≡ place_of_read mode address machine.now.state.world.bus }
{
    let mut mapping = Kt::over(machine.mapping_registers());
    mapping.place(mode, address, Access::Read)
}

/// These words of the machine, or the first that can't be read.
///
/// Err if there is no memory for them.
#[tactic(auto, using(crate::proofs::ask::VirtualReads::no_words))]
pub(crate) fn read_virtual(
    alloc: Global,
    machine: &PagedMachine,
    words: VirtualWords,
) -> Result<Result<Words, Unreadable>, NoMemory>
    requires within { words.address + 2 * words.count ≤ virtual_addresses }
    ensures { IfOk result (λ read. read ≡ virtual_words words.mode words.address words.count
        machine.now.state.world.bus) }
{
    let mut items = Vec::with_capacity(alloc, words.count as usize)?;
    for index in 0..words.count {
        let address = (u32::from(words.address) + 2 * index) as u16;
        match virtual_word(machine, words.mode, address) {
            Ok(word) => items.push(word)?,
            Err(cause) => return Ok(Err(Unreadable { address, cause })),
        }
    }
    Ok(Ok(Items::of(items)))
}

/// The word of core at a virtual address in a mode.
///
/// Err if no word of core can be read there.
#[tactic(auto, unfolding(crate::specs::Ask::VirtualReads::virtual_word))]
fn virtual_word(machine: &PagedMachine, mode: Mode, address: u16) -> Result<u16, Cause>
    ensures { result ≡ virtual_word mode address machine.now.state.world.bus }
{
    match place_of_read(machine, mode, address) {
        Ok(physical) => core_word_at(machine, physical),
        Err(abort) => Err(Cause::Abort(abort)),
    }
}

/// The word of core at a physical byte address.
///
/// Err if no word of core has the address.
fn core_word_at(machine: &PagedMachine, physical: u32) -> Result<u16, Cause>
    ensures { result ≡ core_word_of
        (slave_at (length machine.now.state.world.bus.core) physical)
        machine.now.state.world.bus }
{
    let number = physical as usize / 2;
    if number < machine.core_len() {
        return Ok(machine.word(number));
    }
    match register_at_address(physical) {
        Some(_) => Err(Cause::Device),
        None => Err(Cause::Timeout),
    }
}
