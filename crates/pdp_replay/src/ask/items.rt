ghost use Rattle.std.specs.Prelude.{◌≡◌, ◌+◌, ◌≤◌, ◌++◌, length, option_to_list, IfOk, OnOk};
ghost use Rattle.pdp_cpu.specs.KeptTexts.{without_turns};
ghost use Rattle.pdp_replay.specs.Ask.Answer.{words_from};
ghost use Rattle.pdp_replay.specs.Run.States.{disk_of};

use pdp_cpu::{KeptByte, PagedMachine};
use pdp_word::NoMemory;
use std::alloc::Global;
use std::marker::Model;

/// The most words that a question may ask for, or that are listed of those that it finds.
pub(crate) const MOST_WORDS: u32 = 256;

/// Words, bytes or numbers of an answer, one after another [P]. A contract sees the list of them.
#[derive(Drop)]
pub struct Items<T> {
    items: Vec<T>,
}

/// Words of core or of a drive, in the order of their addresses or numbers.
pub type Words = Items<u16>;

/// Bytes that the machine printed or punched, in the order in which they came out.
pub type Bytes = Items<u8>;

impl<T> Model for Items<T> {
    ghost use Rattle.std.specs.Prelude.{List};

    ghost Value = { List T };

    ghost view = { λ i. i.items.items };
}

impl<T> Items<T> {
    /// These, in their order.
    pub(crate) fn of(items: Vec<T>) -> Items<T>
        ensures { result ≡ items.items }
    {
        Items { items }
    }

    /// The words, bytes or numbers, in their order [P].
    pub fn items(&self) -> &[T]
        ensures { result.now ≡ self.now }
    {
        self.items.as_slice()
    }
}

/// Adds an item, if there is one.
pub(crate) fn add_if_there<T: Drop>(items: &mut Vec<T>, item: Option<T>) -> Result<(), NoMemory>
    ensures length { OnOk result (length items.new.items ≤ length items.old.items + 1) }
    ensures items { OnOk result (items.new.items ≡ items.old.items ++ option_to_list item) }
{
    if let Some(item) = item {
        items.push(item)?;
    }
    Ok(())
}

/// `count` words of the machine's core, from the word of the number `first` on.
///
/// Err if there is no memory for them.
#[tactic(auto, using(crate::proofs::past::Lists::words_one_more))]
pub(crate) fn read_core(
    alloc: Global,
    machine: &PagedMachine,
    first: u32,
    count: u32,
) -> Result<Words, NoMemory>
    requires { first + count ≤ length machine.now.state.world.bus.core }
    ensures { IfOk result (λ words. words
        ≡ words_from first count machine.now.state.world.bus.core) }
{
    let first = first as usize;
    let count = count as usize;
    let mut items = Vec::with_capacity(alloc, count)?;
    for index in 0..count {
        items.push(machine.word(first + index))?;
    }
    Ok(Items { items })
}

/// `count` words of a drive of the machine, from its word `first` on (both numbers from 0).
///
/// Err if there is no memory for them.
#[tactic(auto, using(crate::proofs::past::Lists::words_one_more))]
pub(crate) fn read_disk(
    alloc: Global,
    machine: &PagedMachine,
    drive: u8,
    first: u32,
    count: u32,
) -> Result<Words, NoMemory>
    requires { first + count ≤ length (disk_of machine.now.state.world drive) }
    ensures { IfOk result (λ words. words
        ≡ words_from first count (disk_of machine.now.state.world drive)) }
{
    let drive = usize::from(drive);
    let first = first as usize;
    let count = count as usize;
    let mut items = Vec::with_capacity(alloc, count)?;
    for index in 0..count {
        items.push(machine.disk_word(drive, first + index))?;
    }
    Ok(Items { items })
}

/// These bytes, without their turns.
///
/// Err if there is no memory for them.
#[tactic(auto, using(crate::proofs::past::Lists::bytes_one_more))]
pub(crate) fn read_bytes(alloc: Global, kept: &[KeptByte]) -> Result<Bytes, NoMemory>
    ensures { IfOk result (λ bytes. bytes ≡ without_turns kept.now) }
{
    let mut items = Vec::with_capacity(alloc, kept.len())?;
    for index in 0..kept.len() {
        items.push(kept[index].byte)?;
    }
    Ok(Items { items })
}
