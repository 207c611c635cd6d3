ghost use Rattle.std.specs.Prelude.{◌≡◌, ◌+◌, ◌<◌, ◌≤◌, ℕ, length, min, max};
ghost use Rattle.std.specs.Prelude.{◌-◌, ◌*◌, ◌/◌, IfOk, IsErr, Ok, OnOk, false, take};
ghost use Rattle.pdp_replay.specs.Past.{Past};
ghost use Rattle.pdp_replay.specs.Run.KeptRuns.{resumed_turn, Advances, ArrivesAt, CanGoOn, GoesOn};
ghost use Rattle.pdp_replay.specs.Run.KeptRuns.{IsKeptRun, KeepsRun, LeavesKept};
ghost use Rattle.pdp_script.specs.Refusal.{for_memory, question_answer, result_map};
ghost use Rattle.pdp_replay.specs.Past.Setup.{SetupData};
ghost use Rattle.pdp_replay.specs.Ask.Known.{LeavesPast, RunsFrom};
ghost use Rattle.pdp_replay.specs.Ask.Searches.{IsWithinSearch};
ghost use Rattle.pdp_replay.specs.Ask.Told.{IsAtTurn, IsToldOf};
ghost use Rattle.pdp_replay.specs.Ask.Writes.{turn_after_write, turn_listed, writes_checked};
ghost use Rattle.pdp_replay.specs.Ask.Writes.{writes_in_turns, AreWritesFrom, CanList, CanSearch};
ghost use Rattle.pdp_replay.specs.Ask.Writes.{IsNextWriteTo, IsWriteFound};

use crate::ask::items::add_if_there;
use crate::ask::search::{check_search, search};
use crate::ask::watch::Watchpoint;
use crate::ask::{LastWrite, Told};
use crate::engine::Engine;
use crate::past::{UNIT_WORDS, core_word};
use crate::run::KeptRun;
use pdp_cpu::PagedMachine;
use pdp_script::{Fault, Script};
use pdp_unibus::LAST_TURN;
use pdp_word::NoMemory;
use std::alloc::Global;

/// The most writes that are listed.
const MOST_WRITES: usize = 256;

/// What a search for writes found.
#[derive(Drop)]
pub struct Written {
    /// The writes, in their order, at most 256: of each turn the last.
    pub writes: Vec<LastWrite>,
    /// The turn before which every turn was searched: the turn after that of the 256th write, or
    /// `to` if there are fewer writes. If it is before `to`, later writes may follow, and a search
    /// from it on lists them.
    pub reached: u32,
}

impl Engine {
    /// The writes to the core word at this address (octal, bytes, even) in the turns from turn
    /// `from` on and before turn `to`, in their order: of each turn that writes the word the last
    /// write, with the word as it is after the turn. At the end of the turn of the 256th write the
    /// search ends.
    ///
    /// Err(TurnTooLarge) if a turn is above 1,000,000,000; otherwise Err(CountOutOfRange) if `from`
    /// is above `to`; otherwise Err(OutsideCore) if the address is not in core; otherwise
    /// Err(OddAddress) if it is odd; otherwise Err(NoMemory) if memory was refused. No refusal
    /// changes the past, and one for another cause than memory changes nothing. [P]
    pub fn writes(
        &mut self,
        alloc: Global,
        address: u32,
        from: u32,
        to: u32,
    ) -> Result<Told<Written>, Fault>
        ensures refusal { result_map (λ _. tt) result ≡ question_answer
            (writes_checked address from to self.old.past.setup) (for_memory result) }

        // The first 256 of all writes in these turns.
        ensures value { IfOk result (λ found. found.value.writes.items ≡ take MOST_WRITES
            (writes_in_turns self.old.past (address / 2) from (to - from))) }

        // It ran at most one stride of turns more than those searched or past what was known, also
        // if it is then refused.
        ensures bound { IsWithinSearch from self.old self.new }

        // What it leaves is what a question about turn `to` leaves, and it goes on from where a
        // question about turn `from` does. It ends at the turn after the 256th write, or at `to`.
        ensures leaves { LeavesPast to self.old self.new }
        ensures runs { writes_checked address from to self.old.past.setup ≡ Ok tt
            → RunsFrom from self.old self.new }
        ensures reached { IfOk result (λ found. found.value.reached
            ≡ turn_listed found.value.writes.items to) }
        ensures told { IfOk result (λ found. IsToldOf found self.old self.new) }
        ensures ends { IfOk result (λ found. IsAtTurn found.value.reached self.old self.new) }

        // A refusal for another cause than memory changes nothing.
        ensures refused { IsErr result → for_memory result ≡ false → self.new ≡ self.old }
    {
        let before = self.run.meter.count();
        let number = check_writes(self.base_setup.units, address, from, to)?;
        let found = find_writes(alloc, &mut self.run, &self.script, number, from, to);
        self.highest = self.highest.max(self.run.known);
        let writes = found?;
        let value = Written {
            writes,
            reached: self.run.machine.turns(),
        };
        Ok(Told::of(value, &self.run, before))
    }
}

/// The number of the core word at this address, if the turns from one on and before another can be
/// searched for writes to it.
pub(crate) fn check_writes(units: u8, address: u32, from: u32, to: u32) -> Result<usize, Fault>
    ensures refusal { (s : SetupData) → s.units ≡ units
        → writes_checked address from to s ≡ result_map (λ _. tt) result }
    ensures limit { OnOk result (to ≤ LAST_TURN) }
    ensures order { OnOk result (from ≤ to) }
    ensures number { IfOk result (λ number. number ≡ address / 2) }
    ensures below { IfOk result (λ number. number < units * UNIT_WORDS) }
{
    check_search(from, to)?;
    let number = core_word(units, address)?;
    Ok(number as usize)
}

/// Takes the machine to turn `from`, and from there to the end of the turn of the 256th write to
/// the core word of this number, or to turn `to`. Returns the writes.
///
/// Err if memory was refused; what was kept until then stays.
fn find_writes(
    alloc: Global,
    run: &mut KeptRun,
    script: &Script,
    number: usize,
    from: u32,
    to: u32,
) -> Result<Vec<LastWrite>, NoMemory>
    requires can { CanSearch number script.now run.old }
    requires order { from ≤ to }
    requires limit { to ≤ LAST_TURN }
    ensures writes { IfOk result (λ writes. (p : Past) → p.script ≡ script.now
        → IsKeptRun p run.old
        → writes.items ≡ writes_in_turns p number from (run.new.machine.state.turn - from)) }
    ensures ends { IfOk result (λ writes. run.new.machine.state.turn < to
        → MOST_WRITES ≤ length writes.items) }
    ensures end { IfOk result (λ writes. run.new.machine.state.turn ≡ turn_listed writes.items to) }
    ensures most { IfOk result (λ writes. length writes.items ≤ MOST_WRITES) }
    ensures least { OnOk result (from ≤ run.new.machine.state.turn) }
    ensures kept { KeepsRun script.now run.old run.new }
    ensures arrives { OnOk result (ArrivesAt run.new.machine.state.turn run.old run.new) }
    ensures advances { Advances (resumed_turn run.old from) to run.old run.new }
    ensures bound { run.new.meter + min from run.old.known + 1
        ≤ run.old.meter + max from run.new.machine.state.turn + run.old.ladder.stride }
{
    run.reach(alloc, script, from)?;
    list_writes(alloc, run, script, number, to)
}

/// Runs turns to the end of that of the 256th write to the core word of this number, or to turn
/// `to`. Returns the writes, and keeps what is to be kept of the turns.
///
/// Err if memory was refused; what was kept until then stays.
#[tactic(auto, using(crate::proofs::ask::ListedTurns::end_of_list))]
fn list_writes(
    alloc: Global,
    run: &mut KeptRun,
    script: &Script,
    number: usize,
    to: u32,
) -> Result<Vec<LastWrite>, NoMemory>
    requires ready { CanGoOn run.old }
    requires can { CanList number script.now run.old }
    requires order { run.old.machine.state.turn ≤ to }
    requires limit { to ≤ LAST_TURN }
    ensures writes { IfOk result (λ writes. AreWritesFrom script.now number
        run.new.machine.state.turn run.old writes.items) }
    ensures ends { IfOk result (λ writes. run.new.machine.state.turn < to
        → MOST_WRITES ≤ length writes.items) }
    ensures end { IfOk result (λ writes. run.new.machine.state.turn ≡ turn_listed writes.items to) }
    ensures most { IfOk result (λ writes. length writes.items ≤ MOST_WRITES) }
    ensures least { OnOk result (run.old.machine.state.turn ≤ run.new.machine.state.turn) }
    ensures kept { LeavesKept script.now run.old run.new }
    ensures arrives { OnOk result (ArrivesAt run.new.machine.state.turn run.old run.new) }
    ensures advances { Advances run.old.machine.state.turn to run.old run.new }
{
    let mut writes = Vec::new(alloc);
    while run.machine.turns() < to && writes.len() < MOST_WRITES {
        let write = next_write(alloc, run, script, number, to)?;
        add_if_there(&mut writes, write)?;
    }
    Ok(writes)
}

/// Runs turns to the end of the first that writes the core word of this number, or to turn `to`.
/// Returns its last write to the word, and keeps what is to be kept of the turns.
///
/// Err if memory was refused; what was kept until then stays.
fn next_write(
    alloc: Global,
    run: &mut KeptRun,
    script: &Script,
    number: usize,
    to: u32,
) -> Result<Option<LastWrite>, NoMemory>
    requires ready { CanGoOn run.old }
    requires can { CanList number script.now run.old }
    requires order { run.old.machine.state.turn < to }
    requires limit { to ≤ LAST_TURN }
    ensures write { IfOk result
        (IsNextWriteTo run.new.machine.state.turn script.now number run.old) }
    ensures can { OnOk result (CanList number script.now run.new) }
    ensures on { OnOk result (run.old.machine.state.turn < run.new.machine.state.turn) }
    ensures kept { LeavesKept script.now run.old run.new }
    ensures way { OnOk result (GoesOn script.now run.old run.new) }
    ensures arrives { IfOk result (λ write. ArrivesAt (turn_after_write write to) run.old run.new) }
    ensures advances { Advances run.old.machine.state.turn to run.old run.new }
{
    let found = search(alloc, run, script, Watchpoint::Write { number }, to)?;
    Ok(write_found(found, &run.machine, number))
}

/// The last write to the core word of this number, if a turn that writes it was found.
fn write_found(found: Option<u32>, machine: &PagedMachine, number: usize) -> Option<LastWrite>
    requires inside { number < length machine.now.state.world.bus.core }
    ensures { IsWriteFound machine.now.state number found result }
{
    match found {
        Some(_) => LastWrite::read(machine, number),
        None => None,
    }
}
