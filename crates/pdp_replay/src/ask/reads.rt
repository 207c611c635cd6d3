//! The reads of a word of core in some turns.

ghost use Rattle.std.specs.Prelude.{◌≡◌, ◌+◌, ◌-◌, ◌*◌, ◌/◌, ◌<◌, ◌≤◌, length, max, min, take};
ghost use Rattle.std.specs.Prelude.{false, option_map, slice_get, IfOk, IsErr, OnOk};
ghost use Rattle.pdp_store.specs.CycleLogs.{without_cycles};
ghost use Rattle.pdp_script.specs.Refusal.{for_memory, question_answer, result_map};
ghost use Rattle.pdp_replay.specs.Past.{Past};
ghost use Rattle.pdp_replay.specs.Run.Branches.{IsKeptOfSize, IsLookedAt, IsRunOfSize};
ghost use Rattle.pdp_replay.specs.Run.KeptRuns.{KeepsRun, MetersTurns};
ghost use Rattle.pdp_replay.specs.Ask.Known.{IsWithinBound, LeavesPast};
ghost use Rattle.pdp_replay.specs.Ask.Searches.{EndsAfter};
ghost use Rattle.pdp_replay.specs.Ask.Told.{IsToldOf};
ghost use Rattle.pdp_replay.specs.Ask.Writes.{writes_checked};
ghost use Rattle.pdp_replay.specs.Ask.Reads.{is_read_by_disk, is_spanned, log_of_first_read};
ghost use Rattle.pdp_replay.specs.Ask.Reads.{processor_read, read_in, reads_core, reads_end};
ghost use Rattle.pdp_replay.specs.Ask.Reads.{reads_in_turns, words_spanned};
ghost use Rattle.pdp_replay.specs.Ask.Reads.{AreReadsFrom, GoesOnLogging, IsLoggedState};
ghost use Rattle.pdp_replay.specs.Ask.Reads.{RunsLogging};

use crate::ask::Told;
use crate::ask::disk_completions::DiskTurn;
use crate::ask::items::add_if_there;
use crate::ask::writes::check_writes;
use crate::engine::Engine;
use crate::past::{BaseSetup, UNIT_WORDS};
use crate::run::{KeptRun, LoggedBranch};
use pdp_cpu::Meter;
use pdp_rk11::Function;
use pdp_script::{Fault, Script};
use pdp_store::{Agent, BusCycle, CycleLog};
use pdp_unibus::LAST_TURN;
use pdp_word::NoMemory;
use std::alloc::Global;

/// The most reads that are listed.
const MOST_READS: usize = 256;

/// How many byte addresses the bus has: those of a transfer go on at 0 after the last.
const PHYSICAL_ADDRESSES: u32 = 0o1000000;

/// A read of a word of core [P].
#[derive(Clone, Copy)]
pub struct WordRead {
    /// The turn of the read, counted from 0 at power-up.
    pub turn: u32,
    /// Who read: the processor, or the disk in a transfer.
    pub agent: Agent,
    /// The word that was read.
    pub word: u16,
}

/// What a search for reads found.
#[derive(Drop)]
pub struct ReadsFound {
    /// The reads, in their order, at most 256: of each turn the first.
    pub reads: Vec<WordRead>,
    /// The turn before which every turn was searched: the turn after that of the 256th read, or
    /// `to` if there are fewer. If it is before `to`, later reads may follow, and a search from it
    /// on lists them.
    pub reached: u32,
}

/// Whether the function reads words of core.
///
/// PDP-11 Peripherals Handbook, RK11.
fn reads_core(function: Function) -> bool
    ensures { result ≡ reads_core function }
{
    function == Function::Write || function == Function::WriteCheck
}

impl DiskTurn {
    // How many words of core from the first on the function that was completed moved or compared.
    fn words_spanned(&self) -> u32
        ensures { result ≡ words_spanned self.now }
    {
        let done = self.after.words_done(&self.before);
        if self.before.no_increment {
            done.min(1)
        } else {
            done
        }
    }

    // Whether the core word of this number is among these.
    fn is_spanned(&self, number: usize) -> bool
        ensures { result ≡ is_spanned number self.now }
    {
        let first = (self.before.address % PHYSICAL_ADDRESSES / 2) as usize;
        first <= number && number < first + self.words_spanned() as usize
    }

    // Whether the disk read the core word of this number as the turn began.
    fn is_read_by_disk(&self, number: usize) -> bool
        ensures { result ≡ is_read_by_disk number self.now }
    {
        self.has_completion() && reads_core(self.before.function) && self.is_spanned(number)
    }
}

/// The read that a bus cycle of the processor in this turn was, if there is one.
fn processor_read(turn: u32, cycles: &[BusCycle]) -> Option<WordRead>
    ensures { result ≡ processor_read turn (slice_get cycles.now 0) }
{
    let word = cycles.first()?.value?;
    Some(WordRead {
        turn,
        agent: Agent::Cpu,
        word,
    })
}

impl Engine {
    /// The reads of the core word at this address (octal, bytes, even) in the turns from turn
    /// `from` on and before turn `to`, in their order: of each turn the first read, with the word
    /// that was read. A read of one of its bytes counts, and so does a fetch of an instruction. At
    /// the end of the turn of the 256th read the search ends.
    ///
    /// Err(TurnTooLarge) if a turn is above 1,000,000,000; otherwise Err(CountOutOfRange) if `from`
    /// is above `to`; otherwise Err(OutsideCore) if the address is not in core; otherwise
    /// Err(OddAddress) if it is odd; otherwise Err(NoMemory) if memory was refused. No refusal
    /// changes the past, and one for another cause than memory changes nothing. [P]
    pub fn reads(
        &mut self,
        alloc: Global,
        address: u32,
        from: u32,
        to: u32,
    ) -> Result<Told<ReadsFound>, Fault>
        ensures refusal { result_map (λ _. tt) result ≡ question_answer
            (writes_checked address from to self.old.past.setup) (for_memory result) }

        // The first 256 of all reads in these turns.
        ensures value { IfOk result (λ found. found.value.reads.items ≡ take MOST_READS
            (reads_in_turns self.old.past (address / 2) from (to - from))) }
        ensures reached { IfOk result (λ found. found.value.reached
            ≡ reads_end found.value.reads.items to) }

        // It ran at most one stride of turns more than those searched or past what was known. If
        // memory was refused, it may have searched all turns before turn `to`.
        ensures bound { IfOk result (λ found. self.new.turns + min from self.old.known + 1
            ≤ self.old.turns + found.value.reached + self.old.stride) }
        ensures most { IsWithinBound from (max from to) self.old self.new.turns }

        // The turns that it searched are run apart: what it leaves is what a question about turn
        // `from` leaves.
        ensures leaves { LeavesPast from self.old self.new }
        ensures told { IfOk result (λ found. IsToldOf found self.old self.new) }

        // A refusal for another cause than memory changes nothing.
        ensures refused { IsErr result → for_memory result ≡ false → self.new ≡ self.old }
    {
        let before = self.run.meter.count();
        let number = check_writes(self.base_setup.units, address, from, to)?;
        let (base_setup, script) = (&self.base_setup, &self.script);
        let found = find_reads(alloc, &mut self.run, base_setup, script, number, from, to);
        self.highest = self.highest.max(self.run.known);
        let value = found?;
        Ok(Told::of(value, &self.run, before))
    }
}

/// The reads of the core word of this number from turn `from` on and before turn `to`, at most
/// those to the end of the turn of the 256th.
///
/// Err if memory was refused; what was kept until then stays.
fn find_reads(
    alloc: Global,
    run: &mut KeptRun,
    base_setup: &BaseSetup,
    script: &Script,
    number: usize,
    from: u32,
    to: u32,
) -> Result<ReadsFound, NoMemory>
    requires run { IsRunOfSize base_setup.now script.now run.old }
    requires within { number < base_setup.now.units * UNIT_WORDS }
    requires order { from ≤ to }
    requires limit { to ≤ LAST_TURN }
    ensures reads { IfOk result (λ found. (p : Past)
        → IsKeptOfSize p base_setup.now script.now run.old
        → found.reads.items ≡ reads_in_turns p number from (found.reached - from)) }
    ensures early { IfOk result (λ found. found.reached < to
        → MOST_READS ≤ length found.reads.items) }
    ensures end { IfOk result (λ found. found.reached ≡ reads_end found.reads.items to) }
    ensures most { IfOk result (λ found. length found.reads.items ≤ MOST_READS) }
    ensures least { IfOk result (λ found. from ≤ found.reached) }
    ensures within_to { IfOk result (λ found. found.reached ≤ to) }
    ensures kept { KeepsRun script.now run.old run.new }
    ensures looked { IsLookedAt from run.old run.new }
    ensures bound { IfOk result (λ found. run.new.meter + min from run.old.known + 1
        ≤ run.old.meter + found.reached + run.old.ladder.stride) }
    ensures bound_to { run.new.meter + min from run.old.known + 1
        ≤ run.old.meter + to + run.old.ladder.stride }
{
    let log = CycleLog::new(alloc, Some(number as u32 * 2), 1)?;
    let mut branch = run.logged_branch(alloc, base_setup, script, log, from)?;
    let reads = list_reads(alloc, &mut branch, &mut run.meter, script, number, to)?;
    Ok(ReadsFound {
        reads,
        reached: branch.machine.turns(),
    })
}

/// Runs turns to the end of that of the 256th read of the core word of this number, or to turn
/// `to`. Returns the reads.
///
/// Err if memory was refused.
#[tactic(auto, using(crate::proofs::ask::ListedTurns::end_of_list))]
fn list_reads(
    alloc: Global,
    branch: &mut LoggedBranch,
    meter: &mut Meter,
    script: &Script,
    number: usize,
    to: u32,
) -> Result<Vec<WordRead>, NoMemory>
    requires within { number < length branch.old.machine.state.world.bus.core }
    requires log { without_cycles branch.old.machine.state.world.bus.log
        ≡ log_of_first_read (number * 2) }
    requires order { branch.old.machine.state.turn ≤ to }
    requires limit { to ≤ LAST_TURN }
    ensures reads { IfOk result (λ reads. AreReadsFrom branch.new.machine.state.turn script.now
        number branch.old.machine.state reads.items) }
    ensures early { IfOk result (λ reads. branch.new.machine.state.turn < to
        → MOST_READS ≤ length reads.items) }
    ensures end { IfOk result (λ reads. branch.new.machine.state.turn ≡ reads_end reads.items to) }
    ensures most { IfOk result (λ reads. length reads.items ≤ MOST_READS) }
    ensures on { OnOk result (RunsLogging to script.now (log_of_first_read (number * 2))
        branch.old.machine.state branch.new.machine.state meter.old meter.new) }
    ensures counted { meter.old ≤ meter.new }
    ensures ran_to { meter.new ≤ meter.old + (to - branch.old.machine.state.turn) }
{
    let mut reads = Vec::new(alloc);
    while branch.machine.turns() < to && reads.len() < MOST_READS {
        let read = branch.first_read(meter, script, number)?;
        add_if_there(&mut reads, read)?;
    }
    Ok(reads)
}

impl LoggedBranch {
    /// Runs one turn with the events of the script, and tells its first read of the core word of
    /// this number. The log keeps the first read at the word's address.
    ///
    /// Err if memory was refused.
    fn first_read(
        &mut self,
        meter: &mut Meter,
        script: &Script,
        number: usize,
    ) -> Result<Option<WordRead>, NoMemory>
        requires within { number < length self.old.machine.state.world.bus.core }
        requires log { without_cycles self.old.machine.state.world.bus.log
            ≡ log_of_first_read (number * 2) }
        requires limit { self.old.machine.state.turn < LAST_TURN }
        ensures read { IfOk result (λ read. (p : Past) → p.script ≡ script.now
            → IsLoggedState p self.old.machine.state
            → read ≡ read_in p number self.old.machine.state.turn) }
        ensures ends { IfOk result (λ read. EndsAfter self.new.machine.state.turn
            (option_map (λ r. r.turn) read)) }
        ensures way { OnOk result (GoesOnLogging script.now self.old.machine.state
            self.new.machine.state) }
        ensures turn { OnOk result (self.new.machine.state.turn
            ≡ self.old.machine.state.turn + 1) }
        ensures size { length self.new.machine.state.world.bus.core
            ≡ length self.old.machine.state.world.bus.core }
        ensures log { without_cycles self.new.machine.state.world.bus.log
            ≡ without_cycles self.old.machine.state.world.bus.log }
        ensures ran { MetersTurns (self.new.machine.state.turn - self.old.machine.state.turn)
            meter.old meter.new }
        ensures one { self.new.machine.state.turn ≤ self.old.machine.state.turn + 1 }
    {
        let word = self.machine.word(number);
        let passed = self.pass(meter, script)?;
        let disk = passed.disk;
        if disk.is_read_by_disk(number) {
            return Ok(Some(WordRead {
                turn: disk.turn,
                agent: Agent::Disk,
                word,
            }));
        }
        Ok(processor_read(disk.turn, self.machine.cycles()))
    }
}
