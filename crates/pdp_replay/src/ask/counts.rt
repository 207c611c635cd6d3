ghost use Rattle.std.specs.Prelude.{◌≡◌, ◌+◌, ◌*◌, ◌-◌, ◌<◌, ◌≤◌, ◌==◌, ℕ, length, min, max};
ghost use Rattle.std.specs.Prelude.{None, false, IfOk, IfSome, IsErr, Ok, OnErr, OnOk};
ghost use Rattle.pdp_script.specs.Refusal.{for_memory, question_answer, result_map};
ghost use Rattle.pdp_replay.specs.Past.{Past};
ghost use Rattle.pdp_replay.specs.Run.KeptRuns.{resumed_turn, Advances, ArrivesAt, CanGoOn, GoesOn};
ghost use Rattle.pdp_replay.specs.Run.KeptRuns.{IsKeptRun, IsRunOf, KeepsRun, LeavesKept};
ghost use Rattle.pdp_replay.specs.Run.KeptRuns.{MetersWay, RunsUpTo};
ghost use Rattle.pdp_replay.specs.Ask.Known.{LeavesPast, RunsFrom};
ghost use Rattle.pdp_replay.specs.Ask.Searches.{IsWithinSearch};
ghost use Rattle.pdp_replay.specs.Ask.Told.{IsAtTurn, IsToldOf};
ghost use Rattle.pdp_replay.specs.Ask.Watches.{StaysOnWay, StaysQuietly, StaysWith};
ghost use Rattle.pdp_replay.specs.Ask.Counts.{counts_checked, counts_in_turns, words_checked};
ghost use Rattle.pdp_replay.specs.Ask.Counts.{AddsOnWay, AddsQuietly, AddsTo, AddsTurn, AddsWith};
ghost use Rattle.pdp_replay.specs.Ask.Counts.{AreAtMost, AreCountsTo};

use crate::ask::Told;
use crate::ask::search::check_search;
use crate::ask::sought::{is_instruction, is_mode};
use crate::engine::Engine;
use crate::run::{KeptRun, quiet_until};
use pdp_cpu::{Act, Meter, Mode, PagedMachine};
use pdp_script::{Fault, Script};
use pdp_unibus::{Event, LAST_TURN};
use pdp_word::NoMemory;
use std::alloc::Global;
use std::mem;

/// The most words at which instructions are counted.
const MOST_WORDS: u32 = 256;

/// The end of the virtual addresses, in bytes.
const END_OF_ADDRESSES: u32 = 0o200000;

/// Words of virtual addresses, one after another, at which instructions are counted [P].
#[derive(Clone, Copy)]
pub struct CountedWords {
    /// The mode of the processor in which the instructions begin.
    pub mode: Mode,
    /// The address of the first word (octal, bytes, even).
    pub first: u16,
    /// How many words (1 to 256).
    pub count: u32,
}

impl Engine {
    /// For each of these words how many turns from turn `from` on and before turn `to` began an
    /// instruction with PC at the word, in the mode that is given, of the run from power-up of the
    /// past as it is now. If PC is there before an interrupt, a pending trap or an idle turn, that
    /// turn isn't counted.
    ///
    /// Err(TurnTooLarge) if a turn is above 1,000,000,000; otherwise Err(CountOutOfRange) if `from`
    /// is above `to`, if there are not 1 to 256 words, or if the last ends above 200000 (octal);
    /// otherwise Err(OddAddress) if the address of the first is odd; otherwise Err(NoMemory) if
    /// memory was refused. No refusal changes the past, and one for another cause than memory
    /// changes nothing. [P]
    pub fn counts(
        &mut self,
        alloc: Global,
        words: CountedWords,
        from: u32,
        to: u32,
    ) -> Result<Told<Vec<u32>>, Fault>
        ensures refusal { result_map (λ _. tt) result
            ≡ question_answer (counts_checked words from to) (for_memory result) }
        ensures value { IfOk result (λ counted. counted.value.items
            ≡ counts_in_turns self.old.past words.mode words.first words.count from (to - from)) }

        // It ran at most one stride of turns more than those counted or past what was known, also
        // if it is then refused.
        ensures bound { IsWithinSearch from self.old self.new }

        // What it leaves is what a question about turn `to` leaves, and it goes on from where a
        // question about turn `from` does. It ends at turn `to`.
        ensures leaves { LeavesPast to self.old self.new }
        ensures runs { counts_checked words from to ≡ Ok tt
            → RunsFrom from self.old self.new }
        ensures told { IfOk result (λ counted. IsToldOf counted self.old self.new) }
        ensures ends { IfOk result (λ counted. IsAtTurn to self.old self.new) }

        // A refusal for another cause than memory changes nothing.
        ensures refused { IsErr result → for_memory result ≡ false → self.new ≡ self.old }
    {
        let before = self.run.meter.count();
        check_counts(words, from, to)?;
        let counted = find_counts(alloc, &mut self.run, &self.script, words, from, to);
        self.highest = self.highest.max(self.run.known);
        let counts = counted?;
        Ok(Told::of(counts, &self.run, before))
    }
}

/// Whether instructions can be counted at these words in the turns from one on and before another.
fn check_counts(words: CountedWords, from: u32, to: u32) -> Result<(), Fault>
    ensures refusal { counts_checked words from to ≡ result }
    ensures limit { OnOk result (to ≤ LAST_TURN) }
    ensures order { OnOk result (from ≤ to) }
{
    check_search(from, to)?;
    words.check()
}

impl CountedWords {
    /// Whether instructions can be counted at these words.
    ///
    /// Err(CountOutOfRange) if there are not 1 to 256 words, or if the last ends above 200000
    /// (octal); otherwise Err(OddAddress) if the address of the first is odd.
    fn check(self) -> Result<(), Fault>
        ensures { words_checked self ≡ result }
    {
        if self.count < 1 || self.count > MOST_WORDS {
            return Err(Fault::CountOutOfRange);
        }
        if u32::from(self.first) + 2 * self.count > END_OF_ADDRESSES {
            return Err(Fault::CountOutOfRange);
        }
        if self.first % 2 != 0 {
            return Err(Fault::OddAddress);
        }
        Ok(())
    }

    /// Which of the words from the first on, counted from 0, is at this address; None if the
    /// address is below the first or lies between two words.
    #[inline(always)]
    fn number_at(self, address: u16) -> Option<usize>
        ensures there { IfSome result (λ number. self.first + 2 * number ≡ address) }
        ensures none { result ≡ None → (number : ℕ)
            → (address == self.first + 2 * number) ≡ false }
    {
        if address < self.first {
            return None;
        }
        let bytes = address - self.first;
        if bytes % 2 != 0 {
            return None;
        }
        Some(usize::from(bytes / 2))
    }

    /// Adds a turn to the counts that had this act, and PC and the mode before it.
    #[inline(always)]
    fn note(self, counts: &mut Vec<u32>, act: Act, pc: u16, mode: Mode)
        requires few { AreAtMost LAST_TURN counts.old.items }
        ensures { AddsTurn self act pc mode counts.old.items counts.new.items }
    {
        let Some(number) = self.number_at(pc) else {
            return;
        };
        if number < counts.len() && is_mode(Some(self.mode), mode) && is_instruction(act) {
            counts[number] += 1;
        }
    }
}

/// Takes the machine to turn `from`, and from there to turn `to`. Returns the counts of the
/// instructions at these words.
///
/// Err if memory was refused; what was kept until then stays.
fn find_counts(
    alloc: Global,
    run: &mut KeptRun,
    script: &Script,
    words: CountedWords,
    from: u32,
    to: u32,
) -> Result<Vec<u32>, NoMemory>
    requires run { IsRunOf script.now run.old }
    requires order { from ≤ to }
    requires limit { to ≤ LAST_TURN }
    ensures counts { IfOk result (λ counts. (p : Past) → p.script ≡ script.now
        → IsKeptRun p run.old
        → counts.items
        ≡ counts_in_turns p words.mode words.first words.count from (to - from)) }
    ensures kept { KeepsRun script.now run.old run.new }
    ensures arrives { OnOk result (ArrivesAt to run.old run.new) }
    ensures advances { Advances (resumed_turn run.old from) to run.old run.new }
    ensures bound { run.new.meter + min from run.old.known + 1
        ≤ run.old.meter + max from run.new.machine.state.turn + run.old.ladder.stride }
{
    run.reach(alloc, script, from)?;
    count_turns(alloc, run, script, words, to)
}

/// Runs turns to turn `to`. Returns the counts of the instructions at these words, and keeps what
/// is to be kept of the turns.
///
/// Err if memory was refused; what was kept until then stays.
fn count_turns(
    alloc: Global,
    run: &mut KeptRun,
    script: &Script,
    words: CountedWords,
    to: u32,
) -> Result<Vec<u32>, NoMemory>
    requires ready { CanGoOn run.old }
    requires order { run.old.machine.state.turn ≤ to }
    requires limit { to ≤ LAST_TURN }
    ensures counts { IfOk result
        (λ counts. AreCountsTo to script.now words run.old counts.items) }
    ensures kept { LeavesKept script.now run.old run.new }
    ensures arrives { OnOk result (ArrivesAt to run.old run.new) }
    ensures advances { Advances run.old.machine.state.turn to run.old run.new }
{
    let mut counts = vec![in alloc; 0; words.count as usize]?;
    while run.machine.turns() < to {
        count_leg(alloc, run, script, words, &mut counts, to)?;
    }
    Ok(counts)
}

/// Runs turns to turn `to`, but at most to the next turn whose state is to be kept, adds them to
/// the counts, and keeps what is to be kept.
///
/// Err if memory was refused; what was kept until then stays.
fn count_leg(
    alloc: Global,
    run: &mut KeptRun,
    script: &Script,
    words: CountedWords,
    counts: &mut Vec<u32>,
    to: u32,
) -> Result<(), NoMemory>
    requires ready { CanGoOn run.old }
    requires order { run.old.machine.state.turn < to }
    requires limit { to ≤ LAST_TURN }
    requires few { AreAtMost run.old.machine.state.turn counts.old.items }
    ensures counts { OnOk result (AddsTo run.new.machine.state.turn script.now words run.old
        counts.old.items counts.new.items) }
    ensures few { OnOk result (AreAtMost run.new.machine.state.turn counts.new.items) }
    ensures on { OnOk result (run.old.machine.state.turn < run.new.machine.state.turn) }
    ensures kept { LeavesKept script.now run.old run.new }
    ensures way { OnOk result (GoesOn script.now run.old run.new) }
    ensures arrives { OnOk result (ArrivesAt run.new.machine.state.turn run.old run.new) }
    ensures advances { Advances run.old.machine.state.turn to run.old run.new }
    ensures metered { MetersWay run.old run.new }
{
    let end = run.ladder.next().min(to);
    // While the meter is apart from the machine, the loop counts in a register.
    let mut counting = mem::replace(&mut run.meter, Meter::new());
    let counted = count_part(&mut run.machine, script, &mut counting, words, counts, end);
    run.meter = counting;
    run.settle(alloc)?;
    counted
}

/// Runs the machine, with the events of the script, to turn `to`, and adds the turns to the counts;
/// the meter counts each turn.
///
/// Err if a turn's room was refused; the machine is then in the state of the turn that it came to.
fn count_part(
    machine: &mut PagedMachine,
    script: &Script,
    meter: &mut Meter,
    words: CountedWords,
    counts: &mut Vec<u32>,
    to: u32,
) -> Result<(), NoMemory>
    requires forward { machine.old.state.turn ≤ to }
    requires limit { to ≤ LAST_TURN }
    requires few { AreAtMost machine.old.state.turn counts.old.items }
    ensures counts { OnOk result
        (AddsOnWay script.now words machine.old machine.new counts.old.items counts.new.items) }
    ensures few { OnOk result (AreAtMost machine.new.state.turn counts.new.items) }
    ensures turn { OnOk result (machine.new.state.turn ≡ to) }
    ensures way { StaysOnWay script.now machine.old machine.new }
    ensures runs { RunsUpTo to machine.old machine.new meter.old meter.new }
{
    while machine.turns() < to {
        count_stretch(machine, script, meter, words, counts, to)?;
    }
    Ok(())
}

/// The same, but only through the turns before the next one with events, or through that one if it
/// is the machine's next.
fn count_stretch(
    machine: &mut PagedMachine,
    script: &Script,
    meter: &mut Meter,
    words: CountedWords,
    counts: &mut Vec<u32>,
    to: u32,
) -> Result<(), NoMemory>
    requires forward { machine.old.state.turn < to }
    requires limit { to ≤ LAST_TURN }
    requires few { AreAtMost machine.old.state.turn counts.old.items }
    ensures counts { OnOk result
        (AddsOnWay script.now words machine.old machine.new counts.old.items counts.new.items) }
    ensures few { OnOk result (AreAtMost machine.new.state.turn counts.new.items) }
    ensures on { OnOk result (machine.old.state.turn < machine.new.state.turn) }
    ensures way { StaysOnWay script.now machine.old machine.new }
    ensures runs { RunsUpTo to machine.old machine.new meter.old meter.new }
{
    let turn = machine.turns();
    let quiet = quiet_until(script, turn, to);
    if turn < quiet {
        return count_quiet(machine, meter, words, counts, quiet);
    }
    count_turn(machine, meter, script.at(turn), words, counts)
}

/// Runs the machine, without events, to turn `to`, and adds the turns to the counts; the meter
/// counts each turn.
///
/// Err if a turn's room was refused; the machine is then in the state of the turn that it came to.
fn count_quiet(
    machine: &mut PagedMachine,
    meter: &mut Meter,
    words: CountedWords,
    counts: &mut Vec<u32>,
    to: u32,
) -> Result<(), NoMemory>
    requires forward { machine.old.state.turn < to }
    requires limit { to ≤ LAST_TURN }
    requires few { AreAtMost machine.old.state.turn counts.old.items }
    ensures counts { OnOk result
        (AddsQuietly to words machine.old machine.new counts.old.items counts.new.items) }
    ensures few { OnOk result (AreAtMost machine.new.state.turn counts.new.items) }
    ensures turn { OnOk result (machine.new.state.turn ≡ to) }
    ensures way { StaysQuietly to machine.old machine.new }
    ensures runs { RunsUpTo to machine.old machine.new meter.old meter.new }
{
    while machine.turns() < to {
        count_turn(machine, meter, &[], words, counts)?;
    }
    Ok(())
}

/// Runs the machine through its next turn, with these events, and adds it to the counts; the meter
/// counts it.
///
/// Err if the turn's room was refused; the machine is then as it was.
#[inline(always)]
fn count_turn(
    machine: &mut PagedMachine,
    meter: &mut Meter,
    events: &[Event],
    words: CountedWords,
    counts: &mut Vec<u32>,
) -> Result<(), NoMemory>
    requires limit { machine.old.state.turn < LAST_TURN }
    requires few { AreAtMost machine.old.state.turn counts.old.items }
    ensures counts { OnOk result
        (AddsWith events.now words machine.old machine.new counts.old.items counts.new.items) }
    ensures few { OnOk result (AreAtMost machine.new.state.turn counts.new.items) }
    ensures on { OnOk result (machine.new.state.turn ≡ machine.old.state.turn + 1) }
    ensures same { OnErr result (machine.new.state.turn ≡ machine.old.state.turn) }
    ensures way { StaysWith events.now machine.old machine.new }
    ensures runs { RunsUpTo (machine.old.state.turn + 1) machine.old machine.new
        meter.old meter.new }
{
    machine.ready()?;
    let pc = machine.pc();
    let mode = machine.mode();
    let act = machine.turn(meter, events);
    words.note(counts, act, pc, mode);
    Ok(())
}
