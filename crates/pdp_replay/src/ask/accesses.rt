//! What some turns have in them, with each cycle of the processor on the bus.

ghost use Rattle.std.specs.Prelude.{◌≡◌, ◌+◌, ◌-◌, ◌<◌, ◌≤◌, ◌++◌, length, map, min};
ghost use Rattle.std.specs.Prelude.{false, IfOk, IsErr, OnOk};
ghost use Rattle.pdp_store.specs.CycleLogs.{without_cycles};
ghost use Rattle.pdp_cpu.specs.KeptTexts.{without_turns};
ghost use Rattle.pdp_script.specs.Refusal.{for_memory, question_answer, result_map};
ghost use Rattle.pdp_replay.specs.Past.{Past};
ghost use Rattle.pdp_replay.specs.Run.Branches.{IsKeptOfSize, IsLookedAt, IsRunOfSize};
ghost use Rattle.pdp_replay.specs.Run.KeptRuns.{KeepsRun, MetersTurns};
ghost use Rattle.pdp_replay.specs.Ask.Answer.{question_checked};
ghost use Rattle.pdp_replay.specs.Ask.Known.{IsWithinBound, LeavesPast};
ghost use Rattle.pdp_replay.specs.Ask.Told.{IsToldOf};
ghost use Rattle.pdp_replay.specs.Ask.Accesses.{accesses_end, completion_detail_if};
ghost use Rattle.pdp_replay.specs.Ask.Accesses.{details_in_turns, details_told, log_of_all};
ghost use Rattle.pdp_replay.specs.Ask.Accesses.{AreDetailsFrom, EndsAccesses, HasCyclesOf};
ghost use Rattle.pdp_replay.specs.Ask.Accesses.{IsToldTurn};
ghost use Rattle.pdp_replay.specs.Ask.DiskCompletions.{has_completion};
ghost use Rattle.pdp_replay.specs.Ask.Reads.{GoesOnLogging};
ghost use Rattle.pdp_replay.specs.declared.ask.accesses.TurnDetail.TheVariants as detail;
ghost use Rattle.pdp_replay.specs.declared.ask.question.Question.TheVariants as question;

use crate::ask::disk_completions::DiskTurn;
use crate::ask::items::add_if_there;
use crate::ask::{Question, TextKind, Told};
use crate::engine::Engine;
use crate::past::BaseSetup;
use crate::run::{KeptRun, LoggedBranch};
use pdp_cpu::{Act, KeptByte, Meter, Mode};
use pdp_script::{Fault, Script};
use pdp_store::{BusCycle, CycleLog};
use pdp_unibus::{Event, LAST_TURN};
use pdp_word::NoMemory;
use std::alloc::Global;

/// The most cycles that are listed.
pub(crate) const MOST_CYCLES: usize = 256;

/// A turn, as it begins [P].
#[derive(Clone, Copy)]
pub struct TurnHead {
    /// The turn, counted from 0 at power-up.
    pub turn: u32,
    /// The mode of the processor before the turn.
    pub mode: Mode,
    /// PC before the turn (octal, bytes).
    pub pc: u16,
    /// The act of the turn.
    pub act: Act,
}

/// One of the details of some turns, which are in the order in which they come [P].
#[derive(Clone, Copy)]
pub enum TurnDetail {
    /// A turn begins: what follows, up to the next one that begins, is in it.
    Head(TurnHead),
    /// An event of the script.
    Event(Event),
    /// A byte comes out.
    Output(TextKind, u8),
    /// A function of the disk is completed.
    Completion(DiskTurn),
    /// A cycle of the processor on the bus.
    Cycle(BusCycle),
}

/// What a search for the accesses of turns found.
#[derive(Drop)]
pub struct AccessesFound {
    /// The details of the turns, in their order.
    pub details: Vec<TurnDetail>,
    /// The turn before which each turn is listed: the one before which the turns end, or an earlier
    /// one, with whose cycles there would be more than 256.
    pub reached: u32,
}

impl Engine {
    /// What the last `count` turns before this turn have in them, in its order: of each turn the
    /// mode and PC before it, its act, its events, the bytes that come out, the function of the
    /// disk that is completed, and each cycle that the processor makes on the bus. Turns are listed
    /// whole, while their cycles are at most 256.
    ///
    /// It is refused as a question for a trail of these turns: Err(TurnTooLarge) if the turn is
    /// above 1,000,000,000; otherwise Err(CountOutOfRange) if the count is not 1 to 64, or is above
    /// the turn; otherwise Err(NoMemory) if memory was refused. No refusal changes the past, and
    /// one for another cause than memory changes nothing. [P]
    pub fn accesses(
        &mut self,
        alloc: Global,
        turn: u32,
        count: u32,
    ) -> Result<Told<AccessesFound>, Fault>
        ensures refusal { result_map (λ _. tt) result ≡ question_answer
            (question_checked (question.Trail turn count) self.old.past) (for_memory result) }

        // The details of all turns before the one that was reached.
        ensures value { IfOk result (λ found. found.value.details.items ≡ details_in_turns
            self.old.past (turn - count) (found.value.reached - (turn - count))) }
        ensures reached { IfOk result (λ found. found.value.reached
            ≡ accesses_end self.old.past (turn - count) turn) }

        // It ran at most one stride of turns more than those asked about or past what was known,
        // also if it is then refused.
        ensures bound { IsWithinBound (turn - count) turn self.old self.new.turns }

        // The turns are run apart: what it leaves is what a question about the first of them
        // leaves.
        ensures leaves { LeavesPast (turn - count) self.old self.new }
        ensures told { IfOk result (λ found. IsToldOf found self.old self.new) }

        // A refusal for another cause than memory changes nothing.
        ensures refused { IsErr result → for_memory result ≡ false → self.new ≡ self.old }
    {
        let before = self.run.meter.count();
        let trail = Question::Trail(turn, count);
        trail.check(self.base_setup.units, self.base_setup.drives.count())?;
        let (base_setup, script) = (&self.base_setup, &self.script);
        let first = turn - count;
        let found = find_accesses(alloc, &mut self.run, base_setup, script, first, turn);
        self.highest = self.highest.max(self.run.known);
        let value = found?;
        Ok(Told::of(value, &self.run, before))
    }
}

/// The details of the turns from turn `first` on and before turn `to`, while their cycles are at
/// most 256.
///
/// Err if memory was refused; what was kept until then stays.
fn find_accesses(
    alloc: Global,
    run: &mut KeptRun,
    base_setup: &BaseSetup,
    script: &Script,
    first: u32,
    to: u32,
) -> Result<AccessesFound, NoMemory>
    requires run { IsRunOfSize base_setup.now script.now run.old }
    requires order { first ≤ to }
    requires limit { to ≤ LAST_TURN }
    ensures details { IfOk result (λ found. (p : Past)
        → IsKeptOfSize p base_setup.now script.now run.old → found.details.items
        ≡ details_in_turns p first (found.reached - first)) }
    ensures reached { IfOk result (λ found. (p : Past)
        → IsKeptOfSize p base_setup.now script.now run.old
        → found.reached ≡ accesses_end p first to) }
    ensures kept { KeepsRun script.now run.old run.new }
    ensures looked { IsLookedAt first run.old run.new }
    ensures bound { run.new.meter + min first run.old.known + 1
        ≤ run.old.meter + to + run.old.ladder.stride }
{
    let log = CycleLog::new(alloc, None, MOST_CYCLES + 1)?;
    let mut branch = run.logged_branch(alloc, base_setup, script, log, first)?;
    list_accesses(alloc, &mut branch, &mut run.meter, script, to)
}

/// Runs turns to turn `to`, and to no further one after the turn with which there would be more
/// than 256 cycles. Returns the details of those before it. The log keeps all cycles.
///
/// Err if memory was refused.
fn list_accesses(
    alloc: Global,
    branch: &mut LoggedBranch,
    meter: &mut Meter,
    script: &Script,
    to: u32,
) -> Result<AccessesFound, NoMemory>
    requires log { without_cycles branch.old.machine.state.world.bus.log ≡ log_of_all }
    requires order { branch.old.machine.state.turn ≤ to }
    requires limit { to ≤ LAST_TURN }
    ensures details { IfOk result (λ found. AreDetailsFrom found.reached script.now
        branch.old.machine.state found.details.items) }
    ensures reached { IfOk result (λ found. EndsAccesses to script.now branch.old.machine.state
        found.reached) }
    ensures ran { meter.new ≤ meter.old + (to - branch.old.machine.state.turn) }
    ensures counted { meter.old ≤ meter.new }
{
    let mut details = Vec::new(alloc);
    let mut room = MOST_CYCLES;
    while branch.machine.turns() < to {
        let told = branch.pass_and_tell(meter, script)?;
        let turn = told.head.turn;
        let cycles = branch.machine.cycles().len();
        if cycles > room {
            return Ok(AccessesFound {
                details,
                reached: turn,
            });
        }
        room -= cycles;
        branch.list_turn(&mut details, told, script.at(turn))?;
    }
    Ok(AccessesFound {
        details,
        reached: branch.machine.turns(),
    })
}

/// What is known of a turn that a branch ran before its text and its log are read.
#[derive(Clone, Copy)]
struct ToldTurn {
    head: TurnHead,
    disk: DiskTurn,

    // How many bytes came out before it.
    printed: usize,
    punched: usize,
}

impl LoggedBranch {
    /// Runs one turn with the events of the script, and tells it. The log, which keeps all cycles,
    /// then has those of the turn alone.
    ///
    /// Err if a turn's room was refused.
    fn pass_and_tell(&mut self, meter: &mut Meter, script: &Script) -> Result<ToldTurn, NoMemory>
        requires log { without_cycles self.old.machine.state.world.bus.log ≡ log_of_all }
        requires limit { self.old.machine.state.turn < LAST_TURN }
        ensures details { IfOk result (λ told. IsToldTurn script.now self.old.machine.state
            self.new.machine.state told) }
        ensures cycles { OnOk result (HasCyclesOf script.now self.old.machine.state
            self.new.machine.state) }
        ensures head { IfOk result (λ told. told.head.turn ≡ self.old.machine.state.turn) }
        ensures printed { IfOk result (λ told. told.printed
            ≤ length self.new.machine.state.text) }
        ensures punched { IfOk result (λ told. told.punched
            ≤ length self.new.machine.state.punched) }
        ensures way { OnOk result (GoesOnLogging script.now self.old.machine.state
            self.new.machine.state) }
        ensures turn { OnOk result (self.new.machine.state.turn
            ≡ self.old.machine.state.turn + 1) }
        ensures log { without_cycles self.new.machine.state.world.bus.log ≡ log_of_all }
        ensures ran { MetersTurns (self.new.machine.state.turn - self.old.machine.state.turn)
            meter.old meter.new }
        ensures one { self.new.machine.state.turn ≤ self.old.machine.state.turn + 1 }
    {
        let mode = self.machine.mode();
        let pc = self.machine.pc();
        let printed = self.machine.text().len();
        let punched = self.machine.punched().len();
        let passed = self.pass(meter, script)?;
        Ok(ToldTurn {
            head: TurnHead {
                turn: passed.disk.turn,
                mode,
                pc,
                act: passed.act,
            },
            disk: passed.disk,
            printed,
            punched,
        })
    }

    /// Adds the details of the turn that it ran at the end, which had these events.
    ///
    /// Err if memory was refused.
    fn list_turn(
        &self,
        details: &mut Vec<TurnDetail>,
        told: ToldTurn,
        events: &[Event],
    ) -> Result<(), NoMemory>
        requires printed { told.printed ≤ length self.now.machine.state.text }
        requires punched { told.punched ≤ length self.now.machine.state.punched }
        ensures { OnOk result (details.new.items ≡ details.old.items
            ++ details_told events.now self.now.machine.state told) }
    {
        let printed = self.machine.text();
        let punched = self.machine.punched();
        details.push(TurnDetail::Head(told.head))?;
        list_events(details, events)?;
        list_output(details, TextKind::Printed, &printed[told.printed..])?;
        list_output(details, TextKind::Punched, &punched[told.punched..])?;
        add_if_there(details, completion_detail(told.disk))?;
        list_cycles(details, self.machine.cycles())?;
        Ok(())
    }
}

/// The completion in a turn of the disk, if there is one.
fn completion_detail(disk: DiskTurn) -> Option<TurnDetail>
    ensures { result ≡ completion_detail_if (has_completion disk) disk }
{
    if disk.has_completion() {
        Some(TurnDetail::Completion(disk))
    } else {
        None
    }
}

/// Adds these events at the end.
///
/// Err if memory was refused.
fn list_events(details: &mut Vec<TurnDetail>, events: &[Event]) -> Result<(), NoMemory>
    ensures { OnOk result
        (details.new.items ≡ details.old.items ++ map detail.Event events.now) }
{
    for index in 0..events.len() {
        details.push(TurnDetail::Event(events[index]))?;
    }
    Ok(())
}

/// Adds these bytes at the end, without their turns.
///
/// Err if memory was refused.
fn list_output(
    details: &mut Vec<TurnDetail>,
    kind: TextKind,
    bytes: &[KeptByte],
) -> Result<(), NoMemory>
    ensures { OnOk result (details.new.items
        ≡ details.old.items ++ map (detail.Output kind) (without_turns bytes.now)) }
{
    for index in 0..bytes.len() {
        details.push(TurnDetail::Output(kind, bytes[index].byte))?;
    }
    Ok(())
}

/// Adds these cycles at the end.
///
/// Err if memory was refused.
fn list_cycles(details: &mut Vec<TurnDetail>, cycles: &[BusCycle]) -> Result<(), NoMemory>
    ensures { OnOk result
        (details.new.items ≡ details.old.items ++ map detail.Cycle cycles.now) }
{
    for index in 0..cycles.len() {
        details.push(TurnDetail::Cycle(cycles[index]))?;
    }
    Ok(())
}
