//! What some turns made of what.

ghost use Rattle.std.specs.Prelude.{◌≡◌, ◌+◌, ◌-◌, ◌<◌, ◌≤◌, ◌++◌, map, min, option_map};
ghost use Rattle.std.specs.Prelude.{false, IfOk, IsErr, OnOk};
ghost use Rattle.pdp_store.specs.CycleLogs.{without_cycles};
ghost use Rattle.pdp_script.specs.Refusal.{for_memory, question_answer, result_map};
ghost use Rattle.pdp_replay.specs.Past.{Past};
ghost use Rattle.pdp_replay.specs.Run.Branches.{IsKeptOfSize, IsLookedAt, IsRunOfSize};
ghost use Rattle.pdp_replay.specs.Run.KeptRuns.{KeepsRun, MetersTurns};
ghost use Rattle.pdp_replay.specs.Ask.Accesses.{log_of_all, HasCyclesOf};
ghost use Rattle.pdp_replay.specs.Ask.Answer.{question_checked};
ghost use Rattle.pdp_replay.specs.Ask.Known.{IsWithinBound, LeavesPast};
ghost use Rattle.pdp_replay.specs.Ask.Reads.{GoesOnLogging};
ghost use Rattle.pdp_replay.specs.Ask.Told.{IsToldOf};
ghost use Rattle.pdp_replay.specs.Ask.MovesListed.{AreMovesFrom, NotesTurn, beginning_details};
ghost use Rattle.pdp_replay.specs.Ask.MovesListed.{details_noted, moves_in_turns};
ghost use Rattle.pdp_replay.specs.declared.ask.moves.MoveDetail.TheVariants as moved;
ghost use Rattle.pdp_replay.specs.declared.ask.question.Question.TheVariants as question;

use crate::ask::accesses::MOST_CYCLES;
use crate::ask::items::add_if_there;
use crate::ask::{Question, Told};
use crate::engine::Engine;
use crate::past::BaseSetup;
use crate::run::{KeptRun, LoggedBranch};
use pdp_cpu::Meter;
use pdp_rk11::DiskMoves;
use pdp_script::{Fault, Script};
use pdp_store::CycleLog;
use pdp_turn_moves::{ActMove, BeginningMoves, TapeRead, TurnMoves, moves_of_act};
use pdp_unibus::LAST_TURN;
use pdp_word::NoMemory;
use std::alloc::Global;

/// One of the moves of some turns, which are in the order in which they come: a value that is made
/// of others [P].
#[derive(Clone, Copy)]
pub enum MoveDetail {
    /// A turn begins, counted from 0 at power-up: what follows, up to the next one, is in it.
    Turn(u32),
    /// In its beginning TKB becomes the byte of a key, which is the event of this number among
    /// those of the turn, from 0 on.
    Key(usize),
    /// The switches become the word of an event, numbered so.
    Switches(usize),
    /// PRB becomes the next byte of the tape, if there is one.
    Reader(TapeRead),
    /// The disk moves words between core and a drive.
    Disk(DiskMoves),
    /// In its act a cell is made of another.
    Act(ActMove),
}

impl Engine {
    /// What the last `count` turns before this turn made of what, in their order. Of each turn:
    /// what its events, the reader and the disk moved in its beginning; and then, of each cell that
    /// its act made of anything but itself, the cells as the act began that it is made of. What
    /// another past has to have in common for the same value to come out is said in pdp_made_past.
    ///
    /// It is refused as a question for a trail of these turns: Err(TurnTooLarge) if the turn is
    /// above 1,000,000,000; otherwise Err(CountOutOfRange) if the count is not 1 to 64, or is above
    /// the turn; otherwise Err(NoMemory) if memory was refused. No refusal changes the past, and
    /// one for another cause than memory changes nothing. [P]
    pub fn moves(
        &mut self,
        alloc: Global,
        turn: u32,
        count: u32,
    ) -> Result<Told<Vec<MoveDetail>>, Fault>
        ensures refusal { result_map (λ _. tt) result ≡ question_answer
            (question_checked (question.Trail turn count) self.old.past) (for_memory result) }

        // The moves of all turns that are asked for.
        ensures value { IfOk result (λ found. found.value.items
            ≡ moves_in_turns self.old.past (turn - count) count) }

        // It ran at most one stride of turns more than those asked about or past what was known,
        // also if it is then refused.
        ensures bound { IsWithinBound (turn - count) turn self.old self.new.turns }

        // The turns are run apart: what it leaves is what a question about the first of them
        // leaves.
        ensures leaves { LeavesPast (turn - count) self.old self.new }
        ensures told { IfOk result (λ found. IsToldOf found self.old self.new) }

        // A refusal for another cause than memory changes nothing.
        ensures refused { IsErr result → for_memory result ≡ false → self.new ≡ self.old }
    {
        let before = self.run.meter.count();
        let trail = Question::Trail(turn, count);
        trail.check(self.base_setup.units, self.base_setup.drives.count())?;
        let (base_setup, script) = (&self.base_setup, &self.script);
        let first = turn - count;
        let found = find_moves(alloc, &mut self.run, base_setup, script, first, turn);
        self.highest = self.highest.max(self.run.known);
        let value = found?;
        Ok(Told::of(value, &self.run, before))
    }
}

/// The moves of the turns from turn `first` on and before turn `to`.
///
/// Err if memory was refused; what was kept until then stays.
fn find_moves(
    alloc: Global,
    run: &mut KeptRun,
    base_setup: &BaseSetup,
    script: &Script,
    first: u32,
    to: u32,
) -> Result<Vec<MoveDetail>, NoMemory>
    requires run { IsRunOfSize base_setup.now script.now run.old }
    requires order { first ≤ to }
    requires limit { to ≤ LAST_TURN }
    ensures moves { IfOk result (λ found. (p : Past)
        → IsKeptOfSize p base_setup.now script.now run.old → found.items
        ≡ moves_in_turns p first (to - first)) }
    ensures kept { KeepsRun script.now run.old run.new }
    ensures looked { IsLookedAt first run.old run.new }
    ensures bound { run.new.meter + min first run.old.known + 1
        ≤ run.old.meter + to + run.old.ladder.stride }
{
    let log = CycleLog::new(alloc, None, MOST_CYCLES + 1)?;
    let mut branch = run.logged_branch(alloc, base_setup, script, log, first)?;
    list_moves(alloc, &mut branch, &mut run.meter, script, to)
}

/// Runs turns to turn `to`. Returns their moves. The log keeps all cycles.
///
/// Err if memory was refused.
fn list_moves(
    alloc: Global,
    branch: &mut LoggedBranch,
    meter: &mut Meter,
    script: &Script,
    to: u32,
) -> Result<Vec<MoveDetail>, NoMemory>
    requires log { without_cycles branch.old.machine.state.world.bus.log ≡ log_of_all }
    requires order { branch.old.machine.state.turn ≤ to }
    requires limit { to ≤ LAST_TURN }
    ensures moves { IfOk result (λ found. AreMovesFrom to script.now branch.old.machine.state
        found.items) }
    ensures ran { meter.new ≤ meter.old + (to - branch.old.machine.state.turn) }
    ensures counted { meter.old ≤ meter.new }
{
    let mut details = Vec::new(alloc);
    let mut noted = TurnMoves::empty();
    while branch.machine.turns() < to {
        let turn = branch.machine.turns();
        branch.pass_noting(meter, script, &mut noted)?;
        branch.list_noted(alloc, &mut details, turn, &noted)?;
    }
    Ok(details)
}

impl LoggedBranch {
    /// Runs one turn with the events of the script step by step, and notes what it moved. The log,
    /// which keeps all cycles, then has those of the turn alone.
    ///
    /// Err if a turn's room was refused.
    fn pass_noting(
        &mut self,
        meter: &mut Meter,
        script: &Script,
        noted: &mut TurnMoves,
    ) -> Result<(), NoMemory>
        requires log { without_cycles self.old.machine.state.world.bus.log ≡ log_of_all }
        requires limit { self.old.machine.state.turn < LAST_TURN }
        ensures notes { OnOk result
            (NotesTurn script.now self.old.machine.state noted.new) }
        ensures cycles { OnOk result (HasCyclesOf script.now self.old.machine.state
            self.new.machine.state) }
        ensures way { OnOk result (GoesOnLogging script.now self.old.machine.state
            self.new.machine.state) }
        ensures turn { OnOk result (self.new.machine.state.turn
            ≡ self.old.machine.state.turn + 1) }
        ensures log { without_cycles self.new.machine.state.world.bus.log ≡ log_of_all }
        ensures ran { MetersTurns (self.new.machine.state.turn - self.old.machine.state.turn)
            meter.old meter.new }
        ensures one { self.new.machine.state.turn ≤ self.old.machine.state.turn + 1 }
    {
        self.machine.clear_log();
        self.machine.ready()?;
        let turn = self.machine.turns();
        noted.run(&mut self.machine, meter, script.at(turn));
        Ok(())
    }

    /// Adds what was noted of the turn of this number, which it ran at the end.
    ///
    /// Err if memory was refused.
    fn list_noted(
        &self,
        alloc: Global,
        details: &mut Vec<MoveDetail>,
        turn: u32,
        noted: &TurnMoves,
    ) -> Result<(), NoMemory>
        ensures { OnOk result (details.new.items ≡ details.old.items
            ++ details_noted turn noted.now self.now.machine.state) }
    {
        details.push(MoveDetail::Turn(turn))?;
        list_beginning(details, noted.beginning)?;
        let moves = moves_of_act(alloc, &noted.act.noted, self.machine.cycles())?;
        list_act(details, moves.as_slice())?;
        Ok(())
    }
}

/// The detail of a key, if one was struck.
fn key_detail(key: Option<usize>) -> Option<MoveDetail>
    ensures { result ≡ option_map moved.Key key }
{
    key.map(MoveDetail::Key)
}

/// The detail of the switches, if they were set.
fn switches_detail(switches: Option<usize>) -> Option<MoveDetail>
    ensures { result ≡ option_map moved.Switches switches }
{
    switches.map(MoveDetail::Switches)
}

/// The detail of the reader, if it took a byte.
fn reader_detail(reader: Option<TapeRead>) -> Option<MoveDetail>
    ensures { result ≡ option_map moved.Reader reader }
{
    reader.map(MoveDetail::Reader)
}

/// The detail of the disk, if it moved words.
fn disk_detail(disk: Option<DiskMoves>) -> Option<MoveDetail>
    ensures { result ≡ option_map moved.Disk disk }
{
    disk.map(MoveDetail::Disk)
}

/// Adds what the beginning of a turn moved.
///
/// Err if memory was refused.
fn list_beginning(details: &mut Vec<MoveDetail>, beginning: BeginningMoves) -> Result<(), NoMemory>
    ensures { OnOk result (details.new.items
        ≡ details.old.items ++ beginning_details beginning) }
{
    add_if_there(details, key_detail(beginning.key))?;
    add_if_there(details, switches_detail(beginning.switches))?;
    add_if_there(details, reader_detail(beginning.reader))?;
    add_if_there(details, disk_detail(beginning.disk))?;
    Ok(())
}

/// Adds what an act moved.
///
/// Err if memory was refused.
fn list_act(details: &mut Vec<MoveDetail>, moves: &[ActMove]) -> Result<(), NoMemory>
    ensures { OnOk result (details.new.items ≡ details.old.items ++ map moved.Act moves.now) }
{
    for index in 0..moves.len() {
        details.push(MoveDetail::Act(moves[index]))?;
    }
    Ok(())
}
