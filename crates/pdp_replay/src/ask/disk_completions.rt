//! The functions of the disk that are completed in some turns.

ghost use Rattle.std.specs.Prelude.{◌≡◌, ◌+◌, ◌-◌, ◌<◌, ◌≤◌, length, max, min, take};
ghost use Rattle.std.specs.Prelude.{false, IfOk, IsErr, Ok, OnOk};
ghost use Rattle.pdp_script.specs.Refusal.{for_memory, question_answer, result_map};
ghost use Rattle.pdp_replay.specs.Past.{Past};
ghost use Rattle.pdp_replay.specs.Run.KeptRuns.{resumed_turn, Advances, ArrivesAt, CanGoOn, GoesOn};
ghost use Rattle.pdp_replay.specs.Run.KeptRuns.{IsKeptRun, IsRunOf, KeepsRun, LeavesKept};
ghost use Rattle.pdp_replay.specs.Run.KeptRuns.{MetersWay};
ghost use Rattle.pdp_replay.specs.Ask.Known.{LeavesPast, RunsFrom};
ghost use Rattle.pdp_replay.specs.Ask.Searches.{search_checked, IsWithinSearch};
ghost use Rattle.pdp_replay.specs.Ask.Told.{IsAtTurn, IsToldOf};
ghost use Rattle.pdp_replay.specs.Ask.DiskCompletions.{completion_of, completions_end};
ghost use Rattle.pdp_replay.specs.Ask.DiskCompletions.{has_completion, idle_by};
ghost use Rattle.pdp_replay.specs.Ask.DiskCompletions.{completions_in_turns, is_idle_turn};
ghost use Rattle.pdp_replay.specs.Ask.DiskCompletions.{AreCompletionsFrom, IsDiskTurnOf};

use crate::ask::Told;
use crate::ask::items::add_if_there;
use crate::ask::search::check_search;
use crate::engine::Engine;
use crate::run::KeptRun;
use pdp_rk11::Rk;
use pdp_script::{Fault, Script};
use pdp_unibus::LAST_TURN;
use pdp_word::NoMemory;
use std::alloc::Global;

/// The most completions that are listed.
const MOST_COMPLETIONS: usize = 256;

/// The completion of a function of the disk [P].
#[derive(Clone, Copy)]
pub struct DiskCompletion {
    /// The turn in which it was completed, before the turn's act: by its event, or because it was
    /// due.
    pub turn: u32,
    /// The turn whose act began it. None if that is before the turns that were searched.
    pub begun: Option<u32>,
    /// The disk's controller before it was completed, which tells what was asked for (PDP-11
    /// Peripherals Handbook, RK11).
    pub before: Rk,
    /// The controller when it was completed, before the turn's act.
    pub after: Rk,
}

/// What a search for completions of the disk found.
#[derive(Drop)]
pub struct CompletionsFound {
    /// The completions, in their order, at most 256.
    pub completions: Vec<DiskCompletion>,
    /// The turn before which every turn was searched: the turn after that of the 256th completion,
    /// or `to` if there are fewer. If it is before `to`, later completions may follow, and a search
    /// from it on lists them.
    pub reached: u32,
}

/// The disk in one turn [P].
#[derive(Clone, Copy)]
pub struct DiskTurn {
    /// The turn, counted from 0 at power-up.
    pub turn: u32,
    /// The disk's controller before the turn, which tells what was asked for (PDP-11 Peripherals
    /// Handbook, RK11).
    pub before: Rk,
    /// The controller when the turn has begun, before its act.
    pub after: Rk,
}

impl DiskTurn {
    /// Whether the disk does nothing when the turn has begun.
    fn is_idle(&self) -> bool
        ensures { result ≡ is_idle_turn self.now }
    {
        !self.after.operation.is_under_way()
    }

    /// Whether a function is completed in the turn, before its act.
    pub(crate) fn has_completion(&self) -> bool
        ensures { result ≡ has_completion self.now }
    {
        self.before.operation.is_under_way() && self.is_idle()
    }

    /// The completion in the turn, if there is one, of a function that was begun in this turn.
    fn completion(&self, begun: Option<u32>) -> Option<DiskCompletion>
        ensures { result ≡ completion_of begun self.now }
    {
        if self.has_completion() {
            Some(DiskCompletion {
                turn: self.turn,
                begun,
                before: self.before,
                after: self.after,
            })
        } else {
            None
        }
    }

    /// The last turn in which the disk did nothing, up to this one, by the last one before it.
    fn last_idle(&self, before: Option<u32>) -> Option<u32>
        ensures { result ≡ idle_by before self.now }
    {
        if self.is_idle() {
            Some(self.turn)
        } else {
            before
        }
    }
}

impl Engine {
    /// The functions of the disk that are completed in the turns from turn `from` on and before
    /// turn `to`, in their order, of the run from power-up of the past as it is now. At the end of
    /// the turn of the 256th completion the search ends.
    ///
    /// Err(TurnTooLarge) if a turn is above 1,000,000,000; otherwise Err(CountOutOfRange) if `from`
    /// is above `to`; otherwise Err(NoMemory) if memory was refused. No refusal changes the past,
    /// and one for another cause than memory changes nothing. [P]
    pub fn disk_completions(
        &mut self,
        alloc: Global,
        from: u32,
        to: u32,
    ) -> Result<Told<CompletionsFound>, Fault>
        ensures refusal { result_map (λ _. tt) result
            ≡ question_answer (search_checked from to) (for_memory result) }

        // The first 256 of all completions in these turns.
        ensures value { IfOk result (λ found. found.value.completions.items
            ≡ take MOST_COMPLETIONS (completions_in_turns self.old.past from (to - from))) }

        // It ran at most one stride of turns more than those searched or past what was known, also
        // if it is then refused.
        ensures bound { IsWithinSearch from self.old self.new }

        // What it leaves is what a question about turn `to` leaves, and it goes on from where a
        // question about turn `from` does. It ends at the turn after the 256th completion, or at
        // `to`.
        ensures leaves { LeavesPast to self.old self.new }
        ensures runs { search_checked from to ≡ Ok tt → RunsFrom from self.old self.new }
        ensures reached { IfOk result (λ found. found.value.reached
            ≡ completions_end found.value.completions.items to) }
        ensures told { IfOk result (λ found. IsToldOf found self.old self.new) }
        ensures ends { IfOk result (λ found. IsAtTurn found.value.reached self.old self.new) }

        // A refusal for another cause than memory changes nothing.
        ensures refused { IsErr result → for_memory result ≡ false → self.new ≡ self.old }
    {
        let before = self.run.meter.count();
        check_search(from, to)?;
        let found = find_completions(alloc, &mut self.run, &self.script, from, to);
        self.highest = self.highest.max(self.run.known);
        let completions = found?;
        let value = CompletionsFound {
            completions,
            reached: self.run.machine.turns(),
        };
        Ok(Told::of(value, &self.run, before))
    }
}

/// Takes the machine to turn `from`, and from there to the end of the turn of the 256th completion
/// of the disk, or to turn `to`. Returns the completions.
///
/// Err if memory was refused; what was kept until then stays.
fn find_completions(
    alloc: Global,
    run: &mut KeptRun,
    script: &Script,
    from: u32,
    to: u32,
) -> Result<Vec<DiskCompletion>, NoMemory>
    requires run { IsRunOf script.now run.old }
    requires order { from ≤ to }
    requires limit { to ≤ LAST_TURN }
    ensures completions { IfOk result (λ completions. (p : Past) → p.script ≡ script.now
        → IsKeptRun p run.old
        → completions.items ≡ completions_in_turns p from (run.new.machine.state.turn - from)) }
    ensures early { IfOk result (λ completions. run.new.machine.state.turn < to
        → MOST_COMPLETIONS ≤ length completions.items) }
    ensures end { IfOk result (λ completions. run.new.machine.state.turn
        ≡ completions_end completions.items to) }
    ensures most { IfOk result (λ completions. length completions.items ≤ MOST_COMPLETIONS) }
    ensures least { OnOk result (from ≤ run.new.machine.state.turn) }
    ensures kept { KeepsRun script.now run.old run.new }
    ensures arrives { OnOk result (ArrivesAt run.new.machine.state.turn run.old run.new) }
    ensures advances { Advances (resumed_turn run.old from) to run.old run.new }
    ensures bound { run.new.meter + min from run.old.known + 1
        ≤ run.old.meter + max from run.new.machine.state.turn + run.old.ladder.stride }
{
    run.reach(alloc, script, from)?;
    list_completions(alloc, run, script, to)
}

/// Runs turns to the end of that of the 256th completion of the disk, or to turn `to`. Returns the
/// completions, and keeps what is to be kept of the turns.
///
/// Err if memory was refused; what was kept until then stays.
#[tactic(auto, using(crate::proofs::ask::ListedTurns::end_of_list))]
fn list_completions(
    alloc: Global,
    run: &mut KeptRun,
    script: &Script,
    to: u32,
) -> Result<Vec<DiskCompletion>, NoMemory>
    requires ready { CanGoOn run.old }
    requires order { run.old.machine.state.turn ≤ to }
    requires limit { to ≤ LAST_TURN }
    ensures completions { IfOk result (λ completions. AreCompletionsFrom
        run.new.machine.state.turn script.now run.old completions.items) }
    ensures early { IfOk result (λ completions. run.new.machine.state.turn < to
        → MOST_COMPLETIONS ≤ length completions.items) }
    ensures end { IfOk result (λ completions. run.new.machine.state.turn
        ≡ completions_end completions.items to) }
    ensures most { IfOk result (λ completions. length completions.items ≤ MOST_COMPLETIONS) }
    ensures least { OnOk result (run.old.machine.state.turn ≤ run.new.machine.state.turn) }
    ensures kept { LeavesKept script.now run.old run.new }
    ensures arrives { OnOk result (ArrivesAt run.new.machine.state.turn run.old run.new) }
    ensures advances { Advances run.old.machine.state.turn to run.old run.new }
{
    let mut completions = Vec::new(alloc);
    let mut begun = None;
    while run.machine.turns() < to && completions.len() < MOST_COMPLETIONS {
        let passed = pass_turn(alloc, run, script)?;
        add_if_there(&mut completions, passed.completion(begun))?;
        begun = passed.last_idle(begun);
    }
    Ok(completions)
}

/// Runs one turn with the events of the script, and tells the disk in it. Keeps what is to be kept
/// of the turn.
///
/// Err if memory was refused; what was kept until then stays.
fn pass_turn(alloc: Global, run: &mut KeptRun, script: &Script) -> Result<DiskTurn, NoMemory>
    requires ready { CanGoOn run.old }
    requires limit { run.old.machine.state.turn < LAST_TURN }
    ensures disk { IfOk result (IsDiskTurnOf script.now run.old) }
    ensures turn { IfOk result (λ passed. passed.turn ≡ run.old.machine.state.turn) }
    ensures kept { LeavesKept script.now run.old run.new }
    ensures way { OnOk result (GoesOn script.now run.old run.new) }
    ensures arrives { OnOk result (ArrivesAt (run.old.machine.state.turn + 1) run.old run.new) }
    ensures advances { Advances run.old.machine.state.turn (run.old.machine.state.turn + 1)
        run.old run.new }
    ensures metered { MetersWay run.old run.new }
{
    run.machine.ready()?;
    let turn = run.machine.turns();
    let before = run.machine.disk();
    let told = run
        .machine
        .turn_and_tell_disk(&mut run.meter, script.at(turn));
    run.settle(alloc)?;
    Ok(DiskTurn {
        turn,
        before,
        after: told.disk,
    })
}
