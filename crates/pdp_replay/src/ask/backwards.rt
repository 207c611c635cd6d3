//! Searches backwards: for the last of some turns that is sought.

ghost use Rattle.std.specs.Prelude.{◌≡◌, ◌+◌, ◌-◌, ◌*◌, ◌/◌, ◌<◌, ◌≤◌, max, min, unwrap_or};
ghost use Rattle.std.specs.Prelude.{false, IfOk, IsErr, Ok, OnErr, OnOk};
ghost use Rattle.pdp_script.specs.Refusal.{for_memory, question_answer, result_map};
ghost use Rattle.pdp_replay.specs.Run.KeptRuns.{resumed_turn, Advances, CanGoOn, IsRunOf};
ghost use Rattle.pdp_replay.specs.Run.KeptRuns.{KeepsRun, LeavesKept};
ghost use Rattle.pdp_replay.specs.Ask.Known.{LeavesPast};
ghost use Rattle.pdp_replay.specs.Ask.SoughtTurns.{is_sought_at, seek_checked};
ghost use Rattle.pdp_replay.specs.Ask.Told.{IsToldOf};
ghost use Rattle.pdp_replay.specs.Ask.Watches.{IsInside};
ghost use Rattle.pdp_replay.specs.Ask.Backwards.{last_of_turns, IsFoundBackwards, IsLastOf};
ghost use Rattle.pdp_replay.specs.Ask.Backwards.{IsLastSought, IsLastTo, IsWithinBackwards};
ghost use Rattle.pdp_replay.specs.Ask.Backwards.{RunsBack};
ghost use Rattle.pdp_replay.specs.Run.Branches.{IsLookedAt};

use crate::ask::search::{check_seek, search};
use crate::ask::watch::Watchpoint;
use crate::ask::{Sought, Told};
use crate::engine::Engine;
use crate::run::KeptRun;
use pdp_script::{Fault, Script};
use pdp_unibus::LAST_TURN;
use pdp_word::NoMemory;
use std::alloc::Global;

impl Engine {
    /// The last turn from turn `from` on and before turn `to` that is sought, of the run from
    /// power-up of the past as it is now. The turns are searched stride by stride from the end on,
    /// each once, up to the stride in which one is found.
    ///
    /// It is refused as [`Engine::first_at`] is. No refusal changes the past, and one for another
    /// cause than memory changes nothing. [P]
    pub fn last_at(
        &mut self,
        alloc: Global,
        sought: Sought,
        from: u32,
        to: u32,
    ) -> Result<Told<Option<u32>>, Fault>
        ensures refusal { result_map (λ _. tt) result ≡ question_answer
            (seek_checked sought from to self.old.past.setup) (for_memory result) }

        // The turn is the last, said as what is true of it and as what computes it.
        ensures turn { IfOk result
            (λ found. IsLastOf (is_sought_at self.old.past sought) from to found.value) }
        ensures value { IfOk result (λ found. found.value
            ≡ last_of_turns (is_sought_at self.old.past sought) from (to - from)) }

        // Of turns that were known it ran at most two strides of turns more than those back to
        // `from`, also if it is then refused, or back to the turn that it found.
        ensures bound { seek_checked sought from to self.old.past.setup ≡ Ok tt
            → IsWithinBackwards from to self.old self.new }
        ensures found { IfOk result
            (λ found. IsFoundBackwards from to found.value self.old self.new) }
        ensures told { IfOk result (λ found. IsToldOf found self.old self.new) }

        // What it leaves is what a question about turn `to` leaves.
        ensures leaves { LeavesPast to self.old self.new }

        // A refusal for another cause than memory changes nothing.
        ensures refused { IsErr result → for_memory result ≡ false → self.new ≡ self.old }
    {
        let before = self.run.meter.count();
        check_seek(self.base_setup.units, sought, from, to)?;
        let found = find_last(alloc, &mut self.run, &self.script, sought, from, to);
        self.highest = self.highest.max(self.run.known);
        let turn = found?;
        Ok(Told::of(turn, &self.run, before))
    }
}

/// Makes the turns up to turn `to` known, and searches them backwards as far as turn `from`.
/// Returns the last turn that is sought.
///
/// Err if memory was refused; what was kept until then stays.
fn find_last(
    alloc: Global,
    run: &mut KeptRun,
    script: &Script,
    sought: Sought,
    from: u32,
    to: u32,
) -> Result<Option<u32>, NoMemory>
    requires run { IsRunOf script.now run.old }
    requires order { from ≤ to }
    requires limit { to ≤ LAST_TURN }
    ensures found { IfOk result (IsLastSought from to script.now sought run.old) }
    ensures kept { KeepsRun script.now run.old run.new }
    ensures looked { IsLookedAt to run.old run.new }
    ensures known { OnOk result (run.new.known ≡ max run.old.known to) }
    ensures bound { RunsBack from to run.old run.new }
    ensures ran { IfOk result (λ found. RunsBack (unwrap_or found from) to run.old run.new) }
{
    make_known(alloc, run, script, to)?;
    search_back(alloc, run, script, sought, from, to)
}

/// Runs the turns up to turn `to` that aren't known.
///
/// Err if memory was refused; what was kept until then stays.
fn make_known(alloc: Global, run: &mut KeptRun, script: &Script, to: u32) -> Result<(), NoMemory>
    requires run { IsRunOf script.now run.old }
    requires limit { to ≤ LAST_TURN }
    ensures kept { KeepsRun script.now run.old run.new }
    ensures looked { IsLookedAt to run.old run.new }
    ensures known { OnOk result (run.new.known ≡ max run.old.known to) }
    ensures none { to ≤ run.old.known → run.new ≡ run.old }
    ensures bound { run.new.meter + min to run.old.known
        ≤ run.old.meter + to + run.old.ladder.stride }
{
    if to <= run.known {
        return Ok(());
    }
    run.reach(alloc, script, to)
}

/// Searches known turns backwards, from turn `to` as far as turn `from`, part by part. Returns the
/// last turn that is sought.
///
/// Err if memory was refused; what was kept until then stays.
fn search_back(
    alloc: Global,
    run: &mut KeptRun,
    script: &Script,
    sought: Sought,
    from: u32,
    to: u32,
) -> Result<Option<u32>, NoMemory>
    requires run { IsRunOf script.now run.old }
    requires order { from ≤ to }
    requires limit { to ≤ LAST_TURN }
    requires known { to ≤ run.old.known }
    ensures found { IfOk result (IsLastSought from to script.now sought run.old) }
    ensures kept { KeepsRun script.now run.old run.new }
    ensures looked { IsLookedAt to run.old run.new }
    ensures bound { run.new.meter + from
        ≤ run.old.meter + to + 2 * run.new.ladder.stride }
    ensures ran { IfOk result (λ found. run.new.meter + unwrap_or found from
        ≤ run.old.meter + to + 2 * run.new.ladder.stride) }
{
    let mut start = to;
    let mut found = None;
    while found.is_none() && from < start {
        let end = start;
        start = part_before(end, from, run.ladder.stride());
        found = find_last_between(alloc, run, script, sought, start, end)?;
    }
    Ok(found)
}

/// Where the part begins that a search backwards looks at before turn `end`: at the last multiple
/// of the stride before that, or at turn `from`, whichever is later.
fn part_before(end: u32, from: u32, stride: u32) -> u32
    requires order { from < end }
    requires some { 0 < stride }
    ensures begin { result ≡ max ((end - 1) / stride * stride) from }
    ensures before { result < end }
    ensures near { end ≤ result + stride }
{
    ((end - 1) / stride * stride).max(from)
}

/// Takes the machine to turn `from`, and from there to turn `to`. Returns the last turn between
/// them that is sought.
///
/// Err if memory was refused; what was kept until then stays.
fn find_last_between(
    alloc: Global,
    run: &mut KeptRun,
    script: &Script,
    sought: Sought,
    from: u32,
    to: u32,
) -> Result<Option<u32>, NoMemory>
    requires run { IsRunOf script.now run.old }
    requires order { from ≤ to }
    requires limit { to ≤ LAST_TURN }
    ensures found { IfOk result (IsLastSought from to script.now sought run.old) }
    ensures kept { KeepsRun script.now run.old run.new }
    ensures advances { Advances (resumed_turn run.old from) to run.old run.new }
{
    run.reach(alloc, script, from)?;
    search_last(alloc, run, script, Watchpoint::Act(sought), to)
}

/// Runs turns to turn `to`. Returns the last that is watched for, and keeps what is to be kept.
///
/// Err if memory was refused; what was kept until then stays.
fn search_last(
    alloc: Global,
    run: &mut KeptRun,
    script: &Script,
    watch: Watchpoint,
    to: u32,
) -> Result<Option<u32>, NoMemory>
    requires ready { CanGoOn run.old }
    requires order { run.old.machine.state.turn ≤ to }
    requires limit { to ≤ LAST_TURN }
    requires inside { IsInside watch run.old.machine }
    ensures last { IfOk result (IsLastTo to script.now watch run.old) }
    ensures kept { LeavesKept script.now run.old run.new }
    ensures advances { Advances run.old.machine.state.turn to run.old run.new }
{
    let mut last = None;
    while run.machine.turns() < to {
        let found = search(alloc, run, script, watch, to)?;
        last = found.or(last);
    }
    Ok(last)
}
