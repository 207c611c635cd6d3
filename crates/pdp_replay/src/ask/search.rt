ghost use Rattle.std.specs.Prelude.{◌≡◌, ◌+◌, ◌-◌, ◌<◌, ◌≤◌, min, max, false, IfOk, IsErr, Ok};
ghost use Rattle.std.specs.Prelude.{OnOk};
ghost use Rattle.pdp_script.specs.Refusal.{for_memory, question_answer, result_map};
ghost use Rattle.pdp_replay.specs.Past.{Past};
ghost use Rattle.pdp_replay.specs.Run.KeptRuns.{resumed_turn, Advances, ArrivesAt, CanGoOn, GoesOn};
ghost use Rattle.pdp_replay.specs.Run.KeptRuns.{IsKeptRun, IsRunOf, KeepsRun, LeavesKept};
ghost use Rattle.pdp_replay.specs.Run.KeptRuns.{MetersWay};
ghost use Rattle.pdp_replay.specs.Ask.Known.{LeavesPast, RunsFrom};
ghost use Rattle.pdp_replay.specs.Ask.Searches.{first_turn_of, search_checked, turn_reached};
ghost use Rattle.pdp_replay.specs.Ask.Searches.{EndsAfter, IsFirst, IsWithinSearch};
ghost use Rattle.pdp_replay.specs.Past.Setup.{SetupData};
ghost use Rattle.pdp_replay.specs.Ask.SoughtTurns.{is_sought_at, seek_checked};
ghost use Rattle.pdp_replay.specs.Ask.Told.{IsAtTurn, IsToldOf};
ghost use Rattle.pdp_replay.specs.Ask.Watches.{IsFirstInRun, IsFirstTo, IsInside};

use crate::ask::search_turns::search_part;
use crate::ask::watch::Watchpoint;
use crate::ask::{Sought, Told};
use crate::engine::Engine;
use crate::run::KeptRun;
use pdp_cpu::Meter;
use pdp_script::{Fault, Script};
use pdp_unibus::LAST_TURN;
use pdp_word::NoMemory;
use std::alloc::Global;
use std::mem;

impl Engine {
    /// The first turn from turn `from` on and before turn `to` that is sought, of the run from
    /// power-up of the past as it is now. The machine runs to the end of that turn, or to `to`.
    ///
    /// Err(TurnTooLarge) if a turn is above 1,000,000,000; otherwise Err(CountOutOfRange) if `from`
    /// is above `to`; otherwise, of the first condition on a word of core that can't be asked,
    /// Err(OutsideCore) if the word is not in core, else Err(OddAddress) if its address is odd;
    /// otherwise Err(NoMemory) if memory was refused. No refusal changes the past, and one for
    /// another cause than memory changes nothing. [P]
    pub fn first_at(
        &mut self,
        alloc: Global,
        sought: Sought,
        from: u32,
        to: u32,
    ) -> Result<Told<Option<u32>>, Fault>
        ensures refusal { result_map (λ _. tt) result ≡ question_answer
            (seek_checked sought from to self.old.past.setup) (for_memory result) }

        // The turn is the first, said as what is true of it and as what computes it.
        ensures turn { IfOk result
            (λ found. IsFirst (is_sought_at self.old.past sought) from to found.value) }
        ensures value { IfOk result (λ found. found.value
            ≡ first_turn_of (is_sought_at self.old.past sought) from (to - from)) }

        // It ran at most one stride of turns more than those searched or past what was known, also
        // if it is then refused.
        ensures bound { IsWithinSearch from self.old self.new }

        // What it leaves is what a question about turn `to` leaves, and it goes on from where a
        // question about turn `from` does.
        ensures leaves { LeavesPast to self.old self.new }
        ensures runs { seek_checked sought from to self.old.past.setup ≡ Ok tt
            → RunsFrom from self.old self.new }
        ensures told { IfOk result (λ found. IsToldOf found self.old self.new) }
        ensures ends { IfOk result
            (λ found. IsAtTurn (turn_reached found.value to) self.old self.new) }

        // A refusal for another cause than memory changes nothing.
        ensures refused { IsErr result → for_memory result ≡ false → self.new ≡ self.old }
    {
        let before = self.run.meter.count();
        check_seek(self.base_setup.units, sought, from, to)?;
        let found = find_first(alloc, &mut self.run, &self.script, sought, from, to);
        self.highest = self.highest.max(self.run.known);
        let turn = found?;
        Ok(Told::of(turn, &self.run, before))
    }
}

/// Whether the turns from one on and before another can be searched.
///
/// Err(TurnTooLarge) if either is above 1,000,000,000; otherwise Err(CountOutOfRange) if `from` is
/// above `to`.
pub(crate) fn check_search(from: u32, to: u32) -> Result<(), Fault>
    ensures refusal { search_checked from to ≡ result }
    ensures limit { OnOk result (to ≤ LAST_TURN) }
    ensures order { OnOk result (from ≤ to) }
{
    if from > LAST_TURN || to > LAST_TURN {
        return Err(Fault::TurnTooLarge);
    }
    if from > to {
        return Err(Fault::CountOutOfRange);
    }
    Ok(())
}

/// Whether the turns from one on and before another can be searched for what is sought, in a run
/// with `units` units of core.
///
/// Err as `check_search` has it; otherwise as `check_conditions` does.
pub(crate) fn check_seek(units: u8, sought: Sought, from: u32, to: u32) -> Result<(), Fault>
    ensures refusal { (s : SetupData) → s.units ≡ units → seek_checked sought from to s ≡ result }
    ensures limit { OnOk result (to ≤ LAST_TURN) }
    ensures order { OnOk result (from ≤ to) }
{
    check_search(from, to)?;
    sought.check(units)
}

/// Takes the machine to turn `from`, and from there to the end of the first turn that is sought, or
/// to turn `to`. Returns the turn that is sought.
///
/// Err if memory was refused; what was kept until then stays.
fn find_first(
    alloc: Global,
    run: &mut KeptRun,
    script: &Script,
    sought: Sought,
    from: u32,
    to: u32,
) -> Result<Option<u32>, NoMemory>
    requires run { IsRunOf script.now run.old }
    requires order { from ≤ to }
    requires limit { to ≤ LAST_TURN }
    ensures found { IfOk result (λ found. (p : Past) → p.script ≡ script.now → IsKeptRun p run.old
        → IsFirst (is_sought_at p sought) from to found) }
    ensures kept { KeepsRun script.now run.old run.new }
    ensures arrives { IfOk result (λ found. ArrivesAt (turn_reached found to) run.old run.new) }
    ensures advances { Advances (resumed_turn run.old from) to run.old run.new }
    ensures bound { run.new.meter + min from run.old.known + 1
        ≤ run.old.meter + max from run.new.machine.state.turn + run.old.ladder.stride }
{
    run.reach(alloc, script, from)?;
    search(alloc, run, script, Watchpoint::Act(sought), to)
}

/// Runs turns to the end of the first that is watched for, or to turn `to`. Returns the turn that
/// is watched for, and keeps what is to be kept.
///
/// Err if memory was refused; what was kept until then stays.
pub(crate) fn search(
    alloc: Global,
    run: &mut KeptRun,
    script: &Script,
    watch: Watchpoint,
    to: u32,
) -> Result<Option<u32>, NoMemory>
    requires ready { CanGoOn run.old }
    requires order { run.old.machine.state.turn ≤ to }
    requires limit { to ≤ LAST_TURN }
    requires inside { IsInside watch run.old.machine }
    ensures found { IfOk result (IsFirstTo to script.now watch run.old) }
    ensures inside { OnOk result (IsInside watch run.new.machine) }
    ensures on { OnOk result (run.old.machine.state.turn < to
        → run.old.machine.state.turn < run.new.machine.state.turn) }
    ensures way { OnOk result (GoesOn script.now run.old run.new) }
    ensures kept { LeavesKept script.now run.old run.new }
    ensures arrives { IfOk result (λ found. ArrivesAt (turn_reached found to) run.old run.new) }
    ensures advances { Advances run.old.machine.state.turn to run.old run.new }
{
    while run.machine.turns() < to {
        let found = search_leg(alloc, run, script, watch, to)?;
        if found.is_some() {
            return Ok(found);
        }
    }
    Ok(None)
}

/// The same, but at most to the next turn whose state is to be kept.
fn search_leg(
    alloc: Global,
    run: &mut KeptRun,
    script: &Script,
    watch: Watchpoint,
    to: u32,
) -> Result<Option<u32>, NoMemory>
    requires ready { CanGoOn run.old }
    requires order { run.old.machine.state.turn < to }
    requires limit { to ≤ LAST_TURN }
    requires inside { IsInside watch run.old.machine }
    ensures found { IfOk result (IsFirstInRun script.now watch run.old run.new) }
    ensures ends { IfOk result (EndsAfter run.new.machine.state.turn) }
    ensures on { OnOk result (run.old.machine.state.turn < run.new.machine.state.turn) }
    ensures inside { OnOk result (IsInside watch run.new.machine) }
    ensures kept { LeavesKept script.now run.old run.new }
    ensures way { OnOk result (GoesOn script.now run.old run.new) }
    ensures arrives { OnOk result (ArrivesAt run.new.machine.state.turn run.old run.new) }
    ensures advances { Advances run.old.machine.state.turn to run.old run.new }
    ensures metered { MetersWay run.old run.new }
{
    let end = run.ladder.next().min(to);
    // While the meter is apart from the machine, the loop counts in a register.
    let mut counting = mem::replace(&mut run.meter, Meter::new());
    let found = search_part(
        &mut run.machine,
        &run.forms,
        script,
        &mut counting,
        watch,
        end,
    );
    run.meter = counting;
    run.settle(alloc)?;
    found
}
