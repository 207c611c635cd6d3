//! From which turn on the run with an edit would be the run without it.

ghost use Rattle.std.specs.Prelude.{◌≡◌, ◌-◌, ◌<◌, ◌≤◌, ℕ, false, IfOk, IsErr, OnOk};
ghost use Rattle.pdp_cpu.specs.Saved.{saved_machine};
ghost use Rattle.pdp_script.specs.Refusal.{for_memory, question_answer, result_map};
ghost use Rattle.pdp_replay.specs.Ask.FadedAnswers.{ChangesNoAnswer};
ghost use Rattle.pdp_replay.specs.Ask.FadedSearches.{ChangesNoSearch};
ghost use Rattle.pdp_replay.specs.Ask.Fadings.{fading, joined_by, AreApart, AreBesideIn, IsBracket};
ghost use Rattle.pdp_replay.specs.Ask.Fadings.{IsBracketOrNone, IsEdge};
ghost use Rattle.pdp_replay.specs.Ask.Known.{LeavesPast};
ghost use Rattle.pdp_replay.specs.Ask.Told.{IsToldOf};
ghost use Rattle.pdp_replay.specs.Past.{Past};
ghost use Rattle.pdp_replay.specs.Run.Branches.{AreBeside, AreBesideAt, IsKeptOfSize, IsLookedAt};
ghost use Rattle.pdp_replay.specs.Run.Branches.{IsRunOfSize, KeepsBranch, SameEventsBefore};
ghost use Rattle.pdp_replay.specs.Run.KeptRuns.{CountsTurns, KeepsRun};
ghost use Rattle.pdp_replay.specs.Run.States.{at};

use crate::ask::Told;
use crate::ask::patch_fading::find_patch_fading;
use crate::engine::Engine;
use crate::past::{BaseSetup, PastEdit};
use crate::run::{Branch, KeptRun, Likeness};
use pdp_cpu::Saved;
use pdp_script::{Fault, Script};
use pdp_unibus::LAST_TURN;
use pdp_word::NoMemory;
use std::alloc::Global;

/// How many turns after the last one in which both runs surely differ they are compared first.
const FIRST_STEP: u32 = 1024;

/// In turn `apart` the runs are not one yet, with this state of the branch; in turn `alike` they
/// are.
#[derive(Drop)]
struct Bracket {
    apart: u32,
    alike: u32,
    state: Saved,
}

impl Engine {
    /// The least turn up to turn `to` from which on the run with this edit would be the run as it
    /// is: before it both machines are in the same state, except for when words were last written
    /// and what was printed or punched so far, and from it on both scripts have the same events. So
    /// both runs stay the same for ever. The edit isn't made.
    ///
    /// Err(TurnTooLarge) if `to` is above 1,000,000,000; else the refusal of the edit, as `insert`,
    /// `alter`, `drop_event`, `set_core` and `set_disk` have it; else Err(NoMemory) if memory was
    /// refused. No refusal changes the past, and one for another cause than memory changes nothing.
    /// [P]
    pub fn fades(
        &mut self,
        alloc: Global,
        edit: PastEdit,
        to: u32,
    ) -> Result<Told<Option<u32>>, Fault>
        ensures turn { result_map (λ f. f.value) result
            ≡ question_answer (fading edit to self.old.past) (for_memory result) }

        // From that turn on the edit changes no answer, and nothing that a search finds.
        ensures answers { IfOk result (λ f. ChangesNoAnswer edit self.old.past f.value) }
        ensures searches { IfOk result (λ f. ChangesNoSearch edit self.old.past f.value) }

        // What it leaves is what a question about turn `to` leaves.
        ensures leaves { LeavesPast to self.old self.new }
        ensures told { IfOk result (λ f. IsToldOf f self.old self.new) }

        // A refusal for another cause than memory changes nothing.
        ensures refused { IsErr result → for_memory result ≡ false → self.new ≡ self.old }
    {
        let before = self.run.meter.count();
        if to > LAST_TURN {
            return Err(Fault::TurnTooLarge);
        }
        let (base_setup, script) = (&self.base_setup, &self.script);
        let found = find_fading(alloc, &mut self.run, base_setup, script, edit, to);
        self.highest = self.highest.max(self.run.known);
        let turn = found?;
        Ok(Told::of(turn, &self.run, before))
    }
}

/// The least turn up to turn `to` from which on the run with this edit is the run without it.
///
/// Err is the refusal of the edit; or memory was refused, and what was kept until then stays.
fn find_fading(
    alloc: Global,
    run: &mut KeptRun,
    base_setup: &BaseSetup,
    script: &Script,
    edit: PastEdit,
    to: u32,
) -> Result<Option<u32>, Fault>
    requires run { IsRunOfSize base_setup.now script.now run.old }
    requires limit { to ≤ LAST_TURN }
    ensures turn { (p : Past) → IsKeptOfSize p base_setup.now script.now run.old
        → result ≡ question_answer (fading edit to p) (for_memory result) }
    ensures kept { KeepsRun script.now run.old run.new }
    ensures looked { IsLookedAt to run.old run.new }
    ensures refused { IsErr result → for_memory result ≡ false → run.new ≡ run.old }
{
    match edit {
        PastEdit::Script(edit) => {
            let other = script.edited(alloc, edit)?;
            let from = script.first_turn_of(edit);
            Ok(find_script_fading(alloc, run, base_setup, script, other, from, to)?)
        }
        PastEdit::Word(patch) => {
            let place = patch.place(base_setup)?;
            Ok(find_patch_fading(alloc, run, base_setup, script, place, to)?)
        }
    }
}

/// The least turn up to turn `to` from which on both runs are one: that with this script, and that
/// with the other one, which has the same events before turn `from`.
///
/// Err if memory was refused; what was kept until then stays.
fn find_script_fading(
    alloc: Global,
    run: &mut KeptRun,
    base_setup: &BaseSetup,
    script: &Script,
    other: Script,
    from: u32,
    to: u32,
) -> Result<Option<u32>, NoMemory>
    requires run { IsRunOfSize base_setup.now script.now run.old }
    requires same { SameEventsBefore from script.now other }
    requires limit { to ≤ LAST_TURN }
    ensures found { IfOk result (λ found. (p q : Past)
        → IsKeptOfSize p base_setup.now script.now run.old → q.script ≡ other → q.setup ≡ p.setup
        → found ≡ joined_by to p q) }
    ensures kept { KeepsRun script.now run.old run.new }
    ensures looked { IsLookedAt to run.old run.new }
{
    let Some(apart) = script.last_difference(&other) else {
        return Ok(Some(0));
    };
    if to <= apart {
        return Ok(None);
    }
    let mut branch = run.branch(alloc, base_setup, script, other, from.min(apart))?;
    find_edge(alloc, run, script, &mut branch, apart, to)
}

/// The least turn up to turn `to` from which on the run and the branch are one. They are not one in
/// turn `apart`, and their scripts have the same events after it.
///
/// Err if memory was refused; what was kept until then stays.
pub(crate) fn find_edge(
    alloc: Global,
    run: &mut KeptRun,
    script: &Script,
    branch: &mut Branch,
    apart: u32,
    to: u32,
) -> Result<Option<u32>, NoMemory>
    requires beside { AreBeside script.now run.old branch.old }
    requires behind { branch.old.machine.state.turn ≤ apart }
    requires order { apart ≤ to }
    requires limit { to ≤ LAST_TURN }
    ensures found { IfOk result (λ found. (p q : Past)
        → AreApart apart p q script.now run.old branch.old → found ≡ joined_by to p q) }
    ensures kept { KeepsRun script.now run.old run.new }
    ensures looked { IsLookedAt to run.old run.new }
    ensures counted { OnOk result (CountsTurns (apart - branch.old.machine.state.turn)
        run.old.meter run.new.meter) }
{
    branch.run(&run.forms, &mut run.meter, apart)?;
    let state = branch.machine.save(alloc)?;
    match gallop(alloc, run, script, branch, state, apart, to)? {
        Some(bracket) => Ok(Some(halve(alloc, run, script, branch, bracket)?)),
        None => Ok(None),
    }
}

/// Compares both runs in greater and greater steps after turn `from`, in which they are not one,
/// with this state of the branch.
///
/// Err if memory was refused; what was kept until then stays.
fn gallop(
    alloc: Global,
    run: &mut KeptRun,
    script: &Script,
    branch: &mut Branch,
    state: Saved,
    from: u32,
    to: u32,
) -> Result<Option<Bracket>, NoMemory>
    requires beside { AreBesideAt from state script.now run.old branch.old }
    requires here { branch.old.machine.state.turn ≡ from }
    requires order { from ≤ to }
    requires limit { to ≤ LAST_TURN }
    ensures found { IfOk result (λ found. (p q : Past)
        → AreApart from p q script.now run.old branch.old → state ≡ saved_machine (at q from)
        → IsBracketOrNone to p q found) }
    ensures beside { IfOk result (AreBesideIn from to script.now run.new branch.new) }
    ensures kept { KeepsRun script.now run.old run.new }
    ensures branch { KeepsBranch branch.old branch.new }
    ensures looked { IsLookedAt to run.old run.new }
{
    let (mut apart, mut state) = (from, state);
    while apart < to {
        let step = FIRST_STEP.max(apart - from);
        let next = to.min(apart.saturating_add(step));
        match run.compare(alloc, script, branch, next)? {
            Likeness::Alike => {
                return Ok(Some(Bracket {
                    apart,
                    alike: next,
                    state,
                }));
            }
            Likeness::Apart(there) => {
                apart = next;
                state = there;
            }
        }
    }
    Ok(None)
}

/// Halves the turns between which both runs become one, until they are next to each other. Returns
/// the first turn in which they are one.
///
/// Err if memory was refused; what was kept until then stays.
fn halve(
    alloc: Global,
    run: &mut KeptRun,
    script: &Script,
    branch: &mut Branch,
    bracket: Bracket,
) -> Result<u32, NoMemory>
    requires beside { AreBesideAt bracket.apart bracket.state script.now run.old branch.old }
    requires order { bracket.apart < bracket.alike }
    requires limit { bracket.alike ≤ LAST_TURN }
    ensures found { IfOk result (λ found. (from to : ℕ) (p q : Past)
        → AreApart from p q script.now run.old branch.old → from ≤ bracket.apart
        → IsBracket to p q bracket → IsEdge to p q found) }
    ensures kept { KeepsRun script.now run.old run.new }
    ensures looked { IsLookedAt bracket.alike run.old run.new }
{
    let Bracket {
        mut apart,
        mut alike,
        mut state,
    } = bracket;
    while alike - apart > 1 {
        let middle = apart + (alike - apart) / 2;
        branch.go_back(&state, apart);
        match run.compare(alloc, script, branch, middle)? {
            Likeness::Alike => alike = middle,
            Likeness::Apart(there) => {
                apart = middle;
                state = there;
            }
        }
    }
    Ok(alike)
}
