ghost use Rattle.std.specs.Prelude.{◌≡◌, ◌+◌, ◌≤◌, ◌<◌, ◌&&◌, ℕ, [], max, min, nat_le, true, IfOk};
ghost use Rattle.std.specs.Prelude.{OnOk};
ghost use Rattle.pdp_checkpoint.specs.Ladder.{next_of};
ghost use Rattle.pdp_cpu.specs.Handbook.MachineState.{after_turn};
ghost use Rattle.pdp_cpu.specs.Handbook.Turn.{turn_act};
ghost use Rattle.pdp_script.specs.Entries.{events_at};
ghost use Rattle.pdp_replay.specs.Run.KeptRuns.{is_current_by, resumed_turn, Advances, ArrivesAt};
ghost use Rattle.pdp_replay.specs.Run.KeptRuns.{CanGoOn, GoesOn, IsKeptRun, IsOnWay, IsOnWayOf};
ghost use Rattle.pdp_replay.specs.Run.KeptRuns.{IsResumed};
ghost use Rattle.pdp_replay.specs.Run.KeptRuns.{IsRunOf, IsSomeRun, IsUnderWay, KeepsRun};
ghost use Rattle.pdp_replay.specs.Run.KeptRuns.{LeavesKept, MetersWay, with_near};
ghost use Rattle.pdp_replay.specs.Run.Checkpoints.{AreStatesOf};
ghost use Rattle.pdp_replay.specs.Past.{Past, past_without_events};
ghost use Rattle.pdp_replay.specs.Past.Setup.{first_setup, IsGood};
ghost use Rattle.pdp_replay.specs.declared.past.base_setup.DriveCount.TheVariants.{One};
ghost use Rattle.pdp_replay.specs.Run.FirstTouches.{untouched_all};
ghost use Rattle.pdp_replay.specs.Run.States.{at};

use crate::past::{BaseSetup, core_store, drive_store};
use crate::run::{next_pause, run_part};
use pdp_checkpoint::Ladder;
use pdp_cpu::{Act, Machine, Meter, PagedMachine, WordTable};
use pdp_form::PlacedForms;
use pdp_icache::Lines;
use pdp_io_page::Delays;
use pdp_script::Script;
use pdp_unibus::LAST_TURN;
use pdp_word::NoMemory;
use std::alloc::Global;
use std::mem;

/// The machine of a run, what each word is carried out by, the checkpoints, the count of
/// the turns that were run, the known turn, and whether the machine is in the run's state of its
/// turn. known: every checkpoint and text before this turn is valid.
#[derive(Drop)]
pub(crate) struct KeptRun {
    pub(crate) machine: PagedMachine,
    pub(crate) forms: WordTable,
    pub(crate) ladder: Ladder,
    pub(crate) meter: Meter,
    pub(crate) known: u32,
    pub(crate) is_current: bool,
}

impl KeptRun {
    /// A run as of power-up with one drive and the standard delays and without patches, of which
    /// the first state is kept.
    ///
    /// Err if memory was refused.
    pub(crate) fn at_power_up(
        alloc: Global,
        base_setup: &BaseSetup,
        tape: Vec<u8>,
    ) -> Result<KeptRun, NoMemory>
        requires good { IsGood (first_setup base_setup.now tape.items) }
        requires one { base_setup.now.drives ≡ One }
        ensures run { IfOk result (λ run. IsKeptRun
            (past_without_events (first_setup base_setup.now tape.items)) run) }
        ensures known { IfOk result (λ run. run.known ≡ 0) }
        ensures turn { IfOk result (λ run. run.machine.state.turn ≡ 0) }
        ensures current { IfOk result (λ run. run.is_current ≡ true) }
        ensures meter { IfOk result (λ run. run.meter ≡ 0) }
        ensures stride { IfOk result (λ run. run.ladder.stride ≡ base_setup.now.stride) }
    {
        let mut machine = first_machine(alloc, base_setup, tape)?;
        let ladder = Ladder::new(alloc, base_setup.stride, &mut machine)?;
        let forms = WordTable::new(alloc)?;
        Ok(KeptRun {
            machine,
            forms,
            ladder,
            meter: Meter::new(),
            known: 0,
            is_current: true,
        })
    }

    /// Takes the machine to this turn, with the events of the script: from where it is, or from the
    /// best checkpoint of the lesser of that turn and the known one (`resume`). All that is to be
    /// kept on the way is kept, and the meter counts each turn.
    ///
    /// Err if memory was refused; what was kept until then stays.
    pub(crate) fn reach(
        &mut self,
        alloc: Global,
        script: &Script,
        turn: u32,
    ) -> Result<(), NoMemory>
        requires run { IsRunOf script.now self.old }
        requires limit { turn ≤ LAST_TURN }
        ensures kept { KeepsRun script.now self.old self.new }
        ensures there { OnOk result
            ((p : Past) → p.script ≡ script.now → IsKeptRun p self.old
            → self.new.machine.state ≡ at p turn) }
        ensures arrives { OnOk result (ArrivesAt turn self.old self.new) }
        ensures advances { Advances (resumed_turn self.old turn) turn self.old self.new }
        ensures bound { self.new.meter + min turn self.old.known + 1
            ≤ self.old.meter + turn + self.old.ladder.stride }
    {
        self.resume(turn);
        self.forward(alloc, script, turn)
    }

    /// Makes the machine the closest state that is kept to the lesser of this turn and the known
    /// one. If the machine is in a later state of the run that is not above this turn, it stays
    /// there.
    pub(crate) fn resume(&mut self, turn: u32)
        requires run { IsSomeRun self.old }
        ensures way { (p : Past) → IsKeptRun p self.old → IsOnWay p self.new }
        ensures resumed { IsResumed turn self.old self.new }
        ensures ready { CanGoOn self.new }
    {
        let stays = self.is_current_by(turn);
        let here = self.machine.turns();
        let closest = self.ladder.closest(turn.min(self.known));
        if is_later(stays, here, closest.turn) {
            return;
        }
        self.machine.load(&closest.saved);
        self.is_current = true;
    }

    /// Whether the machine is in a state of the run, of a turn up to this one.
    pub(crate) fn is_current_by(&self, turn: u32) -> bool
        ensures { result ≡ is_current_by self.now turn }
    {
        self.is_current && self.machine.turns() <= turn
    }

    /// Takes the machine on to this turn, with the events of the script: runs it, and where it
    /// meets a former run, takes states of that run back instead (`take_back`).
    ///
    /// Err if memory was refused; what was kept until then stays.
    fn forward(&mut self, alloc: Global, script: &Script, to: u32) -> Result<(), NoMemory>
        requires ready { CanGoOn self.old }
        requires run { IsOnWayOf script.now self.old }
        requires forward { self.old.machine.state.turn ≤ to }
        requires limit { to ≤ LAST_TURN }
        ensures kept { LeavesKept script.now self.old self.new }
        ensures way { OnOk result (GoesOn script.now self.old self.new) }
        ensures arrives { OnOk result (ArrivesAt to self.old self.new) }
        ensures advances { Advances self.old.machine.state.turn to self.old self.new }
    {
        while self.machine.turns() < to {
            self.part(alloc, script, to)?;
            self.take_back(alloc, to)?;
        }
        Ok(())
    }

    /// Runs the machine towards this turn, to where the run pauses (`next_pause`) or may meet a
    /// former run (`meeting`), but not beyond the next turn whose state is to be kept. If it pauses
    /// before this turn, the state there is kept beside the checkpoints.
    ///
    /// Err if memory was refused; what was kept until then stays.
    fn part(&mut self, alloc: Global, script: &Script, to: u32) -> Result<(), NoMemory>
        requires ready { CanGoOn self.old }
        requires forward { self.old.machine.state.turn < to }
        requires limit { to ≤ LAST_TURN }
        ensures kept { LeavesKept script.now self.old self.new }
        ensures way { OnOk result (GoesOn script.now self.old self.new) }
        ensures on { OnOk result (self.old.machine.state.turn < self.new.machine.state.turn) }
        ensures arrives { OnOk result (ArrivesAt self.new.machine.state.turn self.old self.new) }
        ensures advances { Advances self.old.machine.state.turn to self.old self.new }
    {
        let edited = self.ladder.edited();
        let pause = next_pause(self.machine.turns(), edited, to, self.ladder.stride());
        let meeting = self.meeting(pause);
        self.leg(alloc, script, meeting)?;
        self.keep_near(alloc, pause, to);
        Ok(())
    }

    // Keeps the state of the machine beside the checkpoints, if the run paused at turn `pause` on
    // its way to turn `to`.
    fn keep_near(&mut self, alloc: Global, pause: u32, to: u32)
        ensures same { self.new ≡ with_near self.new.ladder.near self.old }
        ensures way { (p : Past) → IsOnWay p self.old → IsOnWay p self.new }
    {
        if pause < to && self.machine.turns() == pause {
            self.keep_between(alloc);
        }
    }

    /// Keeps the state of the machine beside the checkpoints, if no state of this turn is kept, and
    /// if there is memory for it: no answer depends on it.
    pub(crate) fn keep_between(&mut self, alloc: Global)
        ensures same { self.new ≡ with_near self.new.ladder.near self.old }
        ensures way { (p : Past) → IsOnWay p self.old → IsOnWay p self.new }
    {
        let turn = self.machine.turns();
        if self.ladder.closest(turn).turn != turn {
            let _ = self.ladder.take_near(alloc, &mut self.machine);
        }
    }

    /// Runs the machine to this turn, but not beyond the next turn whose state is to be kept, and
    /// settles there.
    ///
    /// Err if memory was refused; what was kept until then stays.
    fn leg(&mut self, alloc: Global, script: &Script, to: u32) -> Result<(), NoMemory>
        requires ready { CanGoOn self.old }
        requires forward { self.old.machine.state.turn < to }
        requires limit { to ≤ LAST_TURN }
        ensures kept { LeavesKept script.now self.old self.new }
        ensures way { OnOk result (GoesOn script.now self.old self.new) }
        ensures on { OnOk result (self.old.machine.state.turn < self.new.machine.state.turn) }
        ensures arrives { OnOk result (ArrivesAt self.new.machine.state.turn self.old self.new) }
        ensures advances { Advances self.old.machine.state.turn to self.old self.new }
        ensures metered { MetersWay self.old self.new }
    {
        let end = self.ladder.next().min(to);
        // While the meter is apart from the machine, the loop counts in a register.
        let mut counting = mem::replace(&mut self.meter, Meter::new());
        let ran = run_part(&mut self.machine, &self.forms, script, &mut counting, end);
        self.meter = counting;
        self.settle(alloc)?;
        ran
    }

    /// Runs one turn with the events of the script, settles after it, and tells its act.
    ///
    /// Err if memory was refused; what was kept until then stays.
    pub(crate) fn step(&mut self, alloc: Global, script: &Script) -> Result<Act, NoMemory>
        requires ready { CanGoOn self.old }
        requires limit { self.old.machine.state.turn < LAST_TURN }
        ensures act { IfOk result (λ act. act ≡ turn_act self.old.machine.state.turn
            (events_at script.now.entries self.old.machine.state.turn)
            self.old.machine.state.world) }
        ensures machine { OnOk result (self.new.machine.state ≡ after_turn
            (events_at script.now.entries self.old.machine.state.turn) self.old.machine.state) }
        ensures kept { LeavesKept script.now self.old self.new }
        ensures way { OnOk result (GoesOn script.now self.old self.new) }
        ensures arrives { OnOk result
            (ArrivesAt (self.old.machine.state.turn + 1) self.old self.new) }
        ensures advances { Advances self.old.machine.state.turn (self.old.machine.state.turn + 1)
            self.old self.new }
        ensures metered { MetersWay self.old self.new }
    {
        self.machine.ready()?;
        let turn = self.machine.turns();
        let act = self.machine.turn(&mut self.meter, script.at(turn));
        self.settle(alloc)?;
        Ok(act)
    }

    /// The machine came to a turn, at the latest the next one whose state is to be kept: keeps its
    /// state there, and raises the known turn to it.
    ///
    /// Err if memory was refused: the known turn is then at least the one before, up to which texts
    /// are kept, and the machine is in no state of the run.
    pub(crate) fn settle(&mut self, alloc: Global) -> Result<(), NoMemory>
        requires within { self.old.machine.state.turn ≤ next_of self.old.ladder }
        requires current { self.old.is_current ≡ true }
        requires limit { self.old.machine.state.turn ≤ LAST_TURN }
        ensures kept { (p : Past) → AreStatesOf p self.old.known self.old.ladder
            → IsUnderWay p self.old.known self.old.machine → IsKeptRun p self.new }
        ensures machine { OnOk result (self.new.machine ≡ self.old.machine) }
        ensures arrives { OnOk result (ArrivesAt self.old.machine.state.turn self.old self.new) }
        ensures advances { Advances self.old.machine.state.turn self.old.machine.state.turn
            self.old self.new }
        ensures meter { self.new.meter ≡ self.old.meter }
    {
        let turn = self.machine.turns();
        if turn == self.ladder.next() {
            if let Err(refused) = self.ladder.take(alloc, &mut self.machine) {
                self.machine.keep_text(turn - 1);
                self.machine.forget(turn - 1);
                self.known = self.known.max(turn - 1);
                self.is_current = false;
                return Err(refused);
            }
        }
        self.known = self.known.max(turn);
        Ok(())
    }
}

/// Whether a run goes on from its machine, which may stay or not and is at turn `here`, and not
/// from the state that is kept of this turn.
fn is_later(stays: bool, here: u32, kept: u32) -> bool
    ensures { result ≡ (nat_le kept here && stays) }
{
    kept <= here && stays
}

/// The machine as of power-up with one drive and the standard delays and without patches.
///
/// Err if there is no memory for it.
fn first_machine(
    alloc: Global,
    base_setup: &BaseSetup,
    tape: Vec<u8>,
) -> Result<PagedMachine, NoMemory>
    requires good { IsGood (first_setup base_setup.now tape.items) }
    requires one { base_setup.now.drives ≡ One }
    ensures state { IfOk result (λ machine. machine.state
        ≡ at (past_without_events (first_setup base_setup.now tape.items)) 0) }
    ensures kept_text { IfOk result (λ machine. machine.kept_text ≡ []) }
    ensures kept_punched { IfOk result (λ machine. machine.kept_punched ≡ []) }
    ensures first_touches { IfOk result (λ machine. machine.first_touches
        ≡ untouched_all (first_setup base_setup.now tape.items)) }
{
    let core = core_store(alloc, base_setup)?;
    let drives = vec![in alloc; drive_store(alloc, base_setup.image(0))?]?;
    let delays = Delays::standard();
    let lines = Lines::new(alloc)?;
    let placed = PlacedForms::new(alloc)?;
    Ok(Machine::at_power_up(
        alloc,
        lines,
        placed,
        base_setup.start,
        core,
        drives,
        tape,
        delays,
    ))
}
