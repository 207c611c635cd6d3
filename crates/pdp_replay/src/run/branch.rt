//! Branches: a second machine, which runs on from a state of the run with another script.

ghost use Rattle.std.specs.Prelude.{◌≡◌, ◌+◌, ◌-◌, ◌≤◌, length, map, min, replicate, IfOk, OnOk};
ghost use Rattle.pdp_store.specs.Stored.{no_touch_in};
ghost use Rattle.pdp_replay.specs.Past.{Past};
ghost use Rattle.pdp_replay.specs.Past.Edit.{past_with_patch};
ghost use Rattle.pdp_replay.specs.Run.Branches.{AreBeside, BranchesOff, Compares, IsBlank};
ghost use Rattle.pdp_replay.specs.Run.Branches.{IsBranchAt, IsBranchOf, IsLookedAt, IsRunOfSize};
ghost use Rattle.pdp_replay.specs.Run.Branches.{IsSomewhereUntouched, IsUntouchedBranch};
ghost use Rattle.pdp_replay.specs.Run.Branches.{KeepsBranch, WasAt};
ghost use Rattle.pdp_replay.specs.Run.KeptRuns.{CountsTurns, KeepsRun, RunsUpTo};

use crate::past::{BaseSetup, DRIVE_WORDS, UNIT_WORDS};
use crate::run::{KeptRun, run_part};
use pdp_cpu::{Machine, Meter, PagedMachine, Saved, WordTable};
use pdp_form::PlacedForms;
use pdp_icache::Lines;
use pdp_io_page::Delays;
use pdp_script::Script;
use pdp_store::{Paged, PagedDrive, WordAt};
use pdp_unibus::LAST_TURN;
use pdp_word::NoMemory;
use std::alloc::Global;

/// A machine in a state of the run of another past, and the script of that past.
#[derive(Drop)]
pub(crate) struct Branch {
    pub(crate) machine: PagedMachine,
    pub(crate) script: Script,
}

/// What the comparison of a run and a branch at a turn told.
#[derive(Drop)]
pub(crate) enum Likeness {
    /// Both are in the same state, except for stamps and what came out.
    Alike,
    /// They aren't; and the state of the branch.
    Apart(Saved),
}

impl Branch {
    /// Runs the machine to this turn; the meter counts each turn.
    ///
    /// Err if a turn's room was refused.
    pub(crate) fn run(
        &mut self,
        words: &WordTable,
        meter: &mut Meter,
        to: u32,
    ) -> Result<(), NoMemory>
        requires forward { self.old.machine.state.turn ≤ to }
        requires limit { to ≤ LAST_TURN }
        ensures branch { KeepsBranch self.old self.new }
        ensures turn { OnOk result (self.new.machine.state.turn ≡ to) }
        ensures runs { RunsUpTo to self.old.machine self.new.machine meter.old meter.new }
    {
        run_part(&mut self.machine, words, &self.script, meter, to)
    }

    /// Gives a word this value as of power-up. No turn before that of the machine, which is `turn`,
    /// touched the word's page.
    ///
    /// Err if memory was refused.
    pub(crate) fn set_word(
        &mut self,
        alloc: Global,
        at: WordAt,
        word: u16,
        turn: u32,
    ) -> Result<(), NoMemory>
        requires untouched { IsSomewhereUntouched at turn self.old }
        ensures branch { OnOk result ((q : Past) → IsUntouchedBranch at turn q self.old
            → IsBranchOf (past_with_patch at word q) self.new) }
        ensures turn { OnOk result (self.new.machine.state.turn ≡ turn) }
    {
        let mut here = self.machine.save(alloc)?;
        let page = here.patched_page(alloc, &mut self.machine, at, word)?;
        let pages = here.new_pages(alloc, &page)?;
        here.put_pages(&page, pages);
        self.machine.load(&here);
        Ok(())
    }

    /// Makes the machine the one that was saved, of an earlier turn.
    pub(crate) fn go_back(&mut self, saved: &Saved, turn: u32)
        requires earlier { WasAt turn saved.now self.old }
        ensures branch { (q : Past) → IsBranchAt q turn saved.now self.old
            → IsBranchAt q turn saved.now self.new }
        ensures turn { self.new.machine.state.turn ≡ turn }
    {
        self.machine.load(saved);
    }
}

impl KeptRun {
    /// A branch with this other script, in the state of this turn, up to which both scripts are
    /// the same.
    ///
    /// Err if memory was refused; what was kept until then stays.
    pub(crate) fn branch(
        &mut self,
        alloc: Global,
        base_setup: &BaseSetup,
        script: &Script,
        other: Script,
        turn: u32,
    ) -> Result<Branch, NoMemory>
        requires run { IsRunOfSize base_setup.now script.now self.old }
        requires limit { turn ≤ LAST_TURN }
        ensures kept { KeepsRun script.now self.old self.new }
        ensures looked { IsLookedAt turn self.old self.new }
        ensures bound { self.new.meter + min turn self.old.known + 1
            ≤ self.old.meter + turn + self.old.ladder.stride }
        ensures branch { IfOk result
            (BranchesOff turn base_setup.now script.now other self.old) }
        ensures turn { IfOk result (λ b. b.machine.state.turn ≡ turn) }
    {
        self.reach(alloc, script, turn)?;
        let here = self.machine.save(alloc)?;
        let output = self.machine.save_output(alloc, 0)?;
        let tape = self.machine.tape().to_vec(alloc)?;
        let mut machine = blank_machine(alloc, base_setup, tape)?;
        let first = self.ladder.best(0);
        machine.take_output(&output, &first.saved, &here)?;
        machine.load(&here);
        Ok(Branch {
            machine,
            script: other,
        })
    }

    /// Takes the run and the branch to this turn, and compares their states.
    ///
    /// Err if memory was refused; what was kept until then stays.
    pub(crate) fn compare(
        &mut self,
        alloc: Global,
        script: &Script,
        branch: &mut Branch,
        turn: u32,
    ) -> Result<Likeness, NoMemory>
        requires beside { AreBeside script.now self.old branch.old }
        requires forward { branch.old.machine.state.turn ≤ turn }
        requires limit { turn ≤ LAST_TURN }
        ensures told { IfOk result (Compares turn script.now self.old branch.old) }
        ensures kept { KeepsRun script.now self.old self.new }
        ensures branch { KeepsBranch branch.old branch.new }
        ensures turn { OnOk result (branch.new.machine.state.turn ≡ turn) }
        ensures looked { IsLookedAt turn self.old self.new }
        ensures counted { OnOk result (CountsTurns (turn - branch.old.machine.state.turn)
            self.old.meter self.new.meter) }
    {
        self.reach(alloc, script, turn)?;
        branch.run(&self.forms, &mut self.meter, turn)?;
        let here = branch.machine.save(alloc)?;
        if self.machine.meets(&here) {
            Ok(Likeness::Alike)
        } else {
            Ok(Likeness::Apart(here))
        }
    }
}

/// A machine with core and drives of the sizes of this setup, and with this tape.
///
/// Err if there is no memory for it.
fn blank_machine(
    alloc: Global,
    base_setup: &BaseSetup,
    tape: Vec<u8>,
) -> Result<PagedMachine, NoMemory>
    ensures { IfOk result (IsBlank base_setup.now tape.items) }
{
    let core = Paged::new(alloc, usize::from(base_setup.units) * UNIT_WORDS, true)?;
    let drives = blank_drives(alloc, base_setup.drives.count())?;
    let lines = Lines::new(alloc)?;
    let placed = PlacedForms::new(alloc)?;
    let (start, delays) = (base_setup.start, Delays::standard());
    Ok(Machine::at_power_up(alloc, lines, placed, start, core, drives, tape, delays))
}

/// `count` drives, whose words are all 0.
///
/// Err if there is no memory for them.
fn blank_drives(alloc: Global, count: usize) -> Result<Vec<PagedDrive>, NoMemory>
    ensures sizes { IfOk result (λ drives. map (λ d. length d.words) drives.items
        ≡ replicate count DRIVE_WORDS) }
    ensures touches { IfOk result (λ drives. map (λ d. d.first_touches) drives.items
        ≡ replicate count (no_touch_in DRIVE_WORDS)) }
{
    let mut drives = Vec::with_capacity(alloc, count)?;
    for _ in 0..count {
        drives.push(PagedDrive::blank(alloc, DRIVE_WORDS)?)?;
    }
    Ok(drives)
}
