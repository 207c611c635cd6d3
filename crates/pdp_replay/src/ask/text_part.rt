ghost use Rattle.std.specs.Prelude.{◌≡◌, ◌+◌, ◌≤◌, drop, length, max, min, option_map};
ghost use Rattle.std.specs.Prelude.{slice_get, false, IfOk, IsErr, Ok, OnOk};
ghost use Rattle.pdp_cpu.specs.KeptTexts.{without_turns};
ghost use Rattle.pdp_script.specs.Refusal.{for_memory, question_answer, result_map};
ghost use Rattle.pdp_replay.specs.Past.{Past};
ghost use Rattle.pdp_replay.specs.Run.Checkpoints.{punched_kept_at, text_kept_at};
ghost use Rattle.pdp_replay.specs.Run.KeptRuns.{resumed_turn, Advances, ArrivesAt};
ghost use Rattle.pdp_replay.specs.Run.KeptRuns.{IsKeptRun, IsRunOf, KeepsRun};
ghost use Rattle.pdp_replay.specs.Ask.Known.{IsWithinBound, LeavesPast, RunsFrom};
ghost use Rattle.pdp_replay.specs.Ask.Searches.{first_turn_of, turn_reached, IsFirst};
ghost use Rattle.pdp_replay.specs.Ask.Searches.{IsWithinSearch};
ghost use Rattle.pdp_replay.specs.Ask.TextParts.{byte_checked, bytes_at, comes_out, shown_of};
ghost use Rattle.pdp_replay.specs.Ask.TextParts.{turn_checked};
ghost use Rattle.pdp_replay.specs.Ask.Told.{IsAtTurn, IsToldOf};

use crate::ask::items::read_bytes;
use crate::ask::search::search;
use crate::ask::watch::Watchpoint;
use crate::ask::{Bytes, Told};
use crate::engine::Engine;
use crate::run::KeptRun;
use pdp_cpu::{KeptByte, PagedMachine};
use pdp_script::{Fault, Script};
use pdp_unibus::LAST_TURN;
use pdp_word::NoMemory;
use std::alloc::Global;

/// Which bytes came out of the machine [P].
#[derive(Clone, Copy)]
pub enum TextKind {
    /// Those that were printed on the console.
    Printed,
    /// Those that were punched.
    Punched,
}

impl TextKind {
    /// The bytes that came out of the machine since power-up, each with its turn.
    fn shown(self, machine: &PagedMachine) -> &[KeptByte]
        ensures { result.now ≡ shown_of self machine.now }
    {
        match self {
            TextKind::Printed => machine.text(),
            TextKind::Punched => machine.punched(),
        }
    }
}

impl Engine {
    /// The bytes that were printed or punched before this turn, from byte `first` on, counted from
    /// 0, of the run from power-up of the past as it is now. There are none if no more than `first`
    /// bytes came out before the turn. Only the bytes that are returned are copied.
    ///
    /// Err(TurnTooLarge) if the turn is above 1,000,000,000; otherwise Err(NoMemory) if memory was
    /// refused. No refusal changes the past, and one for another cause than memory changes nothing.
    /// [P]
    pub fn text_from(
        &mut self,
        alloc: Global,
        kind: TextKind,
        turn: u32,
        first: u32,
    ) -> Result<Told<Bytes>, Fault>
        ensures refusal { result_map (λ _. tt) result
            ≡ question_answer (turn_checked turn) (for_memory result) }
        ensures bytes { IfOk result
            (λ part. part.value ≡ drop first (bytes_at kind self.old.past turn)) }
        ensures bound { IsWithinBound turn turn self.old self.new.turns }
        ensures leaves { LeavesPast turn self.old self.new }
        ensures runs { turn_checked turn ≡ Ok tt → RunsFrom turn self.old self.new }
        ensures told { IfOk result (λ part. IsToldOf part self.old self.new) }
        ensures ends { IfOk result (λ part. IsAtTurn turn self.old self.new) }
        ensures refused { IsErr result → for_memory result ≡ false → self.new ≡ self.old }
    {
        let before = self.run.meter.count();
        check_turn(turn)?;
        let read = read_from(alloc, &mut self.run, &self.script, kind, turn, first);
        self.highest = self.highest.max(self.run.known);
        let bytes = read?;
        Ok(Told::of(bytes, &self.run, before))
    }

    /// The first turn in which the byte of this number, counted from 0, was printed or punched, of
    /// the run from power-up of the past as it is now; None if that isn't before turn
    /// 1,000,000,000. A byte that came out before the known turn is in the text that is kept.
    /// Otherwise the machine runs on from the known turn to the end of the turn that is found, or
    /// to turn 1,000,000,000.
    ///
    /// Err(NoMemory) if memory was refused, and no other. No refusal changes the past. [P]
    pub fn turn_of_byte(
        &mut self,
        alloc: Global,
        kind: TextKind,
        number: u32,
    ) -> Result<Told<Option<u32>>, Fault>
        ensures refusal { result_map (λ _. tt) result
            ≡ question_answer byte_checked (for_memory result) }
        ensures turn { IfOk result
            (λ found. IsFirst (comes_out kind number self.old.past) 0 LAST_TURN found.value) }
        ensures value { IfOk result (λ found. found.value
            ≡ first_turn_of (comes_out kind number self.old.past) 0 LAST_TURN) }
        ensures bound { IsWithinSearch self.old.known self.old self.new }
        ensures leaves { LeavesPast LAST_TURN self.old self.new }
        ensures runs { RunsFrom self.old.known self.old self.new }
        ensures told { IfOk result (λ found. IsToldOf found self.old self.new) }
        ensures ends { IfOk result (λ found. IsAtTurn
            (max self.old.known (turn_reached found.value LAST_TURN)) self.old self.new) }
    {
        let before = self.run.meter.count();
        let found = find_byte(alloc, &mut self.run, &self.script, kind, number);
        self.highest = self.highest.max(self.run.known);
        let turn = found?;
        Ok(Told::of(turn, &self.run, before))
    }
}

/// Whether what came out before this turn can be asked for.
///
/// Err(TurnTooLarge) if the turn is above 1,000,000,000.
fn check_turn(turn: u32) -> Result<(), Fault>
    ensures refusal { turn_checked turn ≡ result }
    ensures limit { OnOk result (turn ≤ LAST_TURN) }
{
    if turn > LAST_TURN {
        return Err(Fault::TurnTooLarge);
    }
    Ok(())
}

/// Takes the machine to this turn, and returns the bytes that came out before it, from byte `first`
/// on.
///
/// Err if memory was refused; what was kept until then stays.
fn read_from(
    alloc: Global,
    run: &mut KeptRun,
    script: &Script,
    kind: TextKind,
    turn: u32,
    first: u32,
) -> Result<Bytes, NoMemory>
    requires run { IsRunOf script.now run.old }
    requires limit { turn ≤ LAST_TURN }
    ensures bytes { IfOk result (λ bytes. (p : Past) → p.script ≡ script.now → IsKeptRun p run.old
        → bytes ≡ drop first (bytes_at kind p turn)) }
    ensures kept { KeepsRun script.now run.old run.new }
    ensures arrives { OnOk result (ArrivesAt turn run.old run.new) }
    ensures advances { Advances (resumed_turn run.old turn) turn run.old run.new }
    ensures bound { run.new.meter + min turn run.old.known + 1
        ≤ run.old.meter + turn + run.old.ladder.stride }
{
    run.reach(alloc, script, turn)?;
    read_bytes(alloc, after_first(kind.shown(&run.machine), first))
}

/// The bytes after the first `count`, none if there are no more than these.
#[tactic(auto, using(std::proofs::lemmas::List::drop_min))]
fn after_first(bytes: &[KeptByte], count: u32) -> &[KeptByte]
    ensures { result.now ≡ drop count bytes.now }
{
    let (_, rest) = bytes.split_at((count as usize).min(bytes.len()));
    rest
}

/// The turn in which the byte of this number came out: from the text of the known turn, which the
/// machine is taken to, or from the turns from there on.
///
/// Err if memory was refused; what was kept until then stays.
fn find_byte(
    alloc: Global,
    run: &mut KeptRun,
    script: &Script,
    kind: TextKind,
    number: u32,
) -> Result<Option<u32>, NoMemory>
    requires run { IsRunOf script.now run.old }
    requires limit { run.old.known ≤ LAST_TURN }
    ensures found { IfOk result (λ found. (p : Past) → p.script ≡ script.now → IsKeptRun p run.old
        → IsFirst (comes_out kind number p) 0 LAST_TURN found) }
    ensures kept { KeepsRun script.now run.old run.new }
    ensures arrives { IfOk result (λ found. ArrivesAt
        (max run.old.known (turn_reached found LAST_TURN)) run.old run.new) }
    ensures advances { Advances (resumed_turn run.old run.old.known) LAST_TURN run.old run.new }
    ensures bound { run.new.meter + run.old.known + 1
        ≤ run.old.meter + max run.old.known run.new.machine.state.turn + run.old.ladder.stride }
{
    let known = run.known;
    run.reach(alloc, script, known)?;
    match turn_at(kind.shown(&run.machine), number) {
        Some(turn) => Ok(Some(turn)),
        None => search(
            alloc,
            run,
            script,
            Watchpoint::Output { kind, number },
            LAST_TURN,
        ),
    }
}

/// The turn of the byte of this number, if there is one.
fn turn_at(bytes: &[KeptByte], number: u32) -> Option<u32>
    ensures { result ≡ option_map (λ b. b.turn) (slice_get bytes.now number) }
{
    match bytes.get(number as usize) {
        Some(byte) => Some(byte.turn),
        None => None,
    }
}
