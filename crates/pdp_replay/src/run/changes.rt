//! What edits of the past leave of what is kept of a run.

ghost use Rattle.std.specs.Prelude.{◌≡◌, ◌≤◌, ◌+◌, ◌/◌, ◌&&◌, length, map, min, nat_le, IfSome};
ghost use Rattle.std.specs.Prelude.{OnOk, OnErr};
ghost use Rattle.std.specs.List.{All, filter};
ghost use Rattle.pdp_checkpoint.specs.Delayed.{ladder_with_delays};
ghost use Rattle.pdp_checkpoint.specs.Patched.{HavePageAlike};
ghost use Rattle.pdp_checkpoint.specs.Ladder.{AreCheckpoints};
ghost use Rattle.pdp_cpu.specs.Saved.{HasWord};
ghost use Rattle.pdp_operand.specs.Phases.World.{world};
ghost use Rattle.pdp_replay.specs.Run.KeptRuns.{cut_to_first, reached_by, BeginsAnew, IsForgotten};
ghost use Rattle.pdp_replay.specs.Run.KeptRuns.{left_run, AreFormersAfter, IsForgottenFrom};
ghost use Rattle.pdp_replay.specs.Run.KeptRuns.{IsKeptRun, IsPatchedRun};
ghost use Rattle.pdp_replay.specs.Past.{Past};
ghost use Rattle.pdp_store.specs.FirstTouches.{all_first_touches_before, never};
ghost use Rattle.pdp_unibus.specs.SavedBusData.{bus_with_tape};

use crate::run::KeptRun;
use pdp_checkpoint::{Former, Ladder};
use pdp_io_page::Delays;
use pdp_store::{PAGE_WORDS, PagedDrive, WordAt};
use pdp_word::NoMemory;
use std::alloc::Global;

impl KeptRun {
    /// Lowers the known turn to this one if it is above it, and sets aside what is kept of later
    /// turns, for an edit that changes the events of turns up to `edited`. A machine at a later
    /// turn is in no state of the run any more. It runs no turn, and if memory is refused nothing
    /// is set aside.
    pub(crate) fn lower(&mut self, alloc: Global, turn: u32, edited: u32)
        ensures formers { All (λ f. edited ≤ f.edited) self.new.ladder.formers }
        ensures run { (p : Past) → IsKeptRun p self.old → IsKeptRun p self.new }
        ensures known { self.new.known ≡ min self.old.known turn }
        ensures turn { self.new.machine.state.turn ≡ self.old.machine.state.turn }
        ensures current { self.new.is_current
            ≡ (self.old.is_current && nat_le self.old.machine.state.turn
            (min self.old.known turn)) }
        ensures stride { self.new.ladder.stride ≡ self.old.ladder.stride }
        ensures world { self.new.machine.state.world ≡ self.old.machine.state.world }
        ensures meter { self.new.meter ≡ self.old.meter }
    {
        let known = self.known.min(turn);
        self.is_current = self.is_current_by(known);
        self.ladder.edit_formers(edited);
        if known == self.known {
            // Nothing that is kept is of a later turn.
            return;
        }
        self.set_aside(alloc, known, edited);
        self.forget_from(known);
    }

    // Sets aside the states of turns above this one, with what came out from it on.
    fn set_aside(&mut self, alloc: Global, turn: u32, edited: u32)
        ensures same { self.new ≡ record self.old { ladder = self.new.ladder } }
        ensures kept { self.new.ladder.kept
            ≡ filter (λ c. nat_le c.turn turn) self.old.ladder.kept }
        ensures near { self.new.ladder.near
            ≡ filter (λ c. nat_le c.turn turn) self.old.ladder.near }
        ensures stride { self.new.ladder.stride ≡ self.old.ladder.stride }
        ensures count { length self.new.ladder.kept
            ≡ min (length self.old.ladder.kept) (turn / self.old.ladder.stride + 1) }
        ensures checkpoints { AreCheckpoints self.new.ladder }
        ensures formers { AreFormersAfter turn edited self.old self.new }
        ensures small { self.old.known ≤ never }
    {
        let former = self.former(alloc, turn, edited);
        self.ladder.set_aside(alloc, turn, former);
    }

    // What is left of the run for a former run after a patch that reaches this turn. None if
    // nothing is kept of a later turn, or if memory is refused.
    fn patched_former(&self, alloc: Global, turn: u32) -> Option<Former>
        ensures former { IfSome result (λ f. f ≡ left_run turn 0 self.now) }
        ensures small { self.now.known ≤ never }
    {
        if turn == self.known {
            return None;
        }
        self.former(alloc, turn, 0)
    }

    // What is left of the run for a former run, without its states. None if memory is refused.
    fn former(&self, alloc: Global, turn: u32, edited: u32) -> Option<Former>
        ensures former { IfSome result (λ f. f ≡ left_run turn edited self.now) }
        ensures small { self.now.known ≤ never }
    {
        let known = self.known;
        let output = self.machine.save_output(alloc, turn).ok()?;
        Some(Former::new(alloc, output, edited, known))
    }

    // Makes this turn the known one: drops the bytes that came out in it and later, and the first
    // touches of these turns.
    fn forget_from(&mut self, turn: u32)
        ensures { IsForgottenFrom turn self.old self.new }
    {
        self.machine.keep_text(turn);
        self.machine.forget(turn);
        self.known = turn;
    }

    // The same, if no page was touched for the first time from the known turn on: at that turn
    // there are no first touches to drop, and no need to look for them.
    fn forget_above(&mut self, turn: u32)
        requires touches { all_first_touches_before self.old.known self.old.machine.first_touches
            ≡ self.old.machine.first_touches }
        ensures { IsForgottenFrom turn self.old self.new }
    {
        self.machine.keep_text(turn);
        if turn != self.known {
            self.machine.forget(turn);
        }
        self.known = turn;
    }

    /// Lowers the known turn to the first touch of the page of this word. If there is none, the
    /// known turn stays. It gives the word this value in each checkpoint up to there, and sets
    /// aside what is kept of later turns. The machine is in no state of the run then. It runs no
    /// turn.
    ///
    /// Err if memory was refused; nothing changes then.
    pub(crate) fn set_word(&mut self, alloc: Global, at: WordAt, word: u16) -> Result<(), NoMemory>
        requires there { All (λ c. HasWord at c.saved) self.old.ladder.kept }
        requires alike { HavePageAlike at
            (filter (λ c. nat_le c.turn (reached_by at self.old)) self.old.ladder.kept) }
        requires touches { all_first_touches_before self.old.known self.old.machine.first_touches
            ≡ self.old.machine.first_touches }
        ensures patched { OnOk result (IsPatchedRun at word self.old self.new) }
        ensures refused { OnErr result (self.new ≡ self.old) }
    {
        let reached = self.reached_by(at);
        let former = self.patched_former(alloc, reached);
        self.ladder
            .patch(alloc, &mut self.machine, reached, at, word, former)?;
        self.forget_above(reached);
        self.is_current = false;
        Ok(())
    }

    /// Adds these drives after drive 0 of a machine at turn 0. Its state is then the only one that
    /// is kept, and nothing is known. It runs no turn.
    ///
    /// Err if memory was refused; nothing changes then.
    pub(crate) fn add_drives(
        &mut self,
        alloc: Global,
        drives: Vec<PagedDrive>,
    ) -> Result<(), NoMemory>
        requires start { self.old.machine.state.turn ≡ 0 }
        requires one { length self.old.machine.state.world.bus.drives ≡ 1 }
        requires first_touches { length self.old.machine.first_touches.drives ≡ 1 }
        ensures anew { OnOk result (BeginsAnew (map (λ drive. drive.words) drives.items)
            (map (λ drive. drive.first_touches) drives.items) self.old self.new) }
        ensures current { self.new.is_current ≡ self.old.is_current }
        ensures stride { self.new.ladder.stride ≡ self.old.ladder.stride }
        ensures meter { self.new.meter ≡ self.old.meter }
        ensures refused { OnErr result (self.new ≡ self.old) }
    {
        let stride = self.ladder.stride();
        self.machine.add_drives(drives)?;
        match Ladder::new(alloc, stride, &mut self.machine) {
            Ok(ladder) => self.ladder = ladder,
            Err(refused) => {
                self.machine.keep_drives(1);
                return Err(refused);
            }
        }
        self.forget_from(0);
        Ok(())
    }

    /// How far back a patch of a word reaches: to the first touch of its page, or to the known turn
    /// if there is none.
    #[tactic(auto, using(crate::proofs::run::RunFirstTouches::first_is_told))]
    pub(crate) fn reached_by(&self, at: WordAt) -> u32
        ensures reached { result ≡ reached_by at self.now }
        ensures small { self.now.known ≤ never }
    {
        let known = self.known;
        match self.machine.first(at.part, at.number / PAGE_WORDS) {
            Some(turn) => known.min(turn),
            None => known,
        }
    }

    /// Makes these the delays in the checkpoint of turn 0, and drops what is kept of later turns
    /// and the former runs. It runs no turn and takes no memory.
    pub(crate) fn set_delays(&mut self, delays: Delays)
        ensures ladder { self.new.ladder ≡ ladder_with_delays delays self.old.ladder }
        ensures forgotten { IsForgotten self.old self.new }
        ensures world { self.new.machine.state.world ≡ self.old.machine.state.world }
    {
        self.ladder.set_delays(delays);
        self.forget_from(0);
        self.is_current = false;
    }

    /// Puts this tape into the reader, and drops what is kept of turns after turn 0 and the former
    /// runs. It runs no turn and takes no memory.
    pub(crate) fn set_tape(&mut self, alloc: Global, tape: Vec<u8>)
        ensures ladder { self.new.ladder ≡ cut_to_first self.old.ladder }
        ensures forgotten { IsForgotten self.old self.new }
        ensures world { self.new.machine.state.world
            ≡ world self.old.machine.state.world.processor
            (bus_with_tape self.old.machine.state.world.bus tape.items) }
    {
        self.ladder.cut(0);
        self.ladder.drop_near();
        self.ladder.put_formers(Vec::new(alloc));
        self.machine.set_tape(tape);
        self.forget_from(0);
        self.is_current = false;
    }
}
