//! Former runs, which edits of the past have ended: where a run meets one, it goes on from its
//! states instead of running the turns again.

ghost use Rattle.std.specs.Prelude.{◌≡◌, ◌≤◌, ◌<◌, IfSome, OnOk, true};
ghost use Rattle.std.specs.List.{All};
ghost use Rattle.pdp_checkpoint.specs.Formers.{IsStateIn};
ghost use Rattle.pdp_replay.specs.Run.Checkpoints.{IsFormerOf};
ghost use Rattle.pdp_replay.specs.Run.FormerRuns.{FollowsEach, FollowsEachKept, FollowsOne};
ghost use Rattle.pdp_replay.specs.Run.FormerRuns.{FollowsOneKept, HasFormer, HasFormers};
ghost use Rattle.pdp_replay.specs.Run.FormerRuns.{IsLaterState, IsSomeWay, MeetsFormer};
ghost use Rattle.pdp_replay.specs.Run.FormerRuns.{MeetsSomewhere};
ghost use Rattle.pdp_replay.specs.Run.KeptRuns.{Advances, ArrivesAt, CanGoOn, IsKeptRun, IsOnWay};
ghost use Rattle.pdp_replay.specs.Past.{Past};

use crate::run::{KeptRun, next_taken};
use pdp_checkpoint::{Checkpoint, Former};
use pdp_unibus::LAST_TURN;
use pdp_word::NoMemory;
use std::alloc::Global;

/// Where the stride is shorter, the turns up to the next state that is to be kept are run in less
/// time than a state of a former run takes.
const LEAST_STRIDE: u32 = 10_000;

impl KeptRun {
    /// Where a run on its way to turn `to` may meet a former run next: the least turn, after the
    /// machine's and not before the known one, of which a former run has a state and from which on
    /// no event was edited; `to` if there is none before it.
    pub(crate) fn meeting(&self, to: u32) -> u32
        requires { self.now.machine.state.turn < to }
        ensures ahead { self.now.machine.state.turn < result }
        ensures most { result ≤ to }
    {
        let from = self.known.max(self.machine.turns() + 1);
        self.ladder.first_meeting(from, to)
    }

    /// If the machine is at the turn up to which the run is known, and a former run has an equal
    /// state of that turn, goes on from the later states of that run up to turn `to`. It runs no
    /// turn.
    ///
    /// Err if memory was refused; what was kept until then stays.
    pub(crate) fn take_back(&mut self, alloc: Global, to: u32) -> Result<(), NoMemory>
        requires ready { CanGoOn self.old }
        requires run { IsSomeWay self.old }
        requires forward { self.old.machine.state.turn ≤ to }
        requires limit { to ≤ LAST_TURN }
        ensures kept { (p : Past) → IsOnWay p self.old → IsKeptRun p self.new }
        ensures way { OnOk result ((p : Past) → IsOnWay p self.old → IsOnWay p self.new) }
        ensures arrives { OnOk result (ArrivesAt self.new.machine.state.turn self.old self.new) }
        ensures advances { Advances self.old.machine.state.turn to self.old self.new }
    {
        let formers = self.ladder.take_formers(alloc);
        let result = self.follow_each(alloc, &formers, to);
        self.ladder.put_formers(formers);
        result
    }

    // Goes on from states of these former runs, one after the other.
    //
    // Err as above.
    fn follow_each(&mut self, alloc: Global, formers: &[Former], to: u32) -> Result<(), NoMemory>
        requires ready { CanGoOn self.old }
        requires run { HasFormers formers.now self.old }
        requires forward { self.old.machine.state.turn ≤ to }
        requires limit { to ≤ LAST_TURN }
        ensures kept { FollowsEachKept formers.now self.old self.new }
        ensures way { OnOk result (FollowsEach formers.now self.old self.new) }
        ensures arrives { OnOk result (ArrivesAt self.new.machine.state.turn self.old self.new) }
        ensures advances { Advances self.old.machine.state.turn to self.old self.new }
    {
        for former in formers {
            self.follow(alloc, former, to)?;
        }
        Ok(())
    }

    // Goes on from states of this former run, if the run meets it here.
    //
    // Err as above.
    fn follow(&mut self, alloc: Global, former: &Former, to: u32) -> Result<(), NoMemory>
        requires ready { CanGoOn self.old }
        requires run { HasFormer former.now self.old }
        requires forward { self.old.machine.state.turn ≤ to }
        requires limit { to ≤ LAST_TURN }
        ensures kept { FollowsOneKept former.now self.old self.new }
        ensures way { OnOk result (FollowsOne former.now self.old self.new) }
        ensures arrives { OnOk result (ArrivesAt self.new.machine.state.turn self.old self.new) }
        ensures advances { Advances self.old.machine.state.turn to self.old self.new }
    {
        if self.ladder.stride() < LEAST_STRIDE {
            return Ok(());
        }
        let Some(there) = former.last_by(self.machine.turns()) else {
            return Ok(());
        };
        if !self.meets(former, there) {
            return Ok(());
        }
        self.ladder.meet(former);
        self.go_on(alloc, former, there, to)
    }

    // Whether the run meets the former run in this state of it, at the turn up to which the run is
    // known.
    fn meets(&self, former: &Former, there: &Checkpoint) -> bool
        requires run { HasFormer former.now self.now }
        requires state { IsStateIn former.now.states there.now }
        ensures { result ≡ true → (p : Past) → IsFormerOf p former.now → IsOnWay p self.now
            → MeetsFormer p former.now there.now self.now }
    {
        let here = self.machine.turns();
        if there.turn != here || self.known != here || here <= former.edited() {
            return false;
        }
        self.machine.meets(&there.saved) && self.machine.has_touches_of(former.output())
    }

    // Goes on from later states of the former run, which the run meets in this one. The state in
    // which it meets it is kept.
    //
    // Err as above.
    fn go_on(
        &mut self,
        alloc: Global,
        former: &Former,
        there: &Checkpoint,
        to: u32,
    ) -> Result<(), NoMemory>
        requires ready { CanGoOn self.old }
        requires meets { MeetsSomewhere former.now there.now self.old }
        requires forward { self.old.machine.state.turn ≤ to }
        requires limit { to ≤ LAST_TURN }
        ensures kept { (p : Past) → MeetsFormer p former.now there.now self.old
            → IsKeptRun p self.new }
        ensures way { OnOk result ((p : Past) → MeetsFormer p former.now there.now self.old
            → IsOnWay p self.new) }
        ensures arrives { OnOk result (ArrivesAt self.new.machine.state.turn self.old self.new) }
        ensures advances { Advances self.old.machine.state.turn to self.old self.new }
    {
        self.keep_between(alloc);
        let mut met = there;
        while let Some(next) = self.later_state(former, met, to) {
            self.adopt_and_keep(alloc, former, met, next)?;
            met = next;
        }
        Ok(())
    }

    // A state of the former run that is later than this one, up to turn `to` and to the next turn
    // whose state is to be kept: the first that is far enough (`next_taken`), or if there is none,
    // the last one.
    fn later_state<'a>(
        &self,
        former: &'a Former,
        there: &Checkpoint,
        to: u32,
    ) -> Option<&'a Checkpoint>
        ensures { IfSome result (λ next. IsLaterState to former.now there.now next.now self.now) }
    {
        let far = next_taken(self.machine.turns(), former.edited());
        let most = former.first_from(far).unwrap_or(to).min(to);
        let next = former.last_by(most.min(self.ladder.next()))?;
        if next.turn > there.turn {
            Some(next)
        } else {
            None
        }
    }

    // Makes the machine this later state of the former run, settles there, and keeps the state.
    //
    // Err as above.
    fn adopt_and_keep(
        &mut self,
        alloc: Global,
        former: &Former,
        there: &Checkpoint,
        next: &Checkpoint,
    ) -> Result<(), NoMemory>
        requires ready { CanGoOn self.old }
        requires meets { MeetsSomewhere former.now there.now self.old }
        requires next { IsLaterState LAST_TURN former.now there.now next.now self.old }
        ensures kept { (p : Past) → MeetsFormer p former.now there.now self.old
            → IsKeptRun p self.new }
        ensures meets { OnOk result ((p : Past) → MeetsFormer p former.now there.now self.old
            → MeetsFormer p former.now next.now self.new) }
        ensures arrives { OnOk result (ArrivesAt next.now.turn self.old self.new) }
        ensures advances { Advances self.old.machine.state.turn next.now.turn self.old self.new }
    {
        self.adopt(alloc, former, there, next)?;
        self.keep_between(alloc);
        Ok(())
    }

    // Makes the machine this later state of the former run, and settles there.
    //
    // Err as above.
    fn adopt(
        &mut self,
        alloc: Global,
        former: &Former,
        there: &Checkpoint,
        next: &Checkpoint,
    ) -> Result<(), NoMemory>
        requires ready { CanGoOn self.old }
        requires meets { MeetsSomewhere former.now there.now self.old }
        requires next { IsLaterState LAST_TURN former.now there.now next.now self.old }
        ensures kept { (p : Past) → MeetsFormer p former.now there.now self.old
            → IsKeptRun p self.new }
        ensures meets { OnOk result ((p : Past) → MeetsFormer p former.now there.now self.old
            → MeetsFormer p former.now next.now self.new) }
        ensures arrives { OnOk result (ArrivesAt next.now.turn self.old self.new) }
        ensures advances { Advances self.old.machine.state.turn next.now.turn self.old self.new }
    {
        self.machine
            .take_output(former.output(), &there.saved, &next.saved)?;
        self.machine.load_over(&there.saved, &next.saved);
        self.settle(alloc)
    }
}
