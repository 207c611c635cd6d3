ghost use Rattle.std.specs.Prelude.{◌≡◌, ◌+◌, ◌-◌, ◌*◌, ◌/◌, ◌<◌, ◌≤◌, ◌++◌, min, nat_le, Some, []};
ghost use Rattle.std.specs.Prelude.{◌∷◌};
ghost use Rattle.std.specs.Prelude.{length, map, slice_get, IfOk, OnOk, OnErr};
ghost use Rattle.std.specs.List.{All, filter};
ghost use Rattle.std.specs.Option.{option_map};
ghost use Rattle.pdp_unibus.specs.Handbook.LastTurn.{last_turn};
ghost use Rattle.pdp_checkpoint.specs.Delayed.{ladder_with_delays};
ghost use Rattle.pdp_checkpoint.specs.Patched.{HavePageAlike, patched_to};
ghost use Rattle.pdp_cpu.specs.Saved.{HasWord};
ghost use Rattle.pdp_checkpoint.specs.Ladder.{widest_stride, checkpoint_of, next_of, best_of};
ghost use Rattle.pdp_checkpoint.specs.Ladder.{kept_with, near_with, AreCheckpoints, IsLadder};
ghost use Rattle.pdp_checkpoint.specs.Formers.{former_edited, AreFewFormers, IsClosest};
ghost use Rattle.pdp_checkpoint.specs.Formers.{IsFormerAfter};

use crate::aside::{add_former, edit_each, split_kept, split_near};
use crate::checkpoint::Checkpoint;
use crate::former::Former;
use crate::patched::ReadyPatch;
use crate::thin::{cut_near, thin};
use pdp_cpu::PagedMachine;
use pdp_io_page::Delays;
use pdp_store::WordAt;
use pdp_word::NoMemory;
use std::alloc::Global;
use std::marker::Model;
use std::mem;

/// How many states a ladder keeps at most.
pub const MOST_KEPT: usize = 256;

/// The widest stride of a ladder, in turns.
pub const WIDEST_STRIDE: u32 = 2_000_000_000;

/// How many states a ladder keeps at most between its checkpoints.
pub const MOST_NEAR: usize = 256;

/// Checkpoints of a machine, at most 256, at the multiples of a stride from turn 0 on, and beside
/// them at most 256 states near the turns that were asked about last, and at most two former runs
/// of at most 512 states each. A contract sees the list of the checkpoints, the earliest first, the
/// stride, the list of the other states, and that of the former runs.
#[derive(Drop)]
pub struct Ladder {
    kept: Vec<Checkpoint>,
    stride: u32,
    near: Vec<Checkpoint>,

    // The one that stayed when another one was set aside (`add_former`), and the one that was set
    // aside last.
    formers: Vec<Former>,

    // The number of the former run that was set aside last, and of the one that the run met last; 0
    // if there is none. No contract sees them.
    set_aside: u64,
    met: u64,
}

impl Model for Ladder {
    ghost use Rattle.pdp_checkpoint.specs.Ladder.{LadderData};

    ghost Value = { LadderData };

    ghost use Rattle.pdp_checkpoint.specs.Ladder.{IsLadder};

    ghost view = { λ l. record {
      kept = l.kept.items;
      stride = l.stride;
      near = l.near.items;
      formers = l.formers.items;
    } };

    ghost invariant = { λ l. IsLadder (record {
      kept = l.kept.items;
      stride = l.stride;
      near = l.near.items;
      formers = l.formers.items;
    }) };
}

impl Ladder {
    /// A ladder that keeps the state of this machine, which is at turn 0, and then one every
    /// `stride` turns, 1 to 2,000,000,000. The machine is left as it is.
    ///
    /// # Errors
    ///
    /// `NoMemory` if memory was refused.
    pub fn new(alloc: Global, stride: u32, machine: &mut PagedMachine) -> Result<Ladder, NoMemory>
        requires start { machine.old.state.turn ≡ 0 }
        requires some { 0 < stride }
        requires widest { stride ≤ widest_stride }
        ensures machine { machine.new ≡ machine.old }
        ensures kept { IfOk result (λ ladder. ladder.kept ≡ checkpoint_of machine.old.state ∷ []) }
        ensures stride { IfOk result (λ ladder. ladder.stride ≡ stride) }
        ensures near { IfOk result (λ ladder. ladder.near ≡ []) }
        ensures formers { IfOk result (λ ladder. ladder.formers ≡ []) }
        ensures checkpoints { IfOk result AreCheckpoints }
    {
        let saved = machine.save(alloc)?;
        let mut kept = Vec::new(alloc);
        kept.push(Checkpoint { turn: 0, saved })?;
        Ok(Ladder {
            kept,
            stride,
            near: Vec::new(alloc),
            formers: Vec::new(alloc),
            set_aside: 0,
            met: 0,
        })
    }

    /// How many turns lie between two checkpoints. It takes no memory.
    pub fn stride(&self) -> u32
        ensures stride { result ≡ self.now.stride }
        ensures checkpoints { AreCheckpoints self.now }

        // What is kept is bounded, whatever was done with the ladder.
        ensures bounded { IsLadder self.now }
    {
        self.stride
    }

    /// The turn of the state to keep next: the first multiple of the stride above the turns that
    /// are kept.
    pub fn next(&self) -> u32
        ensures next { result ≡ next_of self.now }
        ensures checkpoints { AreCheckpoints self.now }
    {
        self.kept.len() as u32 * self.stride
    }

    /// The checkpoint of the greatest turn that is not above `turn`.
    pub fn best(&self, turn: u32) -> &Checkpoint
        ensures state { slice_get self.now.kept (best_of self.now turn) ≡ Some result.now }
        ensures turn { result.now.turn ≡ best_of self.now turn * self.now.stride }
        ensures below { result.now.turn ≤ turn }
        ensures near { turn < next_of self.now → turn < result.now.turn + self.now.stride }
        ensures last { next_of self.now ≤ turn
            → result.now.turn + self.now.stride ≡ next_of self.now }
        ensures greatest { All (λ c. c.turn ≤ turn → c.turn ≤ result.now.turn) self.now.kept }
        ensures checkpoints { AreCheckpoints self.now }
    {
        let last = self.kept.len() - 1;
        let place = ((turn / self.stride) as usize).min(last);
        &self.kept[place]
    }

    /// The state of the greatest turn that is not above `turn`, of the checkpoints and of the
    /// states between them.
    pub fn closest(&self, turn: u32) -> &Checkpoint
        ensures closest { IsClosest (self.now.kept ++ self.now.near) turn result.now }
        ensures later { best_of self.now turn * self.now.stride ≤ result.now.turn }
        ensures near { turn < next_of self.now → turn < result.now.turn + self.now.stride }
        ensures checkpoints { AreCheckpoints self.now }
    {
        let mut closest = self.best(turn);
        for state in &self.near {
            if closest.turn < state.turn && state.turn <= turn {
                closest = state;
            }
        }
        closest
    }

    /// Keeps the state of this machine, which is at the turn of `next`. If that is the 257th, the
    /// stride doubles and the states at odd multiples of the old one go. The machine is left as it
    /// is.
    ///
    /// # Errors
    ///
    /// `NoMemory` if memory was refused. The ladder is then as it was.
    pub fn take(&mut self, alloc: Global, machine: &mut PagedMachine) -> Result<(), NoMemory>
        requires next { machine.old.state.turn ≡ next_of self.old }
        requires limit { machine.old.state.turn ≤ last_turn }
        ensures machine { machine.new ≡ machine.old }
        ensures kept { OnOk result
            (self.new ≡ kept_with self.old (checkpoint_of machine.old.state)) }
        ensures refused { OnErr result (self.new ≡ self.old) }
        ensures next { OnOk result (next_of self.new ≡ next_of self.old + self.new.stride) }
        ensures checkpoints { AreCheckpoints self.new }
    {
        let turn = self.next();
        let saved = machine.save(alloc)?;
        self.kept.push(Checkpoint { turn, saved })?;
        if self.kept.len() > MOST_KEPT {
            self.stride *= 2;
            thin(&mut self.kept, self.stride);
        }
        Ok(())
    }

    /// Keeps the state of this machine beside the checkpoints. If that is the 257th of these
    /// states, the one that was kept first goes. The machine is left as it is.
    ///
    /// # Errors
    ///
    /// `NoMemory` if memory was refused. The ladder is then as it was.
    pub fn take_near(&mut self, alloc: Global, machine: &mut PagedMachine) -> Result<(), NoMemory>
        ensures machine { machine.new ≡ machine.old }
        ensures kept { OnOk result (self.new ≡ record self.old {
          near = near_with self.old.near (checkpoint_of machine.old.state);
        }) }
        ensures refused { OnErr result (self.new ≡ self.old) }
    {
        let turn = machine.turns();
        let saved = machine.save(alloc)?;
        self.near.push(Checkpoint { turn, saved })?;
        if self.near.len() > MOST_NEAR {
            self.near.remove(0);
        }
        Ok(())
    }

    /// Drops the states between the checkpoints. It takes no memory.
    pub fn drop_near(&mut self)
        ensures { self.new ≡ record self.old { near = [] } }
    {
        self.near.clear();
    }

    /// Drops the states of turns above `turn`. It takes no memory.
    pub fn cut(&mut self, turn: u32)
        ensures kept { self.new.kept ≡ filter (λ c. nat_le c.turn turn) self.old.kept }
        ensures near { self.new.near ≡ filter (λ c. nat_le c.turn turn) self.old.near }
        ensures formers { self.new.formers ≡ self.old.formers }
        ensures stride { self.new.stride ≡ self.old.stride }
        ensures count { length self.new.kept
            ≡ min (length self.old.kept) (turn / self.old.stride + 1) }
        ensures checkpoints { AreCheckpoints self.new }
    {
        self.kept.truncate((turn / self.stride) as usize + 1);
        cut_near(&mut self.near, turn);
    }

    /// Drops the states of turns above `turn`. If there is a former run, they become its states,
    /// and it becomes one of the former runs, unless memory is refused for that.
    pub fn set_aside(&mut self, alloc: Global, turn: u32, former: Option<Former>)
        ensures kept { self.new.kept ≡ filter (λ c. nat_le c.turn turn) self.old.kept }
        ensures near { self.new.near ≡ filter (λ c. nat_le c.turn turn) self.old.near }
        ensures formers { All (IsFormerAfter turn (self.old.kept ++ self.old.near)
            self.old.formers former) self.new.formers }
        ensures stride { self.new.stride ≡ self.old.stride }
        ensures count { length self.new.kept
            ≡ min (length self.old.kept) (turn / self.old.stride + 1) }
        ensures checkpoints { AreCheckpoints self.new }
    {
        match former {
            Some(former) => self.add_former(alloc, turn, former),
            None => self.cut(turn),
        }
    }

    /// Makes the states of turns above `turn` those of this former run, which becomes one of them.
    fn add_former(&mut self, alloc: Global, turn: u32, former: Former)
        ensures kept { self.new.kept ≡ filter (λ c. nat_le c.turn turn) self.old.kept }
        ensures near { self.new.near ≡ filter (λ c. nat_le c.turn turn) self.old.near }
        ensures formers { All (IsFormerAfter turn (self.old.kept ++ self.old.near)
            self.old.formers (Some former)) self.new.formers }
        ensures stride { self.new.stride ≡ self.old.stride }
        ensures count { length self.new.kept
            ≡ min (length self.old.kept) (turn / self.old.stride + 1) }
        ensures checkpoints { AreCheckpoints self.new }
    {
        let count = (turn / self.stride) as usize + 1;
        let kept = split_kept(alloc, &mut self.kept, count);
        let near = split_near(alloc, &mut self.near, turn);
        self.set_aside = self.set_aside.saturating_add(1);
        let former = former.with_states(kept, near, self.set_aside);
        add_former(&mut self.formers, former, self.met);
        self.met = 0;
    }

    /// An edit of the past may have changed the events of turns up to `turn`. It takes no memory.
    pub fn edit_formers(&mut self, turn: u32)
        ensures { self.new ≡ record self.old {
          formers = map (former_edited turn) self.old.formers;
        } }
    {
        edit_each(&mut self.formers, turn);
    }

    /// The greatest turn whose events an edit may have changed since the last run was set aside.
    /// None if there is no former run.
    pub fn edited(&self) -> Option<u32>
        ensures { result ≡ option_map (λ f. f.edited)
            (slice_get self.now.formers (length self.now.formers - 1)) }
    {
        Some(self.formers.last()?.edited())
    }

    /// The least turn from `from` on, at most `to`, at which a run may meet a former run; otherwise
    /// `to`. A run pauses there: no answer depends on it.
    pub fn first_meeting(&self, from: u32, to: u32) -> u32
        ensures least { min from to ≤ result }
        ensures most { result ≤ to }
    {
        let mut first = to;
        for former in &self.formers {
            first = earlier_meeting(former, from, first);
        }
        first
    }

    /// The former runs, which are then gone. It takes no memory.
    pub fn take_formers(&mut self, alloc: Global) -> Vec<Former>
        ensures formers { result.items ≡ self.old.formers }
        ensures few { AreFewFormers result.items }
        ensures after { self.new ≡ record self.old { formers = [] } }
    {
        mem::replace(&mut self.formers, Vec::new(alloc))
    }

    /// Makes these the former runs, which are few. It takes no memory.
    pub fn put_formers(&mut self, formers: Vec<Former>)
        requires few { AreFewFormers formers.items }
        ensures { self.new ≡ record self.old { formers = formers.items } }
    {
        self.formers = formers;
    }

    /// Notes that the run met this former run and goes on as it did. When the run is set aside, it
    /// takes the place of this former run, and the other one stays (`set_aside`).
    pub fn meet(&mut self, former: &Former)
        ensures { self.new ≡ self.old }
    {
        self.met = former.number();
    }

    /// Makes these the delays (turns) of the devices in the checkpoint of turn 0, and drops the
    /// other states and the former runs. It takes no memory.
    pub fn set_delays(&mut self, delays: Delays)
        ensures kept { self.new ≡ ladder_with_delays delays self.old }
        ensures count { length self.new.kept ≡ 1 }
        ensures checkpoints { AreCheckpoints self.new }
    {
        self.near.clear();
        self.formers.clear();
        self.kept.truncate(1);
        self.kept[0].saved.set_delays(delays);
    }

    /// Gives a word of core or of a drive this value in the checkpoints up to `turn`. Those of
    /// turns above it are set aside (`set_aside`), and the states between are dropped. The
    /// checkpoints up to `turn` have the page of the word alike: they share the one page that is
    /// made. All that is needed for the new states is there before the first is changed. The
    /// machine numbers the new page, and is left as it is.
    ///
    /// # Errors
    ///
    /// `NoMemory` if memory was refused. The ladder is then as it was.
    pub fn patch(
        &mut self,
        alloc: Global,
        machine: &mut PagedMachine,
        turn: u32,
        at: WordAt,
        value: u16,
        former: Option<Former>,
    ) -> Result<(), NoMemory>
        requires there { All (λ c. HasWord at c.saved) self.old.kept }
        requires alike { HavePageAlike at (filter (λ c. nat_le c.turn turn) self.old.kept) }
        ensures machine { machine.new ≡ machine.old }
        ensures kept { OnOk result (self.new
            ≡ patched_to turn at value self.new.formers self.old) }
        ensures formers { OnOk result (All (IsFormerAfter turn (self.old.kept ++ self.old.near)
            self.old.formers former) self.new.formers) }
        ensures count { OnOk result
            (length self.new.kept ≡ min (length self.old.kept) (turn / self.old.stride + 1)) }
        ensures refused { OnErr result (self.new ≡ self.old) }
        ensures checkpoints { AreCheckpoints self.new }
    {
        let count = ((turn / self.stride) as usize + 1).min(self.kept.len());
        let patch = ReadyPatch::new(alloc, machine, &self.kept[..count], at, value)?;
        self.set_aside(alloc, turn, former);
        self.near.clear();
        patch.put(&mut self.kept);
        Ok(())
    }
}

/// The turn at which a run may meet this former run, if that is before turn `to`; otherwise `to`.
fn earlier_meeting(former: &Former, from: u32, to: u32) -> u32
    ensures least { min from to ≤ result }
    ensures most { result ≤ to }
{
    match former.meeting(from) {
        Some(turn) => turn.min(to),
        None => to,
    }
}
