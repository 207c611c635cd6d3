ghost use Rattle.std.specs.Prelude.{◌≡◌, ◌+◌, ◌<◌, ◌≤◌, ℕ, length, slice_get, IfOk, OnOk};
ghost use Rattle.pdp_cpu.specs.Handbook.MachineState.{after_turn};
ghost use Rattle.pdp_script.specs.Entries.{events_at};
ghost use Rattle.pdp_replay.specs.Run.KeptRuns.{Advances, ArrivesAt, CanGoOn, GoesOn, LeavesKept};
ghost use Rattle.pdp_replay.specs.Ask.Trails.{trail_entry, IsTrailFrom};

use crate::run::KeptRun;
use circular_buffer::HeapCircularBuffer;
use pdp_cpu::Act;
use pdp_script::Script;
use pdp_unibus::LAST_TURN;
use pdp_word::NoMemory;
use std::alloc::Global;
use std::marker::Model;

/// One turn of a trail [P].
#[derive(Clone, Copy)]
pub struct TrailEntry {
    /// The turn, counted from 0 at power-up.
    pub turn: u32,
    /// PC before the turn (octal, bytes).
    pub pc: u16,
    /// The act of the turn.
    pub act: Act,
}

/// Turns of a run, one after another, the earliest first [P]. A contract sees the list of them.
#[derive(Drop)]
pub struct Trail {
    entries: HeapCircularBuffer<TrailEntry>,
}

impl Model for Trail {
    ghost use Rattle.std.specs.Prelude.{List};
    ghost use Rattle.pdp_replay.specs.declared.ask.trail.TrailEntry.{TrailEntry};

    ghost Value = { List TrailEntry };

    ghost view = { λ t. t.entries.items };
}

impl Trail {
    /// How many turns there are [P].
    pub fn len(&self) -> usize
        ensures { result ≡ length self.now }
    {
        self.entries.len()
    }

    /// The turn of this index, counted from 0 at the earliest; None past the last [P].
    pub fn entry(&self, index: usize) -> Option<TrailEntry>
        ensures { result ≡ slice_get self.now index }
    {
        self.entries.get(index).copied()
    }

    /// Runs the next turns of the run with the events of the script, and returns their trail. Keeps
    /// what is to be kept of them.
    ///
    /// Err if memory was refused; what was kept until then stays.
    #[tactic(auto, using(crate::proofs::ask::Trails::trail_none))]
    pub(crate) fn record(
        alloc: Global,
        run: &mut KeptRun,
        script: &Script,
        count: u32,
    ) -> Result<Trail, NoMemory>
        requires ready { CanGoOn run.old }
        requires limit { run.old.machine.state.turn + count ≤ LAST_TURN }
        ensures trail { IfOk result
            (IsTrailFrom script.now run.old.machine.state.turn count run.old.machine.state) }
        ensures kept { LeavesKept script.now run.old run.new }
        ensures arrives { OnOk result
            (ArrivesAt (run.old.machine.state.turn + count) run.old run.new) }
        ensures advances { Advances run.old.machine.state.turn (run.old.machine.state.turn + count)
            run.old run.new }
    {
        let mut entries = HeapCircularBuffer::with_capacity(alloc, count as usize)?;
        for _done in 0..count {
            let entry = record_turn(alloc, run, script)?;
            entries.push_back(entry);
        }
        Ok(Trail { entries })
    }
}

/// Runs one turn with the events of the script, and returns its entry of the trail. Keeps what is
/// to be kept of the turn.
///
/// Err if memory was refused; what was kept until then stays.
fn record_turn(alloc: Global, run: &mut KeptRun, script: &Script) -> Result<TrailEntry, NoMemory>
    requires ready { CanGoOn run.old }
    requires limit { run.old.machine.state.turn < LAST_TURN }
    ensures entry { IfOk result (λ entry. entry ≡ trail_entry run.old.machine.state.turn
        (events_at script.now.entries run.old.machine.state.turn) run.old.machine.state.world) }
    ensures machine { OnOk result (run.new.machine.state ≡ after_turn
        (events_at script.now.entries run.old.machine.state.turn) run.old.machine.state) }
    ensures kept { LeavesKept script.now run.old run.new }
    ensures way { OnOk result (GoesOn script.now run.old run.new) }
    ensures arrives { OnOk result (ArrivesAt (run.old.machine.state.turn + 1) run.old run.new) }
    ensures advances { Advances run.old.machine.state.turn (run.old.machine.state.turn + 1)
        run.old run.new }
{
    let turn = run.machine.turns();
    let pc = run.machine.regs().pc;
    let act = run.step(alloc, script)?;
    Ok(TrailEntry { turn, pc, act })
}
