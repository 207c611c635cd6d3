//! Logs of the bus cycles that the processor makes. A store is where a log is kept: most keep none.

ghost use Rattle.std.specs.Prelude.{◌≡◌, nat_lt, [], IfOk};
ghost use Rattle.pdp_store.specs.CycleLogs.{without_cycles, keeps, log_with};

use pdp_word::NoMemory;
use std::alloc::Global;
use std::marker::Model;

/// What the processor asks for in a bus cycle.
#[derive(Clone, Copy, Debug, PartialEq, Eq)]
pub enum CycleKind {
    Read,
    Write,
    /// One byte is written, and the other one of its word stays.
    WriteByte,
}

/// A bus cycle that the processor made, and what it came to.
#[derive(Clone, Copy, Debug, PartialEq, Eq)]
pub struct BusCycle {
    pub kind: CycleKind,
    /// The physical byte address. A word is read or written at an even one.
    pub address: u32,
    /// The word or the byte that was read or written. `None` if nothing has the address.
    pub value: Option<u16>,
}

/// Bus cycles in their order: all of them, or only the reads at one physical address. Once it has
/// as many as it was given room for, it keeps no more.
#[derive(Drop)]
pub struct CycleLog {
    reads_of: Option<u32>,
    room: usize,
    cycles: Vec<BusCycle>,
}

impl Model for CycleLog {
    ghost use Rattle.std.specs.Prelude.{◌≤◌, vec_capacity};
    ghost use Rattle.pdp_store.specs.CycleLogs.{KeptCycles};

    ghost Value = { KeptCycles };

    ghost view = { λ l. record {
      reads_of = l.reads_of;
      room = l.room;
      told = l.cycles.items;
    } };

    ghost invariant = { λ l. l.room ≤ vec_capacity l.cycles };
}

impl CycleLog {
    /// An empty log with room for `room` cycles: for all cycles, or for the reads at the physical
    /// byte address `reads_of` alone.
    ///
    /// Err(NoMemory) if memory was refused.
    pub fn new(alloc: Global, reads_of: Option<u32>, room: usize) -> Result<CycleLog, NoMemory>
        ensures { IfOk result
            (λ log. log ≡ record { reads_of = reads_of; room = room; told = [] }) }
    {
        let cycles = Vec::with_capacity(alloc, room)?;
        Ok(CycleLog {
            reads_of,
            room,
            cycles,
        })
    }

    /// The cycles that are kept, in their order.
    pub fn cycles(&self) -> &[BusCycle]
        ensures { result.now ≡ self.now.told }
    {
        &self.cycles
    }

    /// Drops the cycles that are kept, and has as much room again.
    pub fn clear(&mut self)
        ensures { self.new ≡ without_cycles self.old }
    {
        self.cycles.truncate(0);
    }

    /// Whether the log is one of such cycles.
    fn keeps(&self, cycle: BusCycle) -> bool
        ensures { result ≡ keeps self.now.reads_of cycle }
    {
        match self.reads_of {
            None => true,
            Some(address) => cycle.kind == CycleKind::Read && cycle.address == address,
        }
    }

    /// Whether it has room for any cycle, were it empty.
    pub(crate) fn has_room(&self) -> bool
        ensures { result ≡ nat_lt 0 self.now.room }
    {
        self.room > 0
    }

    /// Keeps a cycle, if the log is one of such cycles and has room.
    pub fn note(&mut self, cycle: BusCycle)
        ensures { self.new ≡ log_with cycle self.old }
    {
        if self.keeps(cycle) && self.cycles.len() < self.room {
            // it never fails: there is room, by the invariant
            let _ = self.cycles.push(cycle);
        }
    }
}
