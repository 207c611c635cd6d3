ghost use Rattle.std.specs.Prelude.{◌≡◌, ◌<◌, ℕ, true, false};
ghost use Rattle.pdp_io_page.specs.Handbook.Delays.{is_tick};
ghost use Rattle.pdp_io_page.specs.Watch.{IsWatched};

use crate::io_page::IoPage;

/// What the bus keeps of its devices, so that a turn in which nothing comes of them asks none.
#[derive(Clone, Copy)]
pub struct Watch {
    /// In the turns after the bus's and before this one nothing happens but by events: no tick, and
    /// no completion.
    pub wake: u64,
    /// Whether a source may request an interrupt.
    pub requested: bool,
}

impl Watch {
    /// Nothing is known of the devices, so each turn asks them.
    pub const fn unknown() -> Watch
        ensures wake { result.wake ≡ 0 }
        ensures requested { result.requested ≡ true }
    {
        Watch {
            wake: 0,
            requested: true,
        }
    }
}

impl IoPage {
    /// What is known of the devices after this turn began.
    #[tactic(auto, using(crate::proofs::Watching::io_page_is_watched))]
    pub fn watch(&self, turn: u32) -> Watch
        ensures { IsWatched turn self.now result }
    {
        let tick = next_tick(turn, self.delays.clock);
        let printer = self
            .console
            .printer
            .operation
            .due_after(turn)
            .unwrap_or(u64::MAX);
        let reader = self
            .paper_tape
            .reader
            .operation
            .due_after(turn)
            .unwrap_or(u64::MAX);
        let punch = self
            .paper_tape
            .punch
            .operation
            .due_after(turn)
            .unwrap_or(u64::MAX);
        let disk = self.disk.operation.due_after(turn).unwrap_or(u64::MAX);
        Watch {
            wake: tick.min(printer).min(reader).min(punch).min(disk),
            requested: self.has_request(),
        }
    }
}

/// The first turn after this one in which a clock of this period ticks; the last number of its type
/// for one that never does.
fn next_tick(turn: u32, period: u32) -> u64
    ensures { (t : ℕ) → turn < t → t < result → is_tick t period ≡ false }
{
    if period == 0 {
        return u64::MAX;
    }
    let period = u64::from(period);
    (u64::from(turn) / period + 1) * period
}
