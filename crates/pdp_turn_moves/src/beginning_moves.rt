//! What the beginning of a turn moves.

ghost use Rattle.std.specs.Prelude.{◌≡◌};
ghost use Rattle.pdp_made.specs.Cells.{DataCell};
ghost use Rattle.pdp_made_run.specs.BeginningRows.{made_in_beginning};
ghost use Rattle.pdp_turn_moves.specs.Beginnings.{beginning_told, disk_moved, origins_told};
ghost use Rattle.pdp_turn_moves.specs.Beginnings.{reader_moved};

use crate::found_events::FoundEvents;
use pdp_rk11::DiskMoves;
use pdp_store::Store;
use pdp_unibus::{Bus, Event};

/// What the beginning of a turn moves: its events, the reader and the disk. All else stays.
#[derive(Clone, Copy)]
pub struct BeginningMoves {
    /// The number among the events of the turn, counted from 0, of the one that gives TKB its byte.
    pub key: Option<usize>,
    /// The number of the one that gives the switches their word.
    pub switches: Option<usize>,
    /// The byte of the tape that goes to PRB.
    pub reader: Option<TapeRead>,
    /// The words that the disk moves.
    pub disk: Option<DiskMoves>,
}

/// A byte of the paper tape that the reader takes.
#[derive(Clone, Copy)]
pub struct TapeRead {
    /// Its number on the tape, from 0 on.
    pub number: usize,
    /// Whether the tape has no such byte, so that the buffer stays.
    pub at_end: bool,
}

impl BeginningMoves {
    /// What the beginning of this turn with these events will move. The bus is the one between the
    /// turn before and this one.
    pub fn of<S: Store, D: Store>(bus: &Bus<S, D>, turn: u32, events: &[Event]) -> BeginningMoves
        ensures told { result ≡ beginning_told turn events.now bus.now }
        ensures origins { (c : DataCell) → origins_told turn result c
            ≡ made_in_beginning turn events.now bus.now c }
    {
        let found = FoundEvents::of(events);
        BeginningMoves {
            key: found.key,
            switches: found.switches,
            reader: reader_move(bus, turn, found.reader_done),
            disk: disk_moves(bus, turn, found.disk_done),
        }
    }
}

/// The byte that is read in this turn, by an event (`done`) or because it is due.
fn reader_move<S: Store, D: Store>(bus: &Bus<S, D>, turn: u32, done: bool) -> Option<TapeRead>
    ensures { result ≡ reader_moved turn done bus.now }
{
    let operation = bus.reader_operation();
    if operation.is_under_way() && (done || operation.is_due(turn)) {
        let number = bus.bytes_read();
        let at_end = bus.tape().get(number).is_none();
        Some(TapeRead { number, at_end })
    } else {
        None
    }
}

/// What the disk moves in this turn, by an event (`done`) or because it is due.
fn disk_moves<S: Store, D: Store>(bus: &Bus<S, D>, turn: u32, done: bool) -> Option<DiskMoves>
    ensures { result ≡ disk_moved turn done bus.now }
{
    if done || bus.disk_operation().is_due(turn) {
        bus.disk_moves()
    } else {
        None
    }
}
