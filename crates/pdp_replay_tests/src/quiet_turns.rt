//! Which turns begin quietly: no contract says that any does.

use pdp_form::PlacedForms;
use pdp_icache::Lines;
use pdp_io_page::{DelayedDevice, Delays};
use pdp_store::Flat;
use pdp_unibus::{Bus, LAST_TURN};
use pdp_word::NoMemory;
use std::alloc::Global;
use std::process::Abort;

const PRS: u32 = 0o777550;

const PPB: u32 = 0o777556;

const TPB: u32 = 0o777566;

/// A turn, whether it begins quietly, and the word that is written then to the register of this
/// address. Printer, reader and punch take 3 turns each.
const TURNS: [(u32, bool, Option<(u32, u16)>); 12] = [
    (2, true, Some((TPB, 0o101))),
    (3, true, None),
    (4, true, None),
    (5, false, None),
    (6, true, Some((PRS, 0o001))),
    (8, true, None),
    (9, false, None),
    (10, true, Some((PPB, 0o102))),
    (12, true, None),
    (13, false, None),
    (14, true, None),
    (LAST_TURN, true, None),
];

/// The same with a clock that ticks in turns 3, 6 and so on.
const TICKS: [(u32, bool, Option<(u32, u16)>); 4] = [
    (2, true, None),
    (3, false, None),
    (5, true, None),
    (6, false, None),
];

fn assert_begins(
    rt: &impl Abort,
    bus: &mut Bus<Flat, Flat>,
    turn: u32,
    is_quiet: bool,
    written: Option<(u32, u16)>,
) {
    assert_eq!(rt; bus.begin_quietly(turn), is_quiet, "turn {turn}");
    if !is_quiet {
        bus.events(turn, &[]);
    }
    if let Some((address, word)) = written {
        assert!(rt; address < 0o1000000);
        assert_eq!(rt; bus.write(address, word), Ok(()));
    }
}

fn begins_quietly(
    rt: &impl Abort,
    alloc: Global,
    delays: Delays,
    turns: &[(u32, bool, Option<(u32, u16)>)],
) -> Result<(), NoMemory> {
    let core = Flat::new(alloc, 256, true)?;
    let lines = Lines::new(alloc)?;
    let placed = PlacedForms::new(alloc)?;
    let mut bus = Bus::new(
        lines,
        placed,
        core,
        Vec::new(alloc),
        Vec::new(alloc),
        delays,
    );
    bus.events(1, &[]);
    for (turn, is_quiet, written) in turns {
        assert_begins(rt, &mut bus, *turn, *is_quiet, *written);
    }
    Ok(())
}

/// A turn can't begin quietly if the printer, the reader or the punch is due, or the clock ticks.
#[test]
fn turns_of_devices_and_of_the_clock(rt: HostRuntime) -> Result<(), NoMemory> {
    let delays = Delays::standard()
        .with(DelayedDevice::Printer, 3)
        .with(DelayedDevice::Reader, 3)
        .with(DelayedDevice::Punch, 3);
    begins_quietly(&rt, rt.alloc(), delays, &TURNS)?;
    begins_quietly(
        &rt,
        rt.alloc(),
        Delays::standard().with(DelayedDevice::Clock, 3),
        &TICKS,
    )
}
