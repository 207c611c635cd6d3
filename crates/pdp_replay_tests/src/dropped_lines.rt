//! A machine over flat stores that drops its decoded lines before each turn.

use pdp_cpu::{Machine, Meter};
use pdp_form::PlacedForms;
use pdp_icache::Lines;
use pdp_io_page::Delays;
use pdp_store::{Flat, Store};
use pdp_unibus::LAST_TURN;
use pdp_word::NoMemory;
use std::alloc::Global;

/// MOV #3,R0; INC R1; MOVB #202,@#1004, which makes the INC one of R2; SOB R0 to the INC; HALT
const STORES_OVER_ITSELF: [u16; 8] = [
    0o012700, 0o000003, 0o005201, 0o112737, 0o000202, 0o001004, 0o077005, 0o000000,
];

fn put(core: &mut Flat) {
    for (number, word) in STORES_OVER_ITSELF.iter().enumerate() {
        if 256 + number < core.len() {
            core.set(256 + number, *word);
        }
    }
}

fn machine_of(alloc: Global) -> Result<Machine<Flat, Flat>, NoMemory> {
    let mut core = Flat::new(alloc, 512, true)?;
    put(&mut core);
    let lines = Lines::new(alloc)?;
    let placed = PlacedForms::new(alloc)?;
    let (drives, tape) = (Vec::new(alloc), Vec::new(alloc));
    Ok(Machine::at_power_up(
        alloc,
        lines,
        placed,
        0o1000,
        core,
        drives,
        tape,
        Delays::standard(),
    ))
}

fn run_without_lines(machine: &mut Machine<Flat, Flat>, turns: u32) -> Result<(), NoMemory> {
    for _ in 0..turns {
        machine.clear_lines();
        machine.ready()?;
        if machine.turns() < LAST_TURN {
            machine.turn(&mut Meter::new(), &[]);
        }
    }
    Ok(())
}

/// R1 is counted up once, and R2 twice.
#[test]
fn stores_over_itself(rt: HostRuntime) -> Result<(), NoMemory> {
    let mut machine = machine_of(rt.alloc())?;
    run_without_lines(&mut machine, 11)?;
    assert_eq!(rt; machine.regs().r, [0, 1, 2, 0, 0, 0]);
    Ok(())
}
