//! Moves that are noted of instructions.

use crate::cell_name::{CellName, HalfName};
use crate::noted_act::{NotedAct, instruct_noting};
use crate::noted_step::NotedSteps;
use pdp_form::PlacedForms;
use pdp_icache::Lines;
use pdp_io_page::Delays;
use pdp_operand::Processor;
use pdp_steps::StepLatch;
use pdp_store::Flat;
use pdp_unibus::Bus;
use pdp_word::NoMemory;
use std::alloc::Global;

type TestBus = Bus<Flat, Flat>;

/// A bus with an instruction and the word after it at 1000 (octal).
fn bus_with(alloc: Global, instruction: u16, second: u16) -> Result<TestBus, NoMemory> {
    let core = Flat::new(alloc, 512, false)?;
    let lines = Lines::new(alloc)?;
    let placed = PlacedForms::new(alloc)?;
    let delays = Delays::standard();
    let mut bus = Bus::new(
        lines,
        placed,
        core,
        Vec::new(alloc),
        Vec::new(alloc),
        delays,
    );
    let _ = bus.write(0o1000, instruction);
    let _ = bus.write(0o1002, second);
    Ok(bus)
}

/// Runs the instruction at PC, and notes its moves.
fn run(bus: &mut TestBus, noted: &mut NotedAct) {
    let mut processor = Processor::at_power_up(0o1000);
    processor.words = [0, 0, 0, 0, 0, 0, 0o700, 0];
    let mut latch = StepLatch::empty();
    instruct_noting(&mut processor, bus, &mut latch, noted);
}

/// How many cells the step of this number moves.
fn moved(noted: &NotedSteps, number: usize) -> usize {
    match noted.as_slice().get(number) {
        Some(step) => step.moves.len(),
        None => 0,
    }
}

/// How many sources the last cell has that the step of this number moves, if it is this cell.
fn sources_of(noted: &NotedSteps, number: usize, cell: CellName) -> Option<usize> {
    let change = noted.as_slice().get(number)?.moves.as_slice().last()?;
    if change.cell.is_same(cell) {
        Some(change.sources.len())
    } else {
        None
    }
}

#[test]
fn sums_are_noted(rt: HostRuntime) -> Result<(), NoMemory> {
    // ADD R0,R1
    let mut bus = bus_with(rt.alloc(), 0o060001, 0)?;
    let mut noted = NotedAct::empty();
    run(&mut bus, &mut noted);
    assert_eq!(rt; noted.plan.steps.len(), 8);
    // both halves of the sum, and four codes
    assert_eq!(rt; moved(&noted.plan.steps, 5), 6);
    let high = CellName::RegisterByte {
        place: 1,
        half: HalfName::High,
    };
    assert_eq!(rt; sources_of(&noted.plan.steps, 6, high), Some(1));
    Ok(())
}

#[test]
fn odd_bytes_are_noted(rt: HostRuntime) -> Result<(), NoMemory> {
    // MOVB R0,@#1101: one half of a word moves
    let mut bus = bus_with(rt.alloc(), 0o110037, 0o1101)?;
    let mut noted = NotedAct::empty();
    run(&mut bus, &mut noted);
    assert_eq!(rt; noted.plan.steps.len(), 6);
    assert_eq!(rt; moved(&noted.plan.steps, 4), 1);
    let byte = CellName::CoreByte {
        word: 0o440,
        half: HalfName::High,
    };
    assert_eq!(rt; sources_of(&noted.plan.steps, 4, byte), Some(2));
    Ok(())
}

#[test]
fn traps_are_noted(rt: HostRuntime) -> Result<(), NoMemory> {
    // TST @#1: the operand is found, but not read
    let mut bus = bus_with(rt.alloc(), 0o005737, 1)?;
    let mut noted = NotedAct::empty();
    run(&mut bus, &mut noted);
    assert!(rt; noted.plan.is_lost);
    assert_eq!(rt; noted.sequence.first.steps.len(), 7);
    // the old program status word, with nothing in its high half
    assert_eq!(rt; moved(&noted.sequence.first.steps, 3), 2);
    let high = CellName::CoreByte {
        word: 0o337,
        half: HalfName::High,
    };
    assert_eq!(rt; sources_of(&noted.sequence.first.steps, 3, high), Some(0));
    Ok(())
}
