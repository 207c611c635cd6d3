//! Instructions that run step by step leave what `instruct` of pdp_instruction leaves.

use crate::step::Microstep;
use crate::step_latch::StepLatch;
use crate::step_run::{carry_out, run_sequence, run_step};
use pdp_form::PlacedForms;
use pdp_icache::Lines;
use pdp_instruction::{SavedContext, instruct, vector};
use pdp_io_page::Delays;
use pdp_operand::{Processor, Trap};
use pdp_store::Flat;
use pdp_unibus::Bus;
use pdp_word::NoMemory;
use std::alloc::Global;
use std::process::Abort;

/// Each instruction with the two words after it.
const INSTRUCTIONS: [[u16; 3]; 12] = [
    // ADD R0,R1
    [0o060001, 0, 0],
    // MOVB (R2)+,@4(R3)
    [0o112273, 4, 0],
    // BIC @(R2)+,-(R4)
    [0o043244, 0, 0],
    // CMPB R0,@-(R2)
    [0o120052, 0, 0],
    // ROL 10(R3)
    [0o006163, 0o10, 0],
    // JSR R5,@2(R3)
    [0o004573, 2, 0],
    // MUL (R2),R0
    [0o070012, 0, 0],
    // MOV #5,@#777776
    [0o012737, 5, 0o177776],
    // MTPI R1
    [0o006601, 0, 0],
    // RTI
    [0o000002, 0, 0],
    // BPT
    [0o000003, 0, 0],
    // JMP R0
    [0o000100, 0, 0],
];

/// How many words core has.
const WORDS: u16 = 512;

type TestBus = Bus<Flat, Flat>;

/// A bus whose core has these words at 1000 (octal), and numbers elsewhere that are even addresses
/// in it.
fn bus_with(alloc: Global, words: [u16; 3]) -> Result<TestBus, NoMemory> {
    let core = Flat::new(alloc, usize::from(WORDS), false)?;
    let lines = Lines::new(alloc)?;
    let placed = PlacedForms::new(alloc)?;
    let delays = Delays::standard();
    let mut bus = Bus::new(
        lines,
        placed,
        core,
        Vec::new(alloc),
        Vec::new(alloc),
        delays,
    );
    for place in 0..WORDS {
        let _ = bus.write(u32::from(place) * 2, place % 256 * 2);
    }
    let [instruction, second, third] = words;
    let _ = bus.write(0o1000, instruction);
    let _ = bus.write(0o1002, second);
    let _ = bus.write(0o1004, third);
    Ok(bus)
}

fn processor_at_start() -> Processor {
    let mut processor = Processor::at_power_up(0o1000);
    processor.words = [3, 5, 0o1100, 0o1200, 0o1300, 0o1400, 0o700, 0o600];
    processor
}

/// The instruction at PC, and the sequence of its trap, if it comes to one.
fn instruct_by_steps(processor: &mut Processor, bus: &mut TestBus) -> Result<(), Trap> {
    let mut latch = StepLatch::empty();
    run_step(processor, bus, &mut latch, Microstep::Fetch)?;
    match carry_out(processor, bus, &mut latch) {
        Ok(()) => {
            let note = Microstep::NoteTrace(latch.instr);
            run_step(processor, bus, &mut latch, note)
        }
        Err(trap) => {
            let context = SavedContext::of(processor, bus);
            run_sequence(processor, bus, &mut latch, true, vector(trap), context)
        }
    }
}

fn assert_same_core(rt: &impl Abort, one: &mut TestBus, other: &mut TestBus) {
    for place in 0..WORDS {
        let address = u32::from(place) * 2;
        assert_eq!(rt; one.read(address), other.read(address), "word {address:o}");
    }
}

fn assert_same_by_steps(rt: &impl Abort, alloc: Global, words: [u16; 3]) -> Result<(), NoMemory> {
    let mut processor = processor_at_start();
    let mut bus = bus_with(alloc, words)?;
    instruct(&mut processor, &mut bus);
    let mut other = processor_at_start();
    let mut other_bus = bus_with(alloc, words)?;
    assert!(rt; instruct_by_steps(&mut other, &mut other_bus).is_ok());
    assert!(rt; processor.is_same(&other));
    assert_eq!(rt; bus.status().word(), other_bus.status().word());
    assert_same_core(rt, &mut bus, &mut other_bus);
    Ok(())
}

#[test]
fn steps_leave_what_instruct_leaves(rt: HostRuntime) -> Result<(), NoMemory> {
    for words in INSTRUCTIONS {
        assert_same_by_steps(&rt, rt.alloc(), words)?;
    }
    Ok(())
}
