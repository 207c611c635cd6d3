//! What no reply of a search shows: how many turns are run for it, and the known turn after it; and
//! the search for a pending trap, for which no line asks.

use crate::steps::{WIDEST, engine_of};
use pdp_replay::*;
use pdp_script::Fault;
use std::alloc::Global;
use std::process::Abort;
use std::test::Fail;

/// MOV #101,R0; then in a loop MOVB R0,@#177566; MOVB R0,@#177556; INC R0 at 1014; and a branch
/// back to the first MOVB. The letter of number k, counted from 0, is printed in turn 4k + 2.
const LETTERS: [u16; 9] = [
    0o12700, 0o101, 0o110037, 0o177566, 0o110037, 0o177556, 0o5200, 0o772, 0,
];

/// A search.
#[derive(Clone, Copy)]
enum Asked {
    /// The first turn that is sought, from a turn on and before another.
    First(Sought, u32, u32),
    /// The last turn that is sought, from a turn on and before another.
    Last(Sought, u32, u32),
    /// The writes to the word at 2000 (octal), from a turn on and before another.
    Writes(u32, u32),
    /// The first change of the first word of the drive, from a turn on and before another.
    Change(u32, u32),
    /// The text before a turn, from a byte on.
    Text(u32, u32),
    /// The turn of a byte of the text.
    Byte(u32),
}

const INCREMENT: Sought = Sought::Instruction {
    address: 0o1014,
    mode: None,
};

/// Turn 0 alone runs it.
const BEGIN: Sought = Sought::Instruction {
    address: 0o1000,
    mode: None,
};

/// What is asked, how many turns are run for it, and the known turn after it. The state of turn 0
/// alone is kept, and the machine goes on from where it is if that isn't past the first turn.
const SEARCHES: [(Asked, u64, u32); 10] = [
    (Asked::First(INCREMENT, 0, 100), 4, 4),
    (Asked::Writes(4, 100), 96, 100),
    (Asked::Change(50, 60), 60, 100),
    (Asked::Text(98, 23), 38, 100),
    // Byte 24 is printed in turn 98, and the known turn is 100.
    (Asked::Byte(24), 2, 100),
    // Byte 26 is printed in turn 106.
    (Asked::Byte(26), 7, 107),
    (Asked::First(INCREMENT, 107, 200), 1, 108),
    (Asked::First(Sought::PendingTrap, 0, 10), 10, 108),
    (Asked::Last(INCREMENT, 50, 60), 50, 108),
    // The turns up to 120 are made known, and then run again from the state of turn 0 on.
    (Asked::Last(INCREMENT, 0, 120), 180, 120),
];

/// With a state at each tenth turn: 100 turns are made known, and then turns are searched from the
/// end on, part by part, up to the part in which one is found.
const SEARCHES_BACKWARDS: [(Asked, u64, u32); 3] = [
    (Asked::Last(INCREMENT, 0, 100), 110, 100),
    (Asked::Last(INCREMENT, 0, 100), 10, 100),
    (Asked::Last(BEGIN, 0, 100), 100, 100),
];

/// How many turns are run for a search, and the known turn after it.
fn ran_for(engine: &mut Engine, alloc: Global, asked: Asked) -> Result<(u64, u32), Fault> {
    match asked {
        Asked::First(sought, from, to) => {
            let found = engine.first_at(alloc, sought, from, to)?;
            Ok((found.ran, found.known))
        }
        Asked::Last(sought, from, to) => {
            let found = engine.last_at(alloc, sought, from, to)?;
            Ok((found.ran, found.known))
        }
        Asked::Writes(from, to) => {
            let found = engine.writes(alloc, 0o2000, from, to)?;
            Ok((found.ran, found.known))
        }
        Asked::Change(from, to) => {
            let found = engine.next_change(alloc, 0, 0, from, to)?;
            Ok((found.ran, found.known))
        }
        Asked::Text(turn, first) => {
            let part = engine.text_from(alloc, TextKind::Printed, turn, first)?;
            Ok((part.ran, part.known))
        }
        Asked::Byte(number) => {
            let found = engine.turn_of_byte(alloc, TextKind::Printed, number)?;
            Ok((found.ran, found.known))
        }
    }
}

fn assert_runs(
    rt: &impl Abort,
    alloc: Global,
    engine: &mut Engine,
    searches: &[(Asked, u64, u32)],
) -> Result<(), Fail> {
    for (number, (asked, ran, known)) in searches.iter().enumerate() {
        assert_eq!(rt;
            ran_for(engine, alloc, *asked)?,
            (*ran, *known),
            "search {number}"
        );
    }
    Ok(())
}

#[test]
fn turns_run_for_searches(rt: HostRuntime) -> Result<(), Fail> {
    let mut engine = engine_of(rt.alloc(), &LETTERS, WIDEST)?;
    assert_runs(&rt, rt.alloc(), &mut engine, &SEARCHES)
}

#[test]
fn turns_run_for_searches_backwards(rt: HostRuntime) -> Result<(), Fail> {
    let mut engine = engine_of(rt.alloc(), &LETTERS, 10)?;
    assert_runs(&rt, rt.alloc(), &mut engine, &SEARCHES_BACKWARDS)
}

/// MOV #400,SP; MOV R0,-(SP), into the yellow zone. The stack trap is turn 2, and goes to 0, where
/// HALT is.
const PUSHES: [u16; 4] = [0o12706, 0o400, 0o10046, 0];

#[test]
fn pending_traps(rt: HostRuntime) -> Result<(), Fail> {
    let alloc = rt.alloc();
    let mut engine = engine_of(alloc, &PUSHES, WIDEST)?;
    let trap = engine.first_at(alloc, Sought::PendingTrap, 0, 100)?;
    assert_eq!(&rt; trap.value, Some(2));
    let later = engine.first_at(alloc, Sought::PendingTrap, 3, 100)?;
    assert_eq!(&rt; later.value, None);
    Ok(())
}
