//! Which states are kept, and how many turns are run from them for questions in any order.

use crate::steps::{TestedEdit, TestedStep, ask, engine_of, follow};
use pdp_cpu::KeptByte;
use pdp_replay::*;
use std::alloc::Global;
use std::process::Abort;
use std::test::Fail;

/// MOV #5,R0; HALT
const FIVE: [u16; 3] = [0o12700, 5, 0];

/// MOV #101,R0; then in a loop MOVB R0,@#177566; MOVB R0,@#177556; INC R0; and a branch back to the
/// first MOVB. A letter is sent to the printer in the turns 1, 5, 9 and so on, and is printed one
/// turn later. In that turn it is sent to the punch, and four turns later it is punched.
const LETTERS: [u16; 9] = [
    0o12700, 0o101, 0o110037, 0o177566, 0o110037, 0o177556, 0o5200, 0o772, 0,
];

/// What LETTERS has printed before turn 7.
const A_AND_B: [KeptByte; 2] = [
    KeptByte {
        byte: 0o101,
        turn: 2,
    },
    KeptByte {
        byte: 0o102,
        turn: 6,
    },
];

/// What it has punched by then.
const PUNCHED_A: [KeptByte; 1] = [KeptByte {
    byte: 0o101,
    turn: 6,
}];

/// Asserts which states are kept: the turn of the next, and the turn of the one from which a turn
/// is reached.
fn assert_kept(rt: &impl Abort, engine: &Engine, turn: u32, want: (u32, u32)) {
    let ladder = engine.kept_states();
    assert_eq!(rt; (ladder.next(), ladder.best(turn).turn), want);
}

/// The 257th state, that of turn 256, doubles the stride: the states of turns 0, 2, .. 256 stay.
const FILLS: [TestedStep; 1] = [TestedStep::Ran(Question::Regs(255), 255, 255)];

const DOUBLES: [TestedStep; 5] = [
    TestedStep::Ran(Question::Regs(256), 1, 256),
    TestedStep::Ran(Question::Regs(300), 44, 300),
    TestedStep::Ran(Question::Regs(255), 1, 300),
    TestedStep::Edit(TestedEdit::Insert(100, Event::Tick), Ok(1)),
    TestedStep::Ran(Question::Trail(300, 64), 200, 300),
];

fn assert_doubles(rt: &impl Abort, alloc: Global, engine: &mut Engine) -> Result<(), Fail> {
    follow(rt, alloc, engine, 1, &FILLS)?;
    assert_kept(rt, engine, 5, (256, 5));
    follow(rt, alloc, engine, 2, &DOUBLES)?;
    assert_kept(rt, engine, 5, (302, 4));
    Ok(())
}

#[test]
fn stride_doubles(rt: HostRuntime) -> Result<(), Fail> {
    let mut engine = engine_of(rt.alloc(), &FIVE, 1)?;
    assert_doubles(&rt, rt.alloc(), &mut engine)
}

/// Asserts that the machine is at turn 7, and has printed and punched what LETTERS has before it.
fn assert_machine(rt: &impl Abort, engine: &Engine) {
    let machine = engine.machine();
    assert_eq!(rt; machine.turns(), 7);
    assert_eq!(rt; machine.text(), A_AND_B.as_slice());
    assert_eq!(rt; machine.punched(), PUNCHED_A.as_slice());
}

const BACK_TO_TURN_7: [TestedStep; 2] = [
    TestedStep::Ran(Question::Text(11), 11, 11),
    TestedStep::Ran(Question::Text(7), 3, 11),
];

const EVENT_AT_TURN_5: [TestedStep; 1] = [TestedStep::Edit(
    TestedEdit::Insert(5, Event::Tick),
    Ok(1),
)];

/// By turn 11 the states of the turns 0, 4 and 8 are kept, and then the machine goes back to turn
/// 7. The edit leaves the states of the turns 0 and 4.
fn assert_states(rt: &impl Abort, alloc: Global, engine: &mut Engine) -> Result<(), Fail> {
    follow(rt, alloc, engine, 4, &BACK_TO_TURN_7)?;
    assert_kept(rt, engine, 1_000, (12, 8));
    assert_kept(rt, engine, 7, (12, 4));
    assert_machine(rt, engine);
    follow(rt, alloc, engine, 4, &EVENT_AT_TURN_5)?;
    assert_kept(rt, engine, 1_000, (8, 4));
    Ok(())
}

#[test]
fn machine_and_kept_states(rt: HostRuntime) -> Result<(), Fail> {
    let mut engine = engine_of(rt.alloc(), &LETTERS, 4)?;
    assert_states(&rt, rt.alloc(), &mut engine)
}

/// An early question leaves what was printed and punched by the known turn. An edit at a turn
/// leaves what was printed and punched before it.
const TEXTS: [TestedStep; 11] = [
    TestedStep::Ran(Question::Text(100), 100, 100),
    TestedStep::Ran(Question::Text(3), 3, 100),
    TestedStep::Ran(Question::Text(100), 0, 100),
    TestedStep::Ran(Question::Punched(8), 0, 100),
    TestedStep::Ran(Question::Punched(100), 0, 100),
    TestedStep::Ran(Question::Text(103), 3, 103),
    TestedStep::Ran(Question::Text(0), 0, 103),
    TestedStep::Edit(TestedEdit::Insert(50, Event::Tick), Ok(1)),
    TestedStep::Ran(Question::Text(8), 0, 50),
    TestedStep::Ran(Question::Text(52), 4, 52),
    TestedStep::Ran(Question::Text(100), 48, 100),
];

#[test]
fn early_questions_keep_the_text(rt: HostRuntime) -> Result<(), Fail> {
    let mut engine = engine_of(rt.alloc(), &LETTERS, 4)?;
    follow(&rt, rt.alloc(), &mut engine, 4, &TEXTS)
}

/// States at the multiples of 40,000 are kept by turn 10,000,000: from 256 times 10,000 on the
/// stride is 20,000, and from 256 times 20,000 on 40,000. An engine that ran turns in secret,
/// without the meter, would not end within a test's time.
const FAR: [TestedStep; 1] = [TestedStep::Ran(Question::Regs(10_000_000), 10_000_000, 10_000_000)];

fn assert_known(rt: &impl Abort, alloc: Global, engine: &mut Engine) -> Result<(), Fail> {
    for number in 0..100_000u32 {
        let turn = number % 251 * 40_000;
        let answer = ask(engine, alloc, Question::Regs(turn))?;
        assert_eq!(rt;
            (answer.ran, answer.known),
            (0, 10_000_000),
            "at turn {turn}"
        );
    }
    Ok(())
}

fn assert_no_turns(rt: &impl Abort, alloc: Global, engine: &mut Engine) -> Result<(), Fail> {
    follow(rt, alloc, engine, 40_000, &FAR)?;
    assert_known(rt, alloc, engine)
}

#[test]
fn no_turns_run_in_secret(rt: HostRuntime) -> Result<(), Fail> {
    let mut engine = engine_of(rt.alloc(), &[0o777], DEFAULT_STRIDE)?;
    assert_no_turns(&rt, rt.alloc(), &mut engine)
}
