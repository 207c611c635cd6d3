//! How many turns are run for a question, and how far back each edit lowers the known turn.

use crate::steps::{TestedEdit, TestedStep, WIDEST, engine_of, follow};
use pdp_cpu::Mode;
use pdp_replay::*;
use std::alloc::Global;
use std::process::Abort;
use std::test::Fail;

/// A branch to itself.
const BRANCH: [u16; 1] = [0o777];

/// MOV #5,R0; HALT
const FIVE: [u16; 3] = [0o12700, 5, 0];

/// One word is read from the disk over the branch that waits for it. The transfer is done in turn
/// 12.
const READS_DISK_OVER_ITSELF: [u16; 10] = [
    0o012737, 0o177777, 0o177406, 0o012737, 0o001022, 0o177410, 0o012737, 0o000005, 0o177404,
    0o000777,
];

const POWER_UP: Question = Question::Regs(0);

const TRANSLATION: Question = Question::Translate {
    turn: 301,
    mode: Mode::Kernel,
    address: 0o177560,
};

const AT_VIRTUAL_ADDRESSES: Question = Question::Virtual {
    turn: 301,
    words: VirtualWords {
        mode: Mode::User,
        address: 0o1000,
        count: 256,
    },
};

const BRANCHES: WantedWords = WantedWords {
    first: 0,
    last: 0o1000,
    pattern: WordPattern {
        word: 0o777,
        mask: 0o177777,
    },
};

const BRANCHES_IN_CORE: Question = Question::FindCore {
    turn: 301,
    wanted: BRANCHES,
};

const BRANCHES_ON_DRIVE: Question = Question::FindDisk {
    turn: 301,
    drive: 0,
    wanted: BRANCHES,
};

/// No state but that of turn 0 is kept. The machine stays where the last question left it, until an
/// edit reaches back before that turn.
const QUESTIONS: [TestedStep; 20] = [
    TestedStep::Ran(Question::Regs(300), 300, 300),
    TestedStep::Ran(Question::Regs(5), 5, 300),
    TestedStep::Ran(Question::Regs(0), 0, 300),
    TestedStep::Ran(Question::Regs(301), 301, 301),
    TestedStep::Ran(Question::Pages(301), 0, 301),
    TestedStep::Ran(Question::Devices(301), 0, 301),
    TestedStep::Ran(Question::Core(301, 0o1000, 4), 0, 301),
    TestedStep::Ran(Question::Disk(301, 0, 0, 256), 0, 301),
    TestedStep::Ran(Question::Last(301, 0o1000), 0, 301),
    TestedStep::Ran(TRANSLATION, 0, 301),
    TestedStep::Ran(AT_VIRTUAL_ADDRESSES, 0, 301),
    TestedStep::Ran(BRANCHES_IN_CORE, 0, 301),
    TestedStep::Ran(BRANCHES_ON_DRIVE, 0, 301),
    TestedStep::Ran(Question::Trail(310, 9), 9, 310),
    TestedStep::Ran(Question::Text(310), 0, 310),
    TestedStep::Edit(TestedEdit::Insert(310, Event::Tick), Ok(1)),
    TestedStep::Ran(Question::Regs(312), 2, 312),
    TestedStep::Edit(TestedEdit::Alter(1, 311, Event::Tick), Ok(0)),
    TestedStep::Ran(Question::Regs(310), 310, 310),
    TestedStep::Ran(Question::Regs(309), 309, 310),
];

#[test]
fn turns_run(rt: HostRuntime) -> Result<(), Fail> {
    let mut engine = engine_of(rt.alloc(), &BRANCH, WIDEST)?;
    follow(&rt, rt.alloc(), &mut engine, WIDEST, &QUESTIONS)
}

/// An event lowers it to its turn, or to its old turn if that is lower. What no turn has come to
/// yet stays as it is.
const SCRIPT_EDITS: [TestedStep; 15] = [
    TestedStep::Ran(Question::Regs(300), 300, 300),
    TestedStep::Edit(TestedEdit::Insert(500, Event::Tick), Ok(1)),
    TestedStep::Ran(POWER_UP, 0, 300),
    TestedStep::Edit(TestedEdit::Insert(200, Event::Tick), Ok(2)),
    TestedStep::Ran(POWER_UP, 0, 200),
    TestedStep::Edit(TestedEdit::Alter(1, 150, Event::Tick), Ok(0)),
    TestedStep::Ran(POWER_UP, 0, 150),
    TestedStep::Edit(TestedEdit::Alter(1, 400, Event::Tick), Ok(0)),
    TestedStep::Ran(POWER_UP, 0, 150),
    TestedStep::Edit(TestedEdit::Alter(1, 100, Event::Tick), Ok(0)),
    TestedStep::Ran(POWER_UP, 0, 100),
    TestedStep::Edit(TestedEdit::Drop(2), Ok(0)),
    TestedStep::Ran(POWER_UP, 0, 100),
    TestedStep::Edit(TestedEdit::Drop(1), Ok(0)),
    TestedStep::Ran(POWER_UP, 0, 100),
];

/// A delay, a tape and more drives are as of power-up. A refused edit lowers nothing.
const SETUP_EDITS: [TestedStep; 16] = [
    TestedStep::Ran(Question::Regs(10), 10, 100),
    TestedStep::Edit(
        TestedEdit::Delay(DelayedDevice::Clock, 1_000_000_001),
        Err(Fault::TurnTooLarge),
    ),
    TestedStep::Edit(TestedEdit::Tape(1_048_577), Err(Fault::BadImage)),
    TestedStep::Ran(POWER_UP, 0, 100),
    TestedStep::Edit(
        TestedEdit::Delay(DelayedDevice::Clock, 1_000_000_000),
        Ok(0),
    ),
    TestedStep::Ran(POWER_UP, 0, 0),
    TestedStep::Ran(Question::Regs(10), 10, 10),
    TestedStep::Edit(TestedEdit::Tape(1), Ok(0)),
    TestedStep::Ran(POWER_UP, 0, 0),
    TestedStep::Edit(TestedEdit::Tape(1_048_576), Ok(0)),
    TestedStep::Edit(TestedEdit::Tape(0), Ok(0)),
    TestedStep::Ran(Question::Regs(10), 10, 10),
    TestedStep::Edit(TestedEdit::EightDrives, Ok(0)),
    TestedStep::Ran(POWER_UP, 0, 0),
    TestedStep::Edit(TestedEdit::EightDrives, Ok(0)),
    TestedStep::Ran(POWER_UP, 0, 0),
];

fn follow_edits(rt: &impl Abort, alloc: Global, engine: &mut Engine) -> Result<(), Fail> {
    follow(rt, alloc, engine, WIDEST, &SCRIPT_EDITS)?;
    follow(rt, alloc, engine, WIDEST, &SETUP_EDITS)
}

#[test]
fn known_turns(rt: HostRuntime) -> Result<(), Fail> {
    let mut engine = engine_of(rt.alloc(), &BRANCH, WIDEST)?;
    follow_edits(&rt, rt.alloc(), &mut engine)
}

/// A patch of a page that no turn touched leaves all known, and the word is in each checkpoint.
const PATCHES_OF_CORE: [TestedStep; 6] = [
    TestedStep::Ran(Question::Regs(100), 100, 100),
    TestedStep::Edit(TestedEdit::Patch(0o4000, 7), Ok(0)),
    TestedStep::Ran(Question::Core(100, 0o4000, 1), 0, 100),
    TestedStep::Edit(TestedEdit::Patch(0o1002, 6), Ok(0)),
    TestedStep::Ran(POWER_UP, 0, 0),
    TestedStep::Ran(Question::Regs(100), 100, 100),
];

const PATCHES_OF_THE_DRIVE: [TestedStep; 6] = [
    TestedStep::Ran(Question::Regs(20), 20, 20),
    TestedStep::Edit(TestedEdit::Disk(0o400, 5), Ok(0)),
    TestedStep::Ran(Question::Regs(20), 0, 20),
    TestedStep::Edit(TestedEdit::Disk(0, 0o777), Ok(0)),
    TestedStep::Ran(POWER_UP, 0, 12),
    TestedStep::Ran(Question::Regs(13), 1, 13),
];

#[test]
fn known_turns_of_patches_of_core(rt: HostRuntime) -> Result<(), Fail> {
    let mut engine = engine_of(rt.alloc(), &FIVE, 1)?;
    follow(&rt, rt.alloc(), &mut engine, 1, &PATCHES_OF_CORE)
}

#[test]
fn known_turns_of_patches_of_the_drive(rt: HostRuntime) -> Result<(), Fail> {
    let mut engine = engine_of(rt.alloc(), &READS_DISK_OVER_ITSELF, 1)?;
    follow(&rt, rt.alloc(), &mut engine, 1, &PATCHES_OF_THE_DRIVE)
}

/// On the way to a turn far off states are kept each 8,192 turns. They are dropped as what is known
/// is, so that no question goes on from a state of another past.
const STATES_NEAR_A_TURN: [TestedStep; 10] = [
    TestedStep::Ran(Question::Regs(90_000), 90_000, 90_000),
    TestedStep::Ran(Question::Regs(89_999), 8_079, 90_000),
    TestedStep::Ran(Question::Regs(81_920), 0, 90_000),
    TestedStep::Ran(Question::Regs(20_000), 3_616, 90_000),
    TestedStep::Edit(TestedEdit::Insert(50_000, Event::Tick), Ok(1)),
    TestedStep::Ran(Question::Regs(60_000), 10_848, 60_000),
    TestedStep::Ran(Question::Regs(49_152), 0, 60_000),
    TestedStep::Edit(TestedEdit::Patch(0o4000, 7), Ok(0)),
    TestedStep::Ran(Question::Core(49_152, 0o4000, 1), 49_152, 60_000),
    TestedStep::Ran(Question::Regs(33_000), 232, 60_000),
];

#[test]
fn states_near_a_turn(rt: HostRuntime) -> Result<(), Fail> {
    let mut engine = engine_of(rt.alloc(), &BRANCH, 100_000)?;
    follow(&rt, rt.alloc(), &mut engine, 100_000, &STATES_NEAR_A_TURN)
}

/// A key that no program reads changes the machine only in which key waits. A run that meets the
/// run before the edit takes its states back, and runs no more turns.
const KEY: Event = Event::Key(0o101);

const OTHER_KEY: Event = Event::Key(0o102);

const EDITS_THAT_FADE: [TestedStep; 10] = [
    TestedStep::Edit(TestedEdit::Insert(100, KEY), Ok(1)),
    TestedStep::Ran(Question::Regs(200_000), 200_000, 200_000),
    TestedStep::Edit(TestedEdit::Alter(1, 101, KEY), Ok(0)),
    TestedStep::Ran(Question::Regs(200_000), 10_000, 200_000),
    TestedStep::Edit(TestedEdit::Alter(1, 101, OTHER_KEY), Ok(0)),
    TestedStep::Ran(Question::Regs(200_000), 199_899, 200_000),
    TestedStep::Edit(TestedEdit::Alter(1, 101, OTHER_KEY), Ok(0)),
    TestedStep::Ran(Question::Regs(200_000), 8_192, 200_000),
    TestedStep::Edit(TestedEdit::Alter(1, 101, KEY), Ok(0)),
    TestedStep::Ran(Question::Regs(200_000), 8_192, 200_000),
];

#[test]
fn edits_that_fade(rt: HostRuntime) -> Result<(), Fail> {
    let mut engine = engine_of(rt.alloc(), &BRANCH, 10_000)?;
    follow(&rt, rt.alloc(), &mut engine, 10_000, &EDITS_THAT_FADE)
}
