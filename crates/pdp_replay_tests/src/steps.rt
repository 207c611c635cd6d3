//! Tests of an engine as tables: each row is a step, a call of the engine with what must come of
//! it.

use pdp_replay::*;
use std::alloc::Global;
use std::process::Abort;
use std::test::Fail;

/// The widest stride, by which the state of turn 0 alone is kept.
pub(crate) const WIDEST: u32 = 2_000_000_000;

/// A setup of so many units of core, without images: start 1000 (octal), and this stride.
pub(crate) fn blank(alloc: Global, units: u8, stride: u32) -> Setup {
    Setup {
        units,
        start: 0o1000,
        core: Vec::new(alloc),
        disks: Vec::new(alloc),
        tape: Vec::new(alloc),
        stride,
    }
}

/// An engine with this stride over 31 units of core, with these words from 1000 (octal) on as its
/// image; it starts there.
pub(crate) fn engine_of(alloc: Global, words: &[u16], stride: u32) -> Result<Engine, Fault> {
    let mut setup = blank(alloc, 31, stride);
    setup.core = vec![in alloc; 0; 256]?;
    setup.core.extend_from_slice(words)?;
    Engine::new(alloc, setup)
}

/// A step of a test.
#[derive(Clone, Copy)]
pub(crate) enum TestedStep {
    /// How many turns are run for this question, and the known turn after it.
    Ran(Question, u64, u32),
    /// What this edit is answered.
    Edit(TestedEdit, Result<u32, Fault>),
}

/// An edit of the past. The number of an event that it puts in is its answer, else 0.
#[derive(Clone, Copy)]
pub(crate) enum TestedEdit {
    /// Makes the core word at this address this word.
    Patch(u32, u16),
    /// Makes the word of this number, on drive 0, this word.
    Disk(u32, u16),
    /// Gives the run eight drives.
    EightDrives,
    /// Puts an event into the script at this turn.
    Insert(u32, Event),
    /// Gives the event of this number this turn and event.
    Alter(u32, u32, Event),
    /// Takes the event of this number out of the script.
    Drop(u32),
    /// Puts a paper tape of so many bytes, each 0, into the reader.
    Tape(usize),
    /// Sets the delay of this line.
    Delay(DelayedDevice, u32),
}

/// Asserts that these steps, taken in turn with this engine, give what they say, and that the
/// stride is this one after the last question. A failure names a step, counted from 0.
pub(crate) fn follow(
    rt: &impl Abort,
    alloc: Global,
    engine: &mut Engine,
    stride: u32,
    steps: &[TestedStep],
) -> Result<(), Fail> {
    let mut last = stride;
    for (number, step) in steps.iter().enumerate() {
        match *step {
            TestedStep::Ran(question, ran, known) => {
                let answer = ask(engine, alloc, question)?;
                assert_eq!(rt;
                    (answer.ran, answer.known),
                    (ran, known),
                    "at step {number}"
                );
                last = answer.stride;
            }
            TestedStep::Edit(edit, want) => {
                assert_eq!(rt; make(engine, alloc, edit), want, "at step {number}");
            }
        }
    }
    assert_eq!(rt; last, stride);
    Ok(())
}

/// The answer to a question.
pub(crate) fn ask(
    engine: &mut Engine,
    alloc: Global,
    question: Question,
) -> Result<Told<Value>, Fault> {
    engine.ask(alloc, question)
}

/// Makes this edit, and gives what it is answered.
pub(crate) fn make(engine: &mut Engine, alloc: Global, edit: TestedEdit) -> Result<u32, Fault> {
    match edit {
        TestedEdit::Patch(address, word) => engine.set_core(address, word)?,
        TestedEdit::Disk(number, word) => engine.set_disk(0, number, word)?,
        TestedEdit::EightDrives => engine.use_eight_drives()?,
        TestedEdit::Insert(turn, event) => return engine.insert(turn, event),
        TestedEdit::Alter(number, turn, event) => engine.alter(number, turn, event)?,
        TestedEdit::Drop(number) => engine.drop_event(number)?,
        TestedEdit::Tape(bytes) => engine.set_tape(vec![in alloc; 0; bytes]?)?,
        TestedEdit::Delay(line, delay) => engine.set_delay(line, delay)?,
    }
    Ok(0)
}
