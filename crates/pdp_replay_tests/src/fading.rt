//! From which turn on an edit of the script would change nothing.

use crate::steps::{self, TestedStep, WIDEST, engine_of, follow};
use pdp_replay::*;
use std::alloc::Global;
use std::process::Abort;
use std::test::Fail;

/// In a loop TSTB @#177560 and a BPL back to it, until there is a key; then MOV @#177562,R0 and a
/// branch back to the TSTB, which is done in the even turns while no key comes.
const FETCHES_KEYS: [u16; 6] = [0o105737, 0o177560, 0o100375, 0o13700, 0o177562, 0o772];

/// An edit. Key 101 comes in turn 5000 as event 1, and key 102 in turn 9000 as event 2.
#[derive(Clone, Copy)]
enum TestedEdit {
    /// Event 1 comes in this turn, with this key.
    Alter(u32, u8),
    /// Event 1 goes.
    Drop,
    /// The clock ticks in this turn.
    Tick(u32),
    /// Key 101 comes in this turn too.
    Key(u32),
    /// The core word at this address is this one as of power-up.
    Core(u32, u16),
}

impl TestedEdit {
    fn of_past(self) -> PastEdit {
        PastEdit::Script(match self {
            TestedEdit::Alter(turn, key) => ScriptEdit::Alter {
                number: 1,
                turn,
                event: Event::Key(key),
            },
            TestedEdit::Drop => ScriptEdit::Drop { number: 1 },
            TestedEdit::Tick(turn) => ScriptEdit::Insert {
                turn,
                event: Event::Tick,
            },
            TestedEdit::Key(turn) => ScriptEdit::Insert {
                turn,
                event: Event::Key(0o101),
            },
            TestedEdit::Core(address, word) => return PastEdit::Word(Patch::Core(address, word)),
        })
    }
}

/// The edit, the turn up to which is looked, and the turn from which on it would change nothing.
const FADINGS: [(TestedEdit, u32, Option<u32>); 10] = [
    // The key is fetched four turns later, and the TSTB after it sets the condition codes.
    (TestedEdit::Alter(5003, 0o101), 20_000, Some(5009)),
    (TestedEdit::Alter(5003, 0o101), 5009, Some(5009)),
    (TestedEdit::Alter(5003, 0o101), 5008, None),
    // The event stays as it is.
    (TestedEdit::Alter(5000, 0o101), 20_000, Some(0)),
    // Register 0 differs until key 102 is fetched in turn 9002.
    (TestedEdit::Alter(5000, 0o103), 20_000, Some(9003)),
    (TestedEdit::Drop, 20_000, Some(9003)),
    // The clock's monitor bit is set already.
    (TestedEdit::Tick(7000), 20_000, Some(7001)),
    (TestedEdit::Key(7000), 7004, None),
    // No turn touches this word, which is 0.
    (TestedEdit::Core(0o20000, 0), 20_000, Some(0)),
    (TestedEdit::Core(0o20000, 1), 20_000, None),
];

/// Both keys are put into the script, and then the edits are asked about.
const KEYS: [TestedStep; 2] = [
    TestedStep::Edit(steps::TestedEdit::Insert(5000, Event::Key(0o101)), Ok(1)),
    TestedStep::Edit(steps::TestedEdit::Insert(9000, Event::Key(0o102)), Ok(2)),
];

fn assert_fades(rt: &impl Abort, alloc: Global, engine: &mut Engine) -> Result<(), Fail> {
    for (number, (edit, to, turn)) in FADINGS.iter().enumerate() {
        let fading = engine.fades(alloc, edit.of_past(), *to)?;
        assert_eq!(rt; fading.value, *turn, "edit {number}");
    }
    Ok(())
}

fn assert_refused(rt: &impl Abort, alloc: Global, engine: &mut Engine) -> Result<(), Fail> {
    let missing = PastEdit::Script(ScriptEdit::Drop { number: 3 });
    let refused = engine.fades(alloc, missing, 100).err();
    assert_eq!(rt; refused, Some(Fault::NoSuchEvent));
    let refused = engine.fades(alloc, missing, 1_000_000_001).err();
    assert_eq!(rt; refused, Some(Fault::TurnTooLarge));
    let odd = TestedEdit::Core(0o20001, 1).of_past();
    assert_eq!(rt;
        engine.fades(alloc, odd, 100).err(),
        Some(Fault::OddAddress)
    );
    Ok(())
}

fn assert_all(rt: &impl Abort, alloc: Global, engine: &mut Engine) -> Result<(), Fail> {
    follow(rt, alloc, engine, WIDEST, &KEYS)?;
    assert_fades(rt, alloc, engine)?;
    assert_refused(rt, alloc, engine)
}

#[test]
fn edits_fade(rt: HostRuntime) -> Result<(), Fail> {
    let mut engine = engine_of(rt.alloc(), &FETCHES_KEYS, WIDEST)?;
    assert_all(&rt, rt.alloc(), &mut engine)
}
