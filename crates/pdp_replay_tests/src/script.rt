//! A script that is full.

use pdp_script::{Fault, Script};
use pdp_unibus::Event;
use std::test::Fail;

/// A script has at most 65,536 events. A refused one uses no number up, and a dropped one makes
/// room.
#[test]
fn holds_65536_events(rt: HostRuntime) -> Result<(), Fail> {
    let mut script = Script::new(rt.alloc());
    for expected in 1..65_537u32 {
        assert_eq!(rt; script.insert(0, Event::Tick)?, expected);
    }
    assert_eq!(rt; script.insert(0, Event::Tick), Err(Fault::ScriptFull));
    script.drop_event(1)?;
    assert_eq!(rt; script.insert(0, Event::Key(0o101))?, 65_537);
    assert_eq!(rt; script.insert(0, Event::Tick), Err(Fault::ScriptFull));
    Ok(())
}
