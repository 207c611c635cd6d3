//! A flat store: words, stamps and first touches.

use pdp_store::{Agent, Flat, Stamp, Store};
use pdp_word::NoMemory;

/// A write has a stamp, and a patch takes it away. The earliest touch of a page stays until its
/// turn is forgotten.
#[test]
fn words_stamps_and_touches(rt: HostRuntime) -> Result<(), NoMemory> {
    let stamp = Stamp {
        turn: 7,
        agent: Agent::Disk,
    };
    let mut store = Flat::new(rt.alloc(), 512, true)?;
    store.write(256, 0o012701, stamp);
    store.touch(300, 9);
    store.touch(256, 8);
    assert_eq!(rt; (store.len(), store.read(256)), (512, 0o012701));
    assert_eq!(rt; (store.last(256), store.last(255)), (Some(stamp), None));
    assert_eq!(rt; (store.first(0), store.first(1)), (None, Some(8)));
    store.set(256, 0o000777);
    store.forget(8);
    assert_eq!(rt; (store.read(256), store.last(256)), (0o000777, None));
    assert_eq!(rt; store.first(1), None);
    Ok(())
}
