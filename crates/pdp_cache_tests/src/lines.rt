//! Which decoded lines are kept.

ghost use Rattle.std.specs.Prelude.{◌≤◌, length};
ghost use Rattle.pdp_icache.specs.KeptLines.{AreCurrent};

use pdp_icache::Lines;
use pdp_store::Flat;
use pdp_word::NoMemory;

/// A line has 32 bytes: 001000 to 001037.
#[test]
fn a_line_is_kept_until_it_is_dropped(rt: HostRuntime) -> Result<(), NoMemory> {
    let core = Flat::new(rt.alloc(), 1024, true)?;
    let mut lines = Lines::new(rt.alloc())?;
    assert!(rt; !lines.held(0o1000));
    let _instr = lines.get(&core, 0o1000);
    assert!(rt; lines.held(0o1036));
    assert!(rt; !lines.held(0o1040));
    lines.clear();
    assert!(rt; !lines.held(0o1000));
    let _instr = lines.get(&core, 0o1000);
    lines.overwritten(0o1002);
    assert!(rt; !lines.held(0o1000));
    Ok(())
}

/// Asks for a word of each of the first 600 lines, the lowest first.
fn ask_for_600(core: &Flat, lines: &mut Lines)
    requires in_core { 9600 ≤ length core.now.words }
    requires current { AreCurrent core.now.words lines.old }
    ensures { AreCurrent core.now.words lines.new }
{
    for number in 0..600 {
        let _instr = lines.get(core, number * 32);
    }
}

/// How many of the first 600 lines are kept.
fn kept_of_600(lines: &Lines) -> usize {
    let mut kept = 0usize;
    for number in 0..600 {
        if lines.held(number * 32) {
            kept = kept.saturating_add(1);
        }
    }
    kept
}

/// The last 64 are kept in front. As they come again, the last 448 are kept behind.
#[test]
fn at_most_512_lines_are_kept(rt: HostRuntime) -> Result<(), NoMemory> {
    let core = Flat::new(rt.alloc(), 9600, true)?;
    let mut lines = Lines::new(rt.alloc())?;
    ask_for_600(&core, &mut lines);
    assert_eq!(rt; kept_of_600(&lines), 64);
    ask_for_600(&core, &mut lines);
    assert_eq!(rt; kept_of_600(&lines), 448);
    Ok(())
}
