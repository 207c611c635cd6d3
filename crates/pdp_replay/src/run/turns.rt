//! Turns of a machine with the events of a script.

ghost use Rattle.std.specs.Prelude.{◌≡◌, ◌+◌, ◌≤◌, ◌<◌, [], ℕ, OnOk, OnErr};
ghost use Rattle.pdp_script.specs.Entries.{events_at};
ghost use Rattle.pdp_replay.specs.Run.KeptRuns.{IsUnderWay, IsWithoutEvents, RunsUpTo};
ghost use Rattle.pdp_replay.specs.Past.{Past};

use pdp_cpu::{Meter, PagedMachine, WordTable};
use pdp_script::Script;
use pdp_unibus::LAST_TURN;
use pdp_word::NoMemory;

/// Runs the machine to this turn, with the events of the script; the meter counts each turn.
///
/// Err if a turn's room was refused; the machine is then in the state of the turn that it came to.
pub(crate) fn run_part(
    machine: &mut PagedMachine,
    words: &WordTable,
    script: &Script,
    meter: &mut Meter,
    to: u32,
) -> Result<(), NoMemory>
    requires forward { machine.old.state.turn ≤ to }
    requires limit { to ≤ LAST_TURN }
    ensures way { (p : Past) (known : ℕ) → p.script ≡ script.now → IsUnderWay p known machine.old
        → IsUnderWay p known machine.new }
    ensures turn { OnOk result (machine.new.state.turn ≡ to) }
    ensures runs { RunsUpTo to machine.old machine.new meter.old meter.new }
{
    while machine.turns() < to {
        let quiet = quiet_until(script, machine.turns(), to);
        run_quiet(machine, words, meter, quiet)?;
        if quiet < to {
            next_turn(machine, script, meter)?;
        }
    }
    Ok(())
}

/// The first turn with events from this turn on, or `to` if none comes before it.
pub(crate) fn quiet_until(script: &Script, from: u32, to: u32) -> u32
    requires { from ≤ to }
    ensures least { from ≤ result }
    ensures most { result ≤ to }
    ensures quiet { (turn : ℕ) → from ≤ turn → turn < result
        → events_at script.now.entries turn ≡ [] }
{
    match script.next_turn(from) {
        Some(turn) => turn.min(to),
        None => to,
    }
}

/// Runs the machine to this turn without events; the meter counts each turn.
///
/// Err if a turn's room was refused; the machine is then in the state of the turn that it came to.
fn run_quiet(
    machine: &mut PagedMachine,
    words: &WordTable,
    meter: &mut Meter,
    to: u32,
) -> Result<(), NoMemory>
    requires forward { machine.old.state.turn ≤ to }
    requires limit { to ≤ LAST_TURN }
    ensures way { (p : Past) (known : ℕ) → IsWithoutEvents p machine.old.state.turn to
        → IsUnderWay p known machine.old → IsUnderWay p known machine.new }
    ensures turn { OnOk result (machine.new.state.turn ≡ to) }
    ensures runs { RunsUpTo to machine.old machine.new meter.old meter.new }
{
    while machine.turns() < to {
        run_some(machine, words, meter, to)?;
    }
    Ok(())
}

/// Runs the machine through some turns before this one, without events: as long as it is calm, or
/// its next turn if it isn't. The meter counts each turn.
///
/// Err if a turn's room was refused; the machine is then as it was.
fn run_some(
    machine: &mut PagedMachine,
    words: &WordTable,
    meter: &mut Meter,
    to: u32,
) -> Result<(), NoMemory>
    requires forward { machine.old.state.turn < to }
    requires limit { to ≤ LAST_TURN }
    ensures way { (p : Past) (known : ℕ) → IsWithoutEvents p machine.old.state.turn to
        → IsUnderWay p known machine.old → IsUnderWay p known machine.new }
    ensures on { OnOk result (machine.old.state.turn < machine.new.state.turn) }
    ensures runs { RunsUpTo to machine.old machine.new meter.old meter.new }
{
    if machine.run_calmly(words, meter, to) > 0 {
        return Ok(());
    }
    machine.ready()?;
    machine.turn(meter, &[]);
    Ok(())
}

/// Runs the machine through its next turn, with the events of the script; the meter counts it.
///
/// Err if the turn's room was refused; the machine is then as it was.
fn next_turn(machine: &mut PagedMachine, script: &Script, meter: &mut Meter) -> Result<(), NoMemory>
    requires limit { machine.old.state.turn < LAST_TURN }
    ensures way { (p : Past) (known : ℕ) → p.script ≡ script.now → IsUnderWay p known machine.old
        → IsUnderWay p known machine.new }
    ensures turn { OnOk result (machine.new.state.turn ≡ machine.old.state.turn + 1) }
    ensures same { OnErr result (machine.new.state.turn ≡ machine.old.state.turn) }
    ensures runs { RunsUpTo (machine.old.state.turn + 1) machine.old machine.new
        meter.old meter.new }
{
    machine.ready()?;
    let turn = machine.turns();
    machine.turn(meter, script.at(turn));
    Ok(())
}
