//! Turns of a machine with the events of a script, up to one that is watched for.

ghost use Rattle.std.specs.Prelude.{◌≡◌, ◌+◌, ◌≤◌, ◌<◌, false, None, IfOk, OnOk, OnErr};
ghost use Rattle.pdp_replay.specs.Ask.Searches.{EndsAfter};
ghost use Rattle.pdp_replay.specs.Ask.Watches.{IsFirstOnWay, IsFirstQuietly, IsFirstWith};
ghost use Rattle.pdp_replay.specs.Ask.Watches.{IsInside, SearchesTo, StaysOnWay, StaysQuietly};
ghost use Rattle.pdp_replay.specs.Ask.Watches.{StaysWith};

use crate::ask::Sought;
use crate::ask::watch::{Watchpoint, turn_if};
use crate::run::quiet_until;
use pdp_cpu::{Act, Meter, PagedMachine, WordTable};
use pdp_script::Script;
use pdp_unibus::{Event, LAST_TURN};
use pdp_word::NoMemory;

/// Runs the machine, with the events of the script, to the end of the first turn that is watched
/// for, or to turn `to`; the meter counts each turn. Returns the turn that is watched for.
///
/// Err if a turn's room was refused; the machine is then in the state of the turn that it came to.
pub(crate) fn search_part(
    machine: &mut PagedMachine,
    words: &WordTable,
    script: &Script,
    meter: &mut Meter,
    watch: Watchpoint,
    to: u32,
) -> Result<Option<u32>, NoMemory>
    requires forward { machine.old.state.turn < to }
    requires limit { to ≤ LAST_TURN }
    requires inside { IsInside watch machine.old }
    ensures found { IfOk result (IsFirstOnWay script.now watch machine.old machine.new) }
    ensures ends { IfOk result (EndsAfter machine.new.state.turn) }
    ensures on { OnOk result (machine.old.state.turn < machine.new.state.turn) }
    ensures way { StaysOnWay script.now machine.old machine.new }
    ensures runs { SearchesTo to watch machine.old machine.new meter.old meter.new }
{
    while machine.turns() < to {
        let found = search_stretch(machine, words, script, meter, watch, to)?;
        if found.is_some() {
            return Ok(found);
        }
    }
    Ok(None)
}

/// The same, but only through the turns before the next one with events, or through that one if it
/// is the machine's next.
fn search_stretch(
    machine: &mut PagedMachine,
    words: &WordTable,
    script: &Script,
    meter: &mut Meter,
    watch: Watchpoint,
    to: u32,
) -> Result<Option<u32>, NoMemory>
    requires forward { machine.old.state.turn < to }
    requires limit { to ≤ LAST_TURN }
    requires inside { IsInside watch machine.old }
    ensures found { IfOk result (IsFirstOnWay script.now watch machine.old machine.new) }
    ensures ends { IfOk result (EndsAfter machine.new.state.turn) }
    ensures on { OnOk result (machine.old.state.turn < machine.new.state.turn) }
    ensures way { StaysOnWay script.now machine.old machine.new }
    ensures runs { SearchesTo to watch machine.old machine.new meter.old meter.new }
{
    let turn = machine.turns();
    let quiet = quiet_until(script, turn, to);
    if turn < quiet {
        return search_quiet(machine, words, meter, watch, quiet);
    }
    let looked = look(machine, meter, script.at(turn), watch)?;
    Ok(looked.found)
}

/// Runs the machine, without events, to the end of the first turn that is watched for, or to turn
/// `to`; the meter counts each turn. Returns the turn that is watched for.
///
/// Err if a turn's room was refused; the machine is then in the state of the turn that it came to.
fn search_quiet(
    machine: &mut PagedMachine,
    words: &WordTable,
    meter: &mut Meter,
    watch: Watchpoint,
    to: u32,
) -> Result<Option<u32>, NoMemory>
    requires forward { machine.old.state.turn < to }
    requires limit { to ≤ LAST_TURN }
    requires inside { IsInside watch machine.old }
    ensures found { IfOk result (IsFirstQuietly to watch machine.old machine.new) }
    ensures ends { IfOk result (EndsAfter machine.new.state.turn) }
    ensures on { OnOk result (machine.old.state.turn < machine.new.state.turn) }
    ensures way { StaysQuietly to machine.old machine.new }
    ensures runs { SearchesTo to watch machine.old machine.new meter.old meter.new }
{
    while machine.turns() < to {
        let found = search_some(machine, words, meter, watch, to)?;
        if found.is_some() {
            return Ok(found);
        }
    }
    Ok(None)
}

/// The same, but only as long as the machine is calm, or else as `search_one_by_one` does.
#[inline(always)]
fn search_some(
    machine: &mut PagedMachine,
    words: &WordTable,
    meter: &mut Meter,
    watch: Watchpoint,
    to: u32,
) -> Result<Option<u32>, NoMemory>
    requires forward { machine.old.state.turn < to }
    requires limit { to ≤ LAST_TURN }
    requires inside { IsInside watch machine.old }
    ensures found { IfOk result (IsFirstQuietly to watch machine.old machine.new) }
    ensures ends { IfOk result (EndsAfter machine.new.state.turn) }
    ensures on { OnOk result (machine.old.state.turn < machine.new.state.turn) }
    ensures way { StaysQuietly to machine.old machine.new }
    ensures runs { SearchesTo to watch machine.old machine.new meter.old meter.new }
{
    if watch.pass(machine, words, meter, to) > 0 {
        return Ok(watch.last_met(machine));
    }
    search_one_by_one(machine, meter, watch, to)
}

/// The same, but looks at turn after turn: at those up to the first that isn't idle, or at all if
/// `Watchpoint::pass` never runs one.
fn search_one_by_one(
    machine: &mut PagedMachine,
    meter: &mut Meter,
    watch: Watchpoint,
    to: u32,
) -> Result<Option<u32>, NoMemory>
    requires forward { machine.old.state.turn < to }
    requires limit { to ≤ LAST_TURN }
    requires inside { IsInside watch machine.old }
    ensures found { IfOk result (IsFirstQuietly to watch machine.old machine.new) }
    ensures ends { IfOk result (EndsAfter machine.new.state.turn) }
    ensures on { OnOk result (machine.old.state.turn < machine.new.state.turn) }
    ensures way { StaysQuietly to machine.old machine.new }
    ensures runs { SearchesTo to watch machine.old machine.new meter.old meter.new }
{
    match watch {
        // The compiler makes a loop for conditions alone, which doesn't ask the kind in each turn.
        Watchpoint::Act(Sought::Where { conditions }) => {
            let watch = Watchpoint::Act(Sought::Where { conditions });
            look_on(machine, meter, watch, to)
        }
        _ => look_on(machine, meter, watch, to),
    }
}

/// The loop of `search_one_by_one`.
#[inline(always)]
fn look_on(
    machine: &mut PagedMachine,
    meter: &mut Meter,
    watch: Watchpoint,
    to: u32,
) -> Result<Option<u32>, NoMemory>
    requires forward { machine.old.state.turn < to }
    requires limit { to ≤ LAST_TURN }
    requires inside { IsInside watch machine.old }
    ensures found { IfOk result (IsFirstQuietly to watch machine.old machine.new) }
    ensures ends { IfOk result (EndsAfter machine.new.state.turn) }
    ensures on { OnOk result (machine.old.state.turn < machine.new.state.turn) }
    ensures way { StaysQuietly to machine.old machine.new }
    ensures runs { SearchesTo to watch machine.old machine.new meter.old meter.new }
{
    let stepped = watch.is_stepped();
    while machine.turns() < to {
        let looked = look(machine, meter, &[], watch)?;
        if looked.is_last(stepped) {
            return Ok(looked.found);
        }
    }
    Ok(None)
}

/// A turn that was looked at: its act, and its number if it is watched for.
#[derive(Clone, Copy)]
struct Looked {
    act: Act,
    found: Option<u32>,
}

impl Looked {
    /// Whether the turns that are looked at one by one end with this one: it is watched for; or it
    /// isn't idle, and not each turn is looked at (`stepped`).
    #[inline(always)]
    fn is_last(self, stepped: bool) -> bool
        ensures { result ≡ false → self.found ≡ None }
    {
        match self.act {
            Act::Idle => self.found.is_some(),
            Act::Instr | Act::Trace | Act::Stack | Act::Irq(_) => !stepped || self.found.is_some(),
        }
    }
}

/// Runs the machine through its next turn, with these events; the meter counts it.
///
/// Err if the turn's room was refused; the machine is then as it was.
#[inline(always)]
fn look(
    machine: &mut PagedMachine,
    meter: &mut Meter,
    events: &[Event],
    watch: Watchpoint,
) -> Result<Looked, NoMemory>
    requires limit { machine.old.state.turn < LAST_TURN }
    requires inside { IsInside watch machine.old }
    ensures found { IfOk result
        (λ looked. IsFirstWith events.now watch machine.old machine.new looked.found) }
    ensures ends { IfOk result (λ looked. EndsAfter machine.new.state.turn looked.found) }
    ensures on { OnOk result (machine.new.state.turn ≡ machine.old.state.turn + 1) }
    ensures same { OnErr result (machine.new.state.turn ≡ machine.old.state.turn) }
    ensures way { StaysWith events.now machine.old machine.new }
    ensures runs { SearchesTo (machine.old.state.turn + 1) watch machine.old machine.new
        meter.old meter.new }
{
    machine.ready()?;
    let turn = machine.turns();
    let possible = watch.is_possible(machine);
    let told = watch.turn(machine, meter, events);
    let found = turn_if(turn, watch.is_met(possible, turn, told, machine));
    Ok(Looked {
        act: told.act,
        found,
    })
}
