ghost use Rattle.std.specs.Prelude.{◌≡◌, ◌+◌, ◌-◌, ◌<◌, ◌≤◌, length, None};
ghost use Rattle.pdp_cpu.specs.Meters.{Counts};
ghost use Rattle.pdp_cpu.specs.Turns.CalmTurns.{after_calm_turns};
ghost use Rattle.pdp_replay.specs.Ask.Searches.{or_turn};
ghost use Rattle.pdp_replay.specs.Ask.Watches.{bytes_of, is_met, is_met_last, is_of_turn};
ghost use Rattle.pdp_cpu.specs.Handbook.MachineState.{IsReady};
ghost use Rattle.pdp_cpu.specs.Turns.TurnRun.{RunsTurn};
ghost use Rattle.pdp_replay.specs.Ask.SoughtTurns.{act_with_trap};
ghost use Rattle.pdp_replay.specs.Ask.Watches.{is_act_watched, is_possible, is_stepped};
ghost use Rattle.pdp_replay.specs.Ask.Watches.{IsInside, PassesTo};
ghost use Rattle.pdp_replay.specs.Run.States.{disk_of};
ghost use Rattle.pdp_replay.specs.declared.ask.watch.Watchpoint.TheVariants.{Change, Output};

use crate::ask::{Sought, TextKind};
use pdp_cpu::{ActWithTrap, Meter, PagedMachine, WordTable};
use pdp_store::Stamp;
use pdp_unibus::{Event, LAST_TURN};

/// What a search watches for, turn by turn.
#[derive(Clone, Copy)]
pub(crate) enum Watchpoint {
    /// A turn that begins with what is sought.
    Act(Sought),
    /// A turn that writes the core word of this number (half its byte address).
    Write {
        number: usize,
    },
    /// A turn after which more than this many bytes of a text came out.
    Output {
        kind: TextKind,
        number: u32,
    },
    /// A turn after which the word of this number of a drive isn't this one.
    Change {
        drive: usize,
        number: usize,
        word: u16,
    },
}

impl Watchpoint {
    /// Whether the next turn of the machine can be watched for, by what the machine is before it.
    #[inline(always)]
    pub(crate) fn is_possible(self, before: &PagedMachine) -> bool
        ensures { result ≡ is_possible self before.now }
    {
        match self {
            Watchpoint::Act(sought) => sought.is_met_by(before),
            Watchpoint::Write { .. } | Watchpoint::Output { .. } | Watchpoint::Change { .. } =>
                true,
        }
    }

    /// Runs the next turn of the machine with these events; the meter counts it. Returns its act,
    /// with its trap only where a search is for one: to tell it takes longer.
    #[inline(always)]
    pub(crate) fn turn(
        self,
        machine: &mut PagedMachine,
        meter: &mut Meter,
        events: &[Event],
    ) -> ActWithTrap
        requires ready { IsReady machine.old }
        requires limit { machine.old.state.turn < LAST_TURN }
        ensures told { is_act_watched self result ≡ is_act_watched self
            (act_with_trap machine.old.state.turn events.now machine.old.state.world) }
        ensures runs { RunsTurn events.now machine.old machine.new meter.old meter.new }
    {
        match self {
            Watchpoint::Act(Sought::Trap { .. }) => machine.turn_and_tell(meter, events),
            _ => ActWithTrap {
                act: machine.turn(meter, events),
                trap: None,
            },
        }
    }

    /// Whether this turn is watched for, which could be or couldn't (`is_possible`), had this act,
    /// and left this machine.
    #[inline(always)]
    pub(crate) fn is_met(
        self,
        possible: bool,
        turn: u32,
        told: ActWithTrap,
        now: &PagedMachine,
    ) -> bool
        requires inside { IsInside self now.now }
        ensures { result ≡ is_met self possible turn told now.now }
    {
        match self {
            Watchpoint::Act(sought) => possible && sought.is_for(told),
            Watchpoint::Write { number } => is_of_turn(turn, now.last(number)),
            Watchpoint::Output { kind, number } => count_out(kind, now) > number as usize,
            Watchpoint::Change {
                drive,
                number,
                word,
            } => word != now.disk_word(drive, number),
        }
    }

    /// Runs turns without events as long as the machine is calm, and before turn `to`; the meter
    /// counts them. Returns how many were run, which may be none. None of them is watched for, but
    /// maybe the last (`last_met`).
    #[inline(always)]
    pub(crate) fn pass(
        self,
        machine: &mut PagedMachine,
        words: &WordTable,
        meter: &mut Meter,
        to: u32,
    ) -> u32
        requires inside { IsInside self machine.old }
        ensures turns { machine.new ≡ after_calm_turns result machine.old }
        ensures turn { machine.new.state.turn ≡ machine.old.state.turn + result }
        ensures most { 0 < result → machine.new.state.turn ≤ to }
        ensures none { PassesTo self result machine.old }
        ensures counted { Counts result meter.old meter.new }
    {
        match self {
            Watchpoint::Act(sought) => sought.pass(machine, words, meter, to),
            Watchpoint::Write { number } => machine.run_calmly_to_write(words, meter, to, number),
            Watchpoint::Output { kind, number } => pass_output(
                machine, words, meter, to, kind, number,
            ),
            Watchpoint::Change {
                drive,
                number,
                word,
            } => pass_unchanged(machine, words, meter, to, drive, number, word),
        }
    }

    /// Whether a search looks at each turn, since `pass` never runs one.
    pub(crate) fn is_stepped(self) -> bool
        ensures { result ≡ is_stepped self }
    {
        match self {
            Watchpoint::Act(sought) => sought.is_stepped(),
            Watchpoint::Write { .. } | Watchpoint::Output { .. } | Watchpoint::Change { .. } =>
                false,
        }
    }

    /// The last turn, if it is watched for, of a machine that ran turns only by `pass`.
    #[inline(always)]
    pub(crate) fn last_met(self, now: &PagedMachine) -> Option<u32>
        requires inside { IsInside self now.now }
        requires some { 0 < now.now.state.turn }
        ensures { result ≡ or_turn None (is_met_last self (now.now.state.turn - 1) now.now)
            (now.now.state.turn - 1) }
    {
        match self {
            Watchpoint::Write { number } => {
                let turn = now.turns() - 1;
                turn_if(turn, is_of_turn(turn, now.last(number)))
            }
            Watchpoint::Act(_) | Watchpoint::Output { .. } | Watchpoint::Change { .. } => None,
        }
    }
}

/// `Watchpoint::pass` for a turn after which more than `number` bytes of a text came out: none is
/// run if they did before.
fn pass_output(
    machine: &mut PagedMachine,
    words: &WordTable,
    meter: &mut Meter,
    to: u32,
    kind: TextKind,
    number: u32,
) -> u32
    ensures turns { machine.new ≡ after_calm_turns result machine.old }
    ensures turn { machine.new.state.turn ≡ machine.old.state.turn + result }
    ensures most { 0 < result → machine.new.state.turn ≤ to }
    ensures none { PassesTo (Output kind number) result machine.old }
    ensures counted { Counts result meter.old meter.new }
{
    // This read gives the prover the range of the count.
    let _count = meter.count();
    if count_out(kind, machine) > number as usize {
        return 0;
    }
    machine.run_calmly(words, meter, to)
}

/// `Watchpoint::pass` for a turn after which the word of this number of a drive isn't `word`: none
/// is run if it isn't before.
fn pass_unchanged(
    machine: &mut PagedMachine,
    words: &WordTable,
    meter: &mut Meter,
    to: u32,
    drive: usize,
    number: usize,
    word: u16,
) -> u32
    requires inside { number < length (disk_of machine.old.state.world drive) }
    ensures turns { machine.new ≡ after_calm_turns result machine.old }
    ensures turn { machine.new.state.turn ≡ machine.old.state.turn + result }
    ensures most { 0 < result → machine.new.state.turn ≤ to }
    ensures none { PassesTo (Change drive number word) result machine.old }
    ensures counted { Counts result meter.old meter.new }
{
    // This read gives the prover the range of the count.
    let _count = meter.count();
    if word != machine.disk_word(drive, number) {
        return 0;
    }
    machine.run_calmly(words, meter, to)
}

/// How many bytes of this kind came out of the machine since power-up.
#[inline(always)]
fn count_out(kind: TextKind, machine: &PagedMachine) -> usize
    ensures { result ≡ length (bytes_of kind machine.now.state) }
{
    match kind {
        TextKind::Printed => machine.text().len(),
        TextKind::Punched => machine.punched().len(),
    }
}

/// Whether a stamp is of this turn.
#[inline(always)]
fn is_of_turn(turn: u32, stamp: Option<Stamp>) -> bool
    ensures { result ≡ is_of_turn turn stamp }
{
    match stamp {
        Some(stamp) => stamp.turn == turn,
        None => false,
    }
}

/// This turn, if it is watched for.
#[inline(always)]
pub(crate) fn turn_if(turn: u32, is_watched: bool) -> Option<u32>
    ensures { result ≡ or_turn None is_watched turn }
{
    if is_watched { Some(turn) } else { None }
}
