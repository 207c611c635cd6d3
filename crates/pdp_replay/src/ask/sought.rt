ghost use Rattle.std.specs.Prelude.{◌≡◌, ◌+◌, ◌<◌, ◌≤◌};
ghost use Rattle.pdp_cpu.specs.Meters.{Counts};
ghost use Rattle.pdp_cpu.specs.Turns.CalmTurns.{after_calm_turns};
ghost use Rattle.pdp_replay.specs.Past.Setup.{SetupData};
ghost use Rattle.pdp_replay.specs.Ask.SoughtTurns.{is_act_sought, is_interrupt, is_mode};
ghost use Rattle.pdp_replay.specs.Ask.SoughtTurns.{is_pending_trap, is_sought_by_step};
ghost use Rattle.pdp_replay.specs.Ask.SoughtTurns.{is_state_sought, is_trap_through};
ghost use Rattle.pdp_replay.specs.Ask.SoughtTurns.{sought_checked, NoneIsSought};
ghost use Rattle.pdp_replay.specs.Ask.TurnConditions.{is_instruction, AreUnmet};

use crate::ask::register_test::{are_stepped, unmet_register};
use crate::ask::turn_condition::{
    TurnConditions, address_of, are_for, are_met_by, check_conditions, unmet_word,
};
use pdp_cpu::{Act, ActWithTrap, Meter, Mode, PagedMachine, WordTable};
use pdp_script::Fault;

/// What a search looks for: an act by which a turn begins, or conditions [P].
#[derive(Clone, Copy)]
pub enum Sought {
    /// An instruction with PC at this address (octal, bytes) before it, in this mode of the
    /// processor if one is given. If PC is there before an interrupt, a pending trap or an idle
    /// turn, that turn isn't one.
    Instruction { address: u16, mode: Option<Mode> },
    /// The interrupt through this vector (octal, bytes).
    Interrupt { vector: u16 },
    /// A trap that was pending: the trace trap (through 14, octal) or the stack trap (through 4).
    /// A trap of an instruction, such as EMT or an odd address, belongs to its instruction and
    /// isn't one.
    PendingTrap,
    /// A trap through this vector (octal, bytes): one of the turn's own instruction or of its
    /// fetch, such as EMT (30) or an odd address (4), the trace trap (14), or the stack trap (4).
    /// If the sequence of the trap becomes the red one, through 4, its own vector counts.
    Trap { vector: u16 },
    /// A turn that meets all of these conditions.
    Where { conditions: TurnConditions },
}

impl Sought {
    /// Whether what is sought can be sought in a run with `units` units of core.
    ///
    /// Err as `check_conditions` has it.
    pub(crate) fn check(self, units: u8) -> Result<(), Fault>
        ensures refusal { (s : SetupData) → s.units ≡ units → sought_checked self s ≡ result }
    {
        match self {
            Sought::Where { conditions } => check_conditions(conditions, units),
            Sought::Instruction { .. }
            | Sought::Interrupt { .. }
            | Sought::PendingTrap
            | Sought::Trap { .. } => Ok(()),
        }
    }

    /// Whether the machine before a turn is as what is sought asks; the turn's act isn't looked at.
    #[inline(always)]
    pub(crate) fn is_met_by(self, machine: &PagedMachine) -> bool
        ensures { result ≡ is_state_sought self machine.now.state.world }
    {
        match self {
            Sought::Instruction { address, mode } => {
                machine.pc() == address && is_mode(mode, machine.mode())
            }
            Sought::Interrupt { .. } | Sought::PendingTrap | Sought::Trap { .. } => true,
            Sought::Where { conditions } => are_met_by(conditions, machine),
        }
    }

    /// Whether the act of a turn is as what is sought asks.
    #[inline(always)]
    pub(crate) fn is_for(self, told: ActWithTrap) -> bool
        ensures { result ≡ is_act_sought self told }
    {
        match self {
            Sought::Instruction { .. } => is_instruction(told.act),
            Sought::Interrupt { vector } => is_interrupt(vector, told.act),
            Sought::PendingTrap => is_pending_trap(told.act),
            Sought::Trap { vector } => is_trap_through(vector, told.trap),
            Sought::Where { conditions } => are_for(conditions, told.act),
        }
    }

    /// Whether a search looks at each turn, since `pass` never runs one.
    pub(crate) fn is_stepped(self) -> bool
        ensures { result ≡ is_sought_by_step self }
    {
        match self {
            Sought::Trap { .. } => true,
            Sought::Where { conditions } => are_stepped(conditions),
            Sought::Instruction { .. } | Sought::Interrupt { .. } | Sought::PendingTrap => false,
        }
    }

    /// Runs turns without events that aren't sought, as long as the machine is calm, and before
    /// turn `to`; the meter counts them. Returns how many were run, which may be none.
    #[inline(always)]
    pub(crate) fn pass(
        self,
        machine: &mut PagedMachine,
        words: &WordTable,
        meter: &mut Meter,
        to: u32,
    ) -> u32
        ensures turns { machine.new ≡ after_calm_turns result machine.old }
        ensures turn { machine.new.state.turn ≡ machine.old.state.turn + result }
        ensures most { 0 < result → machine.new.state.turn ≤ to }
        ensures none { NoneIsSought self result machine.old }
        ensures counted { Counts result meter.old meter.new }
    {
        match self {
            Sought::Instruction { address, .. } => {
                machine.run_calmly_before(words, meter, to, address)
            }
            Sought::Interrupt { .. } => machine.run_calmly(words, meter, to),
            Sought::PendingTrap => machine.run_calmly(words, meter, to),
            // An instruction may come to a trap, so each turn is looked at.
            Sought::Trap { .. } => pass_none(meter),
            Sought::Where { conditions } => pass_unmet(conditions, machine, words, meter, to),
        }
    }
}

/// `Sought::pass` for conditions: with one on the address of an instruction, turns that begin with
/// PC elsewhere; otherwise, with one on a word of core that isn't met, turns up to the first that
/// writes the word; otherwise, with one on a register that isn't met, turns before which it isn't;
/// otherwise none.
fn pass_unmet(
    conditions: TurnConditions,
    machine: &mut PagedMachine,
    words: &WordTable,
    meter: &mut Meter,
    to: u32,
) -> u32
    ensures turns { machine.new ≡ after_calm_turns result machine.old }
    ensures turn { machine.new.state.turn ≡ machine.old.state.turn + result }
    ensures most { 0 < result → machine.new.state.turn ≤ to }
    ensures none { AreUnmet conditions result machine.old }
    ensures counted { Counts result meter.old meter.new }
{
    match address_of(conditions) {
        Some(address) => machine.run_calmly_before(words, meter, to, address),
        None => pass_same_word(conditions, machine, words, meter, to),
    }
}

/// `Sought::pass` for conditions of which none is on the address of an instruction.
fn pass_same_word(
    conditions: TurnConditions,
    machine: &mut PagedMachine,
    words: &WordTable,
    meter: &mut Meter,
    to: u32,
) -> u32
    ensures turns { machine.new ≡ after_calm_turns result machine.old }
    ensures turn { machine.new.state.turn ≡ machine.old.state.turn + result }
    ensures most { 0 < result → machine.new.state.turn ≤ to }
    ensures none { AreUnmet conditions result machine.old }
    ensures counted { Counts result meter.old meter.new }
{
    let Some(number) = unmet_word(conditions, machine) else {
        return pass_unmet_register(conditions, machine, words, meter, to);
    };
    if number >= machine.core_len() {
        return pass_none(meter);
    }
    machine.run_calmly_to_write(words, meter, to, number)
}

/// `Sought::pass` for conditions of which none is on the address of an instruction, or on a word of
/// core and isn't met.
fn pass_unmet_register(
    conditions: TurnConditions,
    machine: &mut PagedMachine,
    words: &WordTable,
    meter: &mut Meter,
    to: u32,
) -> u32
    ensures turns { machine.new ≡ after_calm_turns result machine.old }
    ensures turn { machine.new.state.turn ≡ machine.old.state.turn + result }
    ensures most { 0 < result → machine.new.state.turn ≤ to }
    ensures none { AreUnmet conditions result machine.old }
    ensures counted { Counts result meter.old meter.new }
{
    match unmet_register(conditions, machine) {
        Some(test) => machine.run_calmly_while(words, meter, to, &test),
        None => pass_none(meter),
    }
}

/// Runs no turn.
fn pass_none(meter: &Meter) -> u32
    ensures none { result ≡ 0 }
    ensures counted { Counts 0 meter.now meter.now }
{
    // This read gives the prover the range of the count.
    let _count = meter.count();
    0
}

/// Whether the act is an instruction.
#[inline(always)]
pub(crate) fn is_instruction(act: Act) -> bool
    ensures { result ≡ is_instruction act }
{
    match act {
        Act::Instr => true,
        Act::Trace | Act::Stack | Act::Irq(_) | Act::Idle => false,
    }
}

/// Whether the act is the interrupt through this vector (octal, bytes).
#[inline(always)]
fn is_interrupt(vector: u16, act: Act) -> bool
    ensures { result ≡ is_interrupt vector act }
{
    match act {
        Act::Irq(through) => through == vector,
        Act::Instr | Act::Trace | Act::Stack | Act::Idle => false,
    }
}

/// Whether a trap that a turn has is through this vector (octal, bytes).
#[inline(always)]
fn is_trap_through(vector: u16, trap: Option<u16>) -> bool
    ensures { result ≡ is_trap_through vector trap }
{
    match trap {
        Some(through) => through == vector,
        None => false,
    }
}

/// Whether the act is a trap that was pending.
#[inline(always)]
fn is_pending_trap(act: Act) -> bool
    ensures { result ≡ is_pending_trap act }
{
    match act {
        Act::Trace | Act::Stack => true,
        Act::Instr | Act::Irq(_) | Act::Idle => false,
    }
}

/// Whether a mode is the one that is asked for, if one is.
#[inline(always)]
pub(crate) fn is_mode(asked: Option<Mode>, mode: Mode) -> bool
    ensures { result ≡ is_mode asked mode }
{
    match asked {
        Some(asked) => asked.bits() == mode.bits(),
        None => true,
    }
}
