//! Conditions on a turn: on the state of the machine before it, and on its act.

ghost use Rattle.std.specs.Prelude.{◌≡◌, Some};
ghost use Rattle.pdp_replay.specs.Past.Setup.{SetupData};
ghost use Rattle.pdp_replay.specs.Ask.Writes.{then_checked};
ghost use Rattle.pdp_replay.specs.Ask.TurnConditions.{address_asked, address_if_there, all_fit};
ghost use Rattle.pdp_replay.specs.Ask.TurnConditions.{all_met_in, are_related};
ghost use Rattle.pdp_replay.specs.Ask.TurnConditions.{checked_if_there, comparand_checked};
ghost use Rattle.pdp_replay.specs.Ask.TurnConditions.{comparand_in, condition_checked};
ghost use Rattle.pdp_replay.specs.Ask.TurnConditions.{conditions_checked, fits};
ghost use Rattle.pdp_replay.specs.Ask.TurnConditions.{fits_if_there, is_met_if_there, is_met_in};
ghost use Rattle.pdp_replay.specs.Ask.TurnConditions.{is_related};
ghost use Rattle.pdp_replay.specs.Ask.TurnConditions.{quantity_checked, quantity_in};
ghost use Rattle.pdp_replay.specs.Ask.TurnConditions.{unmet_word, unmet_word_if_there};
ghost use Rattle.pdp_replay.specs.Ask.TurnConditions.{word_compared, word_of_condition};
ghost use Rattle.pdp_replay.specs.Ask.TurnConditions.{word_of_quantity};

use crate::ask::sought::is_instruction;
use crate::past::core_word;
use pdp_cpu::{Act, Mode, PagedMachine};
use pdp_script::Fault;

/// The most conditions that a search can have.
pub const MOST_CONDITIONS: usize = 4;

/// The conditions of a search, all of which a turn meets that is sought.
pub type TurnConditions = [Option<TurnCondition>; MOST_CONDITIONS];

/// A condition on a turn [P].
#[derive(Clone, Copy)]
pub enum TurnCondition {
    /// Before the turn the quantity is in this relation to the comparand.
    Compared {
        quantity: Quantity,
        relation: Relation,
        comparand: Comparand,
    },
    /// Before the turn the quantity, in the bits of the mask alone, is the word.
    Masked {
        quantity: Quantity,
        mask: u16,
        word: u16,
    },
    /// The turn's act is an instruction with PC at this address (octal, bytes) before it.
    At {
        address: u16,
    },
    /// The processor is in this mode before the turn.
    InMode(Mode),
}

/// A word of the machine that a condition looks at.
///
/// DEC PDP-11/40 Processor Handbook (1972), General registers and Processor status word.
#[derive(Clone, Copy)]
pub enum Quantity {
    R0,
    R1,
    R2,
    R3,
    R4,
    R5,
    /// R6 of kernel mode.
    KernelStack,
    /// R6 of user mode.
    UserStack,
    /// R6 of the mode that the processor is in: of kernel mode that of kernel mode, of the other
    /// modes that of user mode.
    Stack,
    ProgramCounter,
    /// The program status word.
    ProgramStatus,
    /// The word of core at this address (octal, bytes, even).
    CoreWord { address: u32 },
}

/// What a condition compares a quantity with.
#[derive(Clone, Copy)]
pub enum Comparand {
    /// This word.
    Number(u16),
    /// Another quantity of the same machine, before the same turn.
    Other(Quantity),
}

/// How a condition compares two words, as whole numbers without sign.
#[derive(Clone, Copy)]
pub enum Relation {
    Equal,
    Unequal,
    /// The first is less than the second.
    Below,
    /// The first is greater than the second.
    Above,
}

impl Relation {
    /// Whether two words are in this relation.
    pub(crate) fn holds(self, first: u16, second: u16) -> bool
        ensures { result ≡ is_related self first second }
    {
        match self {
            Relation::Equal => first == second,
            Relation::Unequal => first != second,
            Relation::Below => first < second,
            Relation::Above => second < first,
        }
    }
}

/// Whether two words are there, and in this relation.
fn are_related(relation: Relation, first: Option<u16>, second: Option<u16>) -> bool
    ensures { result ≡ are_related relation first second }
{
    match first {
        Some(first) => match second {
            Some(second) => relation.holds(first, second),
            None => false,
        },
        None => false,
    }
}

/// R6 of the mode that the machine is in.
fn stack_pointer(machine: &PagedMachine) -> u16
    ensures { Some result ≡ quantity_in Quantity.Stack machine.now.state.world }
{
    let regs = machine.regs();
    match machine.mode() {
        Mode::Kernel => regs.ksp,
        Mode::User | Mode::Bad1 | Mode::Bad2 => regs.usp,
    }
}

/// The word of core at an address; None past the end of core.
fn core_word_before(machine: &PagedMachine, address: u32) -> Option<u16>
    ensures { result ≡ quantity_in (Quantity.CoreWord address) machine.now.state.world }
{
    let number = (address / 2) as usize;
    if number < machine.core_len() {
        Some(machine.word(number))
    } else {
        None
    }
}

impl Quantity {
    /// The word of the quantity; None for a word past the end of core.
    fn read(self, machine: &PagedMachine) -> Option<u16>
        ensures { result ≡ quantity_in self machine.now.state.world }
    {
        let regs = machine.regs();
        let [r0, r1, r2, r3, r4, r5] = regs.r;
        match self {
            Quantity::R0 => Some(r0),
            Quantity::R1 => Some(r1),
            Quantity::R2 => Some(r2),
            Quantity::R3 => Some(r3),
            Quantity::R4 => Some(r4),
            Quantity::R5 => Some(r5),
            Quantity::KernelStack => Some(regs.ksp),
            Quantity::UserStack => Some(regs.usp),
            Quantity::Stack => Some(stack_pointer(machine)),
            Quantity::ProgramCounter => Some(regs.pc),
            Quantity::ProgramStatus => Some(regs.ps),
            Quantity::CoreWord { address } => core_word_before(machine, address),
        }
    }

    /// The number of the core word that the quantity is, if it is one.
    fn word(self) -> Option<usize>
        ensures { result ≡ word_of_quantity self }
    {
        match self {
            Quantity::CoreWord { address } => Some((address / 2) as usize),
            _ => None,
        }
    }

    /// Whether the quantity is there in a run with `units` units of core.
    ///
    /// Err(OutsideCore) if it is a word that is not in core; else Err(OddAddress) if its address is
    /// odd.
    fn check(self, units: u8) -> Result<(), Fault>
        ensures refusal { (s : SetupData) → s.units ≡ units → quantity_checked self s ≡ result }
    {
        match self {
            Quantity::CoreWord { address } => {
                core_word(units, address)?;
                Ok(())
            }
            _ => Ok(()),
        }
    }
}

impl Comparand {
    /// The word that a quantity is compared with; None for a word past the end of core.
    fn read(self, machine: &PagedMachine) -> Option<u16>
        ensures { result ≡ comparand_in self machine.now.state.world }
    {
        match self {
            Comparand::Number(word) => Some(word),
            Comparand::Other(quantity) => quantity.read(machine),
        }
    }

    /// Whether it is there in a run with `units` units of core.
    ///
    /// Err as `Quantity::check` has it.
    fn check(self, units: u8) -> Result<(), Fault>
        ensures refusal { (s : SetupData) → s.units ≡ units → comparand_checked self s ≡ result }
    {
        match self {
            Comparand::Number(_) => Ok(()),
            Comparand::Other(quantity) => quantity.check(units),
        }
    }
}

/// The number of the core word that a comparison with this comparand is on, if it is on one.
fn word_compared(quantity: Quantity, comparand: Comparand) -> Option<usize>
    ensures { result ≡ word_compared comparand quantity }
{
    match comparand {
        Comparand::Number(_) => quantity.word(),
        Comparand::Other(_) => None,
    }
}

/// Whether both sides of a comparison are there in a run with `units` units of core.
///
/// Err, of the first that isn't, as `Quantity::check` has it.
fn check_both(quantity: Quantity, comparand: Comparand, units: u8) -> Result<(), Fault>
    ensures refusal { (s : SetupData) → s.units ≡ units
        → then_checked (quantity_checked quantity s) (comparand_checked comparand s) ≡ result }
{
    quantity.check(units)?;
    comparand.check(units)
}

impl TurnCondition {
    /// The number of the core word that the condition is on, if it is on one: as long as the word
    /// stays, the condition stays met or unmet.
    pub(crate) fn word(self) -> Option<usize>
        ensures { result ≡ word_of_condition self }
    {
        match self {
            TurnCondition::Compared {
                quantity,
                comparand,
                ..
            } => word_compared(quantity, comparand),
            TurnCondition::Masked { quantity, .. } => quantity.word(),
            TurnCondition::At { .. } | TurnCondition::InMode(_) => None,
        }
    }

    /// Whether the machine before a turn meets the condition; the turn's act isn't looked at.
    pub(crate) fn is_met_by(self, machine: &PagedMachine) -> bool
        ensures { result ≡ is_met_in self machine.now.state.world }
    {
        match self {
            TurnCondition::Compared {
                quantity,
                relation,
                comparand,
            } => are_related(relation, quantity.read(machine), comparand.read(machine)),
            TurnCondition::Masked {
                quantity,
                mask,
                word,
            } => match quantity.read(machine) {
                Some(now) => now & mask == word,
                None => false,
            },
            TurnCondition::At { address } => machine.pc() == address,
            TurnCondition::InMode(mode) => machine.mode().bits() == mode.bits(),
        }
    }

    /// Whether the condition can be asked of a run with `units` units of core.
    ///
    /// Err as `Quantity::check` has it.
    fn check(self, units: u8) -> Result<(), Fault>
        ensures refusal { (s : SetupData) → s.units ≡ units → condition_checked self s ≡ result }
    {
        match self {
            TurnCondition::Compared {
                quantity,
                comparand,
                ..
            } => check_both(quantity, comparand, units),
            TurnCondition::Masked { quantity, .. } => quantity.check(units),
            TurnCondition::At { .. } | TurnCondition::InMode(_) => Ok(()),
        }
    }

    /// Whether an act is as the condition asks: an instruction, if it is on the address of one.
    fn is_for(self, act: Act) -> bool
        ensures { result ≡ fits self act }
    {
        match self {
            TurnCondition::At { .. } => is_instruction(act),
            TurnCondition::Compared { .. }
            | TurnCondition::Masked { .. }
            | TurnCondition::InMode(_) => true,
        }
    }
}

/// Whether the machine before a turn meets all of these conditions; the turn's act isn't looked at.
#[inline(always)]
pub(crate) fn are_met_by(conditions: TurnConditions, machine: &PagedMachine) -> bool
    ensures { result ≡ all_met_in conditions machine.now.state.world }
{
    let [first, second, third, fourth] = conditions;
    is_met_if_there(first, machine)
        && is_met_if_there(second, machine)
        && is_met_if_there(third, machine)
        && is_met_if_there(fourth, machine)
}

/// Whether the machine before a turn meets a condition, if there is one.
#[inline(always)]
fn is_met_if_there(condition: Option<TurnCondition>, machine: &PagedMachine) -> bool
    ensures { result ≡ is_met_if_there condition machine.now.state.world }
{
    match condition {
        Some(condition) => condition.is_met_by(machine),
        None => true,
    }
}

/// Whether an act is as all of these conditions ask.
#[inline(always)]
pub(crate) fn are_for(conditions: TurnConditions, act: Act) -> bool
    ensures { result ≡ all_fit conditions act }
{
    let [first, second, third, fourth] = conditions;
    fits_if_there(first, act)
        && fits_if_there(second, act)
        && fits_if_there(third, act)
        && fits_if_there(fourth, act)
}

/// Whether an act is as a condition asks, if there is one.
#[inline(always)]
fn fits_if_there(condition: Option<TurnCondition>, act: Act) -> bool
    ensures { result ≡ fits_if_there condition act }
{
    match condition {
        Some(condition) => condition.is_for(act),
        None => true,
    }
}

/// The address of the instruction that the first of these conditions asks for that is on one.
#[tactic(auto, unfolding(crate::specs::Ask::TurnConditions::address_asked))]
pub(crate) fn address_of(conditions: TurnConditions) -> Option<u16>
    ensures { result ≡ address_asked conditions }
{
    let [first, second, third, fourth] = conditions;
    address_if_there(first)
        .or(address_if_there(second))
        .or(address_if_there(third))
        .or(address_if_there(fourth))
}

/// The address of the instruction that a condition asks for, if it is on one.
fn address_if_there(condition: Option<TurnCondition>) -> Option<u16>
    ensures { result ≡ address_if_there condition }
{
    match condition {
        Some(TurnCondition::At { address }) => Some(address),
        _ => None,
    }
}

/// The number of the core word that the first of these conditions is on which the machine before a
/// turn doesn't meet. As long as the word stays, no turn meets all of them.
#[tactic(auto, unfolding(crate::specs::Ask::TurnConditions::unmet_word))]
pub(crate) fn unmet_word(conditions: TurnConditions, machine: &PagedMachine) -> Option<usize>
    ensures { result ≡ unmet_word conditions machine.now.state.world }
{
    let [first, second, third, fourth] = conditions;
    unmet_word_if_there(first, machine)
        .or(unmet_word_if_there(second, machine))
        .or(unmet_word_if_there(third, machine))
        .or(unmet_word_if_there(fourth, machine))
}

/// The number of the core word that a condition is on, if there is one and the machine before a
/// turn doesn't meet it.
fn unmet_word_if_there(condition: Option<TurnCondition>, machine: &PagedMachine) -> Option<usize>
    ensures { result ≡ unmet_word_if_there condition machine.now.state.world }
{
    let condition = condition?;
    let number = condition.word()?;
    if condition.is_met_by(machine) {
        None
    } else {
        Some(number)
    }
}

/// Whether these conditions can be asked of a run with `units` units of core.
///
/// Err, of the first that can't: OutsideCore if it is on a word that is not in core; else
/// OddAddress if the word's address is odd.
#[tactic(auto, unfolding(crate::specs::Ask::TurnConditions::conditions_checked))]
pub(crate) fn check_conditions(conditions: TurnConditions, units: u8) -> Result<(), Fault>
    ensures refusal { (s : SetupData) → s.units ≡ units → conditions_checked conditions s ≡ result }
{
    let [first, second, third, fourth] = conditions;
    check_if_there(first, units)?;
    check_if_there(second, units)?;
    check_if_there(third, units)?;
    check_if_there(fourth, units)
}

/// Whether a condition can be asked, if there is one.
fn check_if_there(condition: Option<TurnCondition>, units: u8) -> Result<(), Fault>
    ensures refusal { (s : SetupData) → s.units ≡ units → checked_if_there condition s ≡ result }
{
    match condition {
        Some(condition) => condition.check(units),
        None => Ok(()),
    }
}
