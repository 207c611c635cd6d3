//! Conditions on a register, which a burst tests before each turn.

ghost use Rattle.std.specs.Prelude.{◌≡◌};
ghost use Rattle.pdp_operand.specs.Handbook.Processor.{processor_at, register_of};
ghost use Rattle.pdp_replay.specs.Ask.RegisterTests.{all_stepped, is_stepped_if_there};
ghost use Rattle.pdp_replay.specs.Ask.RegisterTests.{register_of_quantity};
ghost use Rattle.pdp_replay.specs.Ask.RegisterTests.{test_of, test_with, unmet_register};
ghost use Rattle.pdp_replay.specs.Ask.RegisterTests.{unmet_test_if_there, word_passes};

use crate::ask::turn_condition::{Comparand, Quantity, Relation, TurnCondition, TurnConditions};
use pdp_cpu::{BurstEnd, Computer, PagedMachine};
use pdp_operand::{Processor, RegisterId};
use pdp_store::Store;

/// What a condition asks of a word.
#[derive(Clone, Copy)]
pub(crate) enum WordTest {
    /// It is in this relation to another one.
    Related { relation: Relation, word: u16 },
    /// In the bits of the mask alone it is this word.
    Masked { mask: u16, word: u16 },
}

/// A condition on one register. It ends a burst before a turn that meets it.
#[derive(Clone, Copy)]
pub(crate) struct RegisterTest {
    register: RegisterId,
    test: WordTest,
}

impl WordTest {
    /// Whether a word is as the condition asks.
    #[inline(always)]
    fn passes(self, now: u16) -> bool
        ensures { result ≡ word_passes self now }
    {
        match self {
            WordTest::Related { relation, word } => relation.holds(now, word),
            WordTest::Masked { mask, word } => now & mask == word,
        }
    }
}

impl BurstEnd for RegisterTest {
    ghost use Rattle.std.specs.Prelude.{◌≡◌, false};
    ghost use Rattle.pdp_replay.specs.Ask.RegisterTests.{is_test_met};

    ghost Passes = { λ e w. is_test_met e w ≡ false };

    ghost Fits = { λ _ _. Unit {0} };

    #[inline(always)]
    fn passes<S: Store, D: Store>(&self, computer: &Computer<S, D>, counter: u16) -> bool {
        !self
            .test
            .passes(word_apart(&computer.processor, counter, self.register))
    }
}

/// The word in a register of a processor whose PC is kept apart.
#[inline(always)]
#[tactic(auto, unfolding(pdp_operand::specs::register_of))]
fn word_apart(processor: &Processor, counter: u16, register: RegisterId) -> u16
    ensures { result ≡ register_of (processor_at processor.now counter) register }
{
    match register {
        RegisterId::ProgramCounter => counter,
        RegisterId::R0
        | RegisterId::R1
        | RegisterId::R2
        | RegisterId::R3
        | RegisterId::R4
        | RegisterId::R5
        | RegisterId::KernelStack
        | RegisterId::UserStack => processor.register(register),
    }
}

impl Quantity {
    /// The register that the quantity is in each state, if it is one.
    fn register(self) -> Option<RegisterId>
        ensures { result ≡ register_of_quantity self }
    {
        match self {
            Quantity::R0 => Some(RegisterId::R0),
            Quantity::R1 => Some(RegisterId::R1),
            Quantity::R2 => Some(RegisterId::R2),
            Quantity::R3 => Some(RegisterId::R3),
            Quantity::R4 => Some(RegisterId::R4),
            Quantity::R5 => Some(RegisterId::R5),
            Quantity::KernelStack => Some(RegisterId::KernelStack),
            Quantity::UserStack => Some(RegisterId::UserStack),
            Quantity::ProgramCounter => Some(RegisterId::ProgramCounter),
            Quantity::Stack | Quantity::ProgramStatus | Quantity::CoreWord { .. } => None,
        }
    }
}

/// A test of the register, if there is one.
fn test_with(test: WordTest, register: Option<RegisterId>) -> Option<RegisterTest>
    ensures { result ≡ test_with test register }
{
    match register {
        Some(register) => Some(RegisterTest { register, test }),
        None => None,
    }
}

/// The test of a register that the condition is, if it is one.
fn test_of(condition: TurnCondition) -> Option<RegisterTest>
    ensures { result ≡ test_of condition }
{
    match condition {
        TurnCondition::Compared {
            quantity,
            relation,
            comparand: Comparand::Number(word),
        } => test_with(WordTest::Related { relation, word }, quantity.register()),
        TurnCondition::Masked {
            quantity,
            mask,
            word,
        } => test_with(WordTest::Masked { mask, word }, quantity.register()),
        TurnCondition::Compared {
            comparand: Comparand::Other(_),
            ..
        }
        | TurnCondition::At { .. }
        | TurnCondition::InMode(_) => None,
    }
}

/// The test of a register that a condition is, if there is one and the machine before a turn
/// doesn't meet it.
fn unmet_test_if_there(
    condition: Option<TurnCondition>,
    machine: &PagedMachine,
) -> Option<RegisterTest>
    ensures { result ≡ unmet_test_if_there condition machine.now.state.world }
{
    let condition = condition?;
    if condition.is_met_by(machine) {
        None
    } else {
        test_of(condition)
    }
}

/// The first of these conditions that is on a register, and that the machine before a turn doesn't
/// meet. Until the register passes the test, no turn meets all of them.
#[tactic(auto, unfolding(crate::specs::Ask::RegisterTests::unmet_register))]
pub(crate) fn unmet_register(
    conditions: TurnConditions,
    machine: &PagedMachine,
) -> Option<RegisterTest>
    ensures { result ≡ unmet_register conditions machine.now.state.world }
{
    let [first, second, third, fourth] = conditions;
    unmet_test_if_there(first, machine)
        .or(unmet_test_if_there(second, machine))
        .or(unmet_test_if_there(third, machine))
        .or(unmet_test_if_there(fourth, machine))
}

/// Whether a search for these conditions looks at each turn: none is on the address of an
/// instruction, on a word of core or on a register.
pub(crate) fn are_stepped(conditions: TurnConditions) -> bool
    ensures { result ≡ all_stepped conditions }
{
    let [first, second, third, fourth] = conditions;
    is_stepped_if_there(first)
        && is_stepped_if_there(second)
        && is_stepped_if_there(third)
        && is_stepped_if_there(fourth)
}

/// Whether a condition, if there is one, is on neither the address of an instruction nor a word of
/// core nor a register.
fn is_stepped_if_there(condition: Option<TurnCondition>) -> bool
    ensures { result ≡ is_stepped_if_there condition }
{
    match condition {
        Some(TurnCondition::At { .. }) => false,
        Some(condition) => condition.word().is_none() && test_of(condition).is_none(),
        None => true,
    }
}
