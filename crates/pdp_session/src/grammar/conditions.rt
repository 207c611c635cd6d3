//! The grammar of the conditions of a search for turns.

ghost use Rattle.std.specs.Prelude.{◌≡◌};
ghost use Rattle.std.specs.Option.{option_map};
ghost use Rattle.pdp_session.specs.Grammar.Conditions.{address_first, and_condition_first};
ghost use Rattle.pdp_session.specs.Grammar.Conditions.{comparand_first, compared_first};
ghost use Rattle.pdp_session.specs.Grammar.Conditions.{comparison_first, condition_first};
ghost use Rattle.pdp_session.specs.Grammar.Conditions.{conditions_named, masked_first};
ghost use Rattle.pdp_session.specs.Grammar.Conditions.{number_first, quantity_first};
ghost use Rattle.pdp_session.specs.Grammar.Conditions.{register_named, relation_named};
ghost use Rattle.pdp_session.specs.Grammar.Words.{words_of_line};

use super::arguments::read_word;
use super::words::next_word;
use pdp_kt11::Mode;
use pdp_replay::{Comparand, Quantity, Relation, TurnCondition, TurnConditions};
use pdp_word::read_octal;

/// A register, by its name.
#[tactic(auto, unfolding(crate::specs::Grammar::Conditions::register_named))]
fn read_register_name(name: &[u8]) -> Option<Quantity>
    ensures { result ≡ register_named name.now }
{
    if name == b"R0".as_slice() {
        Some(Quantity::R0)
    } else if name == b"R1".as_slice() {
        Some(Quantity::R1)
    } else if name == b"R2".as_slice() {
        Some(Quantity::R2)
    } else if name == b"R3".as_slice() {
        Some(Quantity::R3)
    } else if name == b"R4".as_slice() {
        Some(Quantity::R4)
    } else if name == b"R5".as_slice() {
        Some(Quantity::R5)
    } else if name == b"KSP".as_slice() {
        Some(Quantity::KernelStack)
    } else if name == b"USP".as_slice() {
        Some(Quantity::UserStack)
    } else if name == b"SP".as_slice() {
        Some(Quantity::Stack)
    } else if name == b"PC".as_slice() {
        Some(Quantity::ProgramCounter)
    } else if name == b"PS".as_slice() {
        Some(Quantity::ProgramStatus)
    } else {
        None
    }
}

/// A relation, by its sign.
#[tactic(auto, unfolding(crate::specs::Grammar::Conditions::relation_named))]
fn read_relation(name: &[u8]) -> Option<Relation>
    ensures { result ≡ relation_named name.now }
{
    if name == b"=".as_slice() {
        Some(Relation::Equal)
    } else if name == b"!=".as_slice() {
        Some(Relation::Unequal)
    } else if name == b"<".as_slice() {
        Some(Relation::Below)
    } else if name == b">".as_slice() {
        Some(Relation::Above)
    } else {
        None
    }
}

/// `core A` or the name of a register, with the words after it.
#[tactic(auto, unfolding(crate::specs::Grammar::Conditions::quantity_first))]
fn read_quantity(text: &[u8]) -> Option<(Quantity, &[u8])>
    ensures { option_map (λ found. (found.0, words_of_line found.1.now)) result
        ≡ quantity_first (words_of_line text.now) }
{
    let (name, others) = next_word(text)?;
    if name == b"core".as_slice() {
        let (number, after) = next_word(others)?;
        let address = read_octal(number)?;
        return Some((Quantity::CoreWord { address }, after));
    }
    let register = read_register_name(name)?;
    Some((register, others))
}

/// `W`, with the words after it.
fn read_number(text: &[u8]) -> Option<(Comparand, &[u8])>
    ensures { option_map (λ found. (found.0, words_of_line found.1.now)) result
        ≡ number_first (words_of_line text.now) }
{
    let (number, after) = next_word(text)?;
    let word = read_word(number)?;
    Some((Comparand::Number(word), after))
}

/// `W`, or a quantity, with the words after it.
#[tactic(auto, unfolding(crate::specs::Grammar::Conditions::comparand_first))]
fn read_comparand(text: &[u8]) -> Option<(Comparand, &[u8])>
    ensures { option_map (λ found. (found.0, words_of_line found.1.now)) result
        ≡ comparand_first (words_of_line text.now) }
{
    match read_number(text) {
        Some(found) => Some(found),
        None => {
            let (quantity, after) = read_quantity(text)?;
            Some((Comparand::Other(quantity), after))
        }
    }
}

/// `= W`, `= X` and so on, with the words after it.
fn read_compared(quantity: Quantity, text: &[u8]) -> Option<(TurnCondition, &[u8])>
    ensures { option_map (λ found. (found.0, words_of_line found.1.now)) result
        ≡ compared_first quantity (words_of_line text.now) }
{
    let (name, others) = next_word(text)?;
    let relation = read_relation(name)?;
    let (comparand, after) = read_comparand(others)?;
    let condition = TurnCondition::Compared {
        quantity,
        relation,
        comparand,
    };
    Some((condition, after))
}

/// `W = W`, with the words after it.
#[tactic(auto, unfolding(crate::specs::Grammar::Conditions::masked_first))]
fn read_masked(quantity: Quantity, text: &[u8]) -> Option<(TurnCondition, &[u8])>
    ensures { option_map (λ found. (found.0, words_of_line found.1.now)) result
        ≡ masked_first quantity (words_of_line text.now) }
{
    let (bits, others) = next_word(text)?;
    let (equals, rest) = next_word(others)?;
    let (number, after) = next_word(rest)?;
    let mask = read_word(bits)?;
    let word = read_word(number)?;
    if equals != b"=".as_slice() {
        return None;
    }
    let condition = TurnCondition::Masked {
        quantity,
        mask,
        word,
    };
    Some((condition, after))
}

/// `X = W`, `X != W`, `X < W`, `X > W`, each with a quantity in place of W too, and `X & W = W`,
/// with the words after it.
#[tactic(auto, unfolding(crate::specs::Grammar::Conditions::comparison_first))]
fn read_comparison(text: &[u8]) -> Option<(TurnCondition, &[u8])>
    ensures { option_map (λ found. (found.0, words_of_line found.1.now)) result
        ≡ comparison_first (words_of_line text.now) }
{
    let (quantity, others) = read_quantity(text)?;
    let (sign, rest) = next_word(others)?;
    if sign == b"&".as_slice() {
        read_masked(quantity, rest)
    } else {
        read_compared(quantity, others)
    }
}

/// `A`, the address of an instruction, with the words after it.
fn read_address(text: &[u8]) -> Option<(TurnCondition, &[u8])>
    ensures { option_map (λ found. (found.0, words_of_line found.1.now)) result
        ≡ address_first (words_of_line text.now) }
{
    let (number, others) = next_word(text)?;
    let address = read_word(number)?;
    Some((TurnCondition::At { address }, others))
}

/// A condition, with the words after it.
#[tactic(auto, unfolding(crate::specs::Grammar::Conditions::condition_first))]
fn read_condition(text: &[u8]) -> Option<(TurnCondition, &[u8])>
    ensures { option_map (λ found. (found.0, words_of_line found.1.now)) result
        ≡ condition_first (words_of_line text.now) }
{
    let (name, others) = next_word(text)?;
    if name == b"at".as_slice() {
        read_address(others)
    } else if name == b"kernel".as_slice() {
        Some((TurnCondition::InMode(Mode::Kernel), others))
    } else if name == b"user".as_slice() {
        Some((TurnCondition::InMode(Mode::User), others))
    } else {
        read_comparison(text)
    }
}

/// `and C`, with the words after it; nothing where the words end.
#[tactic(auto, unfolding(crate::specs::Grammar::Conditions::and_condition_first))]
fn read_next(text: &[u8]) -> Option<(Option<TurnCondition>, &[u8])>
    ensures { option_map (λ found. (found.0, words_of_line found.1.now)) result
        ≡ and_condition_first (words_of_line text.now) }
{
    let Some((word, others)) = next_word(text) else {
        return Some((None, text));
    };
    if word != b"and".as_slice() {
        return None;
    }
    let (condition, rest) = read_condition(others)?;
    Some((Some(condition), rest))
}

/// `C`, `C and C` and so on, up to four.
pub fn read_conditions(text: &[u8]) -> Option<TurnConditions>
    ensures { result ≡ conditions_named (words_of_line text.now) }
{
    let (first, rest) = read_condition(text)?;
    let (second, rest) = read_next(rest)?;
    let (third, rest) = read_next(rest)?;
    let (fourth, rest) = read_next(rest)?;
    if next_word(rest).is_some() {
        return None;
    }
    Some([Some(first), second, third, fourth])
}
