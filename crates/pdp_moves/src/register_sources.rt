//! What registers are made of.

ghost use Rattle.std.specs.Prelude.{◌≡◌, ◌++◌, ◌+◌, ◌≤◌, length};
ghost use Rattle.pdp_made.specs.EffectRows.{going_up};
ghost use Rattle.pdp_made.specs.OperandRows.{halves_of_result};
ghost use Rattle.pdp_made.specs.ReferenceRows.{Halves, cut_to, halves_filled, halves_of};
ghost use Rattle.pdp_made.specs.ReferenceRows.{whole_of};
ghost use Rattle.pdp_moves.specs.Built.{AreHalves, is_same_register, pair_moves, place_of_register};
ghost use Rattle.pdp_moves.specs.Built.{register_moves, shift_moves};
ghost use Rattle.pdp_moves.specs.CellNames.{named_cells, named_half, named_moves};

use crate::cell_move::{MOST_MOVES, StepMoves, tell_codes_due, tell_halves};
use crate::cell_name::{CellName, HalfName};
use crate::sources::{CodeSources, HalfSources, Sources, copied, joined, sources};
use pdp_operand::{Fill, RegisterId};
use pdp_word::Size;

const RESULT_LOW: CellName = CellName::ResultByte(HalfName::Low);

const RESULT_HIGH: CellName = CellName::ResultByte(HalfName::High);

/// The place of a register among the words of the processor, if it has one.
fn place_of(id: RegisterId) -> Option<u8>
    ensures { result ≡ place_of_register id }
{
    match id {
        RegisterId::R0 => Some(0),
        RegisterId::R1 => Some(1),
        RegisterId::R2 => Some(2),
        RegisterId::R3 => Some(3),
        RegisterId::R4 => Some(4),
        RegisterId::R5 => Some(5),
        RegisterId::KernelStack => Some(6),
        RegisterId::UserStack => Some(7),
        RegisterId::ProgramCounter => None,
    }
}

/// What a half of a register is made of: PC is no data.
#[tactic(auto, using(crate::proofs::Registers::halves_by_place))]
pub(crate) fn register_half(id: RegisterId, half: HalfName) -> Sources
    ensures cells { named_cells result.items ≡ halves_of id (named_half half) }
    ensures length { length result.items ≤ 1 }
{
    match place_of(id) {
        Some(place) => sources(&[CellName::RegisterByte { place, half }]),
        None => Sources::new(),
    }
}

/// What both halves of a register are made of.
#[tactic(auto, using(crate::proofs::Registers::whole_by_place))]
pub(crate) fn register_word(id: RegisterId) -> Sources
    ensures cells { named_cells result.items ≡ whole_of (halves_of id) }
    ensures length { length result.items ≤ 2 }
{
    match place_of(id) {
        Some(place) => sources(&[
            CellName::RegisterByte {
                place,
                half: HalfName::Low,
            },
            CellName::RegisterByte {
                place,
                half: HalfName::High,
            },
        ]),
        None => Sources::new(),
    }
}

/// What a register gives as an operand of a size.
pub(crate) fn register_operand(id: RegisterId, size: Size) -> HalfSources
    ensures { AreHalves result (cut_to size (halves_of id)) }
{
    match size {
        Size::Word => HalfSources {
            low: register_half(id, HalfName::Low),
            high: register_half(id, HalfName::High),
        },
        Size::Byte => HalfSources {
            low: register_half(id, HalfName::Low),
            high: Sources::new(),
        },
    }
}

/// What a register that steps is made of.
pub(crate) fn register_stepped(id: RegisterId) -> HalfSources
    ensures { AreHalves result (going_up (halves_of id)) }
{
    HalfSources {
        low: register_half(id, HalfName::Low),
        high: register_word(id),
    }
}

/// What a register is made of that the result fills.
pub(crate) fn register_filled(id: RegisterId, fill: Fill) -> HalfSources
    ensures { AreHalves result (halves_filled fill (halves_of id) halves_of_result) }
{
    let low = sources(&[RESULT_LOW]);
    match fill {
        Fill::Whole => HalfSources {
            low,
            high: sources(&[RESULT_HIGH]),
        },
        Fill::LowByte => HalfSources {
            low,
            high: joined(register_half(id, HalfName::High), &sources(&[RESULT_HIGH])),
        },
        Fill::Extended => HalfSources {
            low,
            high: sources(&[RESULT_LOW, RESULT_HIGH]),
        },
    }
}

/// Adds the moves to both halves of a register.
pub(crate) fn tell_register(moves: &mut StepMoves, id: RegisterId, from: HalfSources)
    requires { length moves.old.items + 2 ≤ MOST_MOVES }
    ensures moves { (halves : Halves) → AreHalves from halves
        → named_moves moves.new.items ≡ named_moves moves.old.items ++ register_moves id halves }
    ensures length { length moves.new.items ≤ length moves.old.items + 2 }
{
    if let Some(place) = place_of(id) {
        tell_halves(
            moves,
            CellName::RegisterByte {
                place,
                half: HalfName::Low,
            },
            CellName::RegisterByte {
                place,
                half: HalfName::High,
            },
            from,
        );
    }
}

/// The moves to a register.
pub(crate) fn register_moves(id: RegisterId, from: HalfSources) -> StepMoves
    ensures { (halves : Halves) → AreHalves from halves
        → named_moves result.items ≡ register_moves id halves }
{
    let mut moves = StepMoves::new();
    tell_register(&mut moves, id, from);
    moves
}

/// Adds the moves to a register, and to the codes that are due, each made of these.
pub(crate) fn tell_shifted(moves: &mut StepMoves, id: RegisterId, from: &Sources)
    requires { length moves.old.items + 6 ≤ MOST_MOVES }
    ensures { named_moves moves.new.items
        ≡ named_moves moves.old.items ++ shift_moves id (named_cells from.now.items) }
{
    let halves = HalfSources {
        low: copied(from),
        high: copied(from),
    };
    tell_register(moves, id, halves);
    tell_codes_due(
        moves,
        CodeSources {
            negative: copied(from),
            zero: copied(from),
            overflow: copied(from),
            carry: copied(from),
        },
    );
}

/// The moves to a pair of registers, and to the codes that are due, each made of these.
pub(crate) fn pair_moves(high: RegisterId, low: RegisterId, from: &Sources) -> StepMoves
    ensures { named_moves result.items
        ≡ pair_moves (is_same_register high low) high low (named_cells from.now.items) }
{
    let mut moves = StepMoves::new();
    if !is_same_register(high, low) {
        let halves = HalfSources {
            low: copied(from),
            high: copied(from),
        };
        tell_register(&mut moves, high, halves);
    }
    tell_shifted(&mut moves, low, from);
    moves
}

/// Whether these are the same register.
fn is_same_register(first: RegisterId, second: RegisterId) -> bool
    ensures { result ≡ is_same_register first second }
{
    match (place_of(first), place_of(second)) {
        (Some(place), Some(other)) => place == other,
        (None, None) => true,
        _ => false,
    }
}
