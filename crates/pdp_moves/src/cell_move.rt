ghost use Rattle.std.specs.Prelude.{◌≡◌, ◌+◌, ◌≤◌, ◌<◌, ◌++◌, List, length};
ghost use Rattle.pdp_made.specs.Cells.{CodeDue, CodeNow, ConditionCode, DataCell, Half, High, Low};
ghost use Rattle.pdp_made.specs.EffectRows.{EffectCells};
ghost use Rattle.pdp_made.specs.ReferenceRows.{Halves};
ghost use Rattle.pdp_moves.specs.Built.{AreHalves, AreOfCodes, AreOfEffect, code_moves};
ghost use Rattle.pdp_moves.specs.Built.{effect_moves, half_moves};
ghost use Rattle.pdp_moves.specs.CellNames.{named_cell, named_cells, named_moves};
ghost use Rattle.pdp_moves.specs.Moves.{is_itself, move_to};

use crate::cell_name::{CellName, CodeName, HalfName};
use crate::effect_sources::EffectSources;
use crate::sources::{CodeSources, HalfSources, Sources};
use arrayvec::ArrayVec;

/// The most cells that a step changes.
pub const MOST_MOVES: usize = 8;

/// A cell after a step, and the cells before it that it is made of.
#[derive(Default, Drop)]
pub struct CellMove {
    pub cell: CellName,
    pub sources: Sources,
}

/// The moves of a step. They take no memory.
pub type StepMoves = ArrayVec<CellMove, MOST_MOVES>;

/// Whether the cell is made of itself alone.
fn is_itself(cell: CellName, sources: &Sources) -> bool
    ensures { result ≡ is_itself (named_cell cell) (named_cells sources.now.items) }
{
    match sources.as_slice() {
        [source] => cell.is_same(*source),
        _ => false,
    }
}

/// Adds the move to the cell, unless the cell is made of itself alone.
pub(crate) fn tell(moves: &mut StepMoves, cell: CellName, sources: Sources)
    requires { length moves.old.items < MOST_MOVES }
    ensures moves { named_moves moves.new.items ≡ named_moves moves.old.items
        ++ move_to (named_cell cell) (named_cells sources.items) }
    ensures length { length moves.new.items ≤ length moves.old.items + 1 }
{
    if is_itself(cell, &sources) {
        return;
    }
    moves.push(CellMove { cell, sources });
}

/// Adds the moves to both halves of a word.
pub(crate) fn tell_halves(moves: &mut StepMoves, low: CellName, high: CellName, from: HalfSources)
    requires { length moves.old.items + 2 ≤ MOST_MOVES }
    ensures moves { (cell : Half → DataCell) (halves : Halves) → named_cell low ≡ cell Low
        → named_cell high ≡ cell High → AreHalves from halves
        → named_moves moves.new.items ≡ named_moves moves.old.items ++ half_moves cell halves }
    ensures length { length moves.new.items ≤ length moves.old.items + 2 }
{
    tell(moves, low, from.low);
    tell(moves, high, from.high);
}

/// Adds the moves to the condition codes.
pub(crate) fn tell_codes(moves: &mut StepMoves, from: CodeSources)
    requires { length moves.old.items + 4 ≤ MOST_MOVES }
    ensures moves { (cells : ConditionCode → List DataCell) → AreOfCodes from cells
        → named_moves moves.new.items ≡ named_moves moves.old.items ++ code_moves CodeNow cells }
    ensures length { length moves.new.items ≤ length moves.old.items + 4 }
{
    tell(moves, CellName::CodeNow(CodeName::Negative), from.negative);
    tell(moves, CellName::CodeNow(CodeName::Zero), from.zero);
    tell(moves, CellName::CodeNow(CodeName::Overflow), from.overflow);
    tell(moves, CellName::CodeNow(CodeName::Carry), from.carry);
}

/// Adds the moves to the codes that are due.
pub(crate) fn tell_codes_due(moves: &mut StepMoves, from: CodeSources)
    requires { length moves.old.items + 4 ≤ MOST_MOVES }
    ensures moves { (cells : ConditionCode → List DataCell) → AreOfCodes from cells
        → named_moves moves.new.items ≡ named_moves moves.old.items ++ code_moves CodeDue cells }
    ensures length { length moves.new.items ≤ length moves.old.items + 4 }
{
    tell(moves, CellName::CodeDue(CodeName::Negative), from.negative);
    tell(moves, CellName::CodeDue(CodeName::Zero), from.zero);
    tell(moves, CellName::CodeDue(CodeName::Overflow), from.overflow);
    tell(moves, CellName::CodeDue(CodeName::Carry), from.carry);
}

/// The moves of an operation.
pub(crate) fn moves_of_effect(effect: EffectSources) -> StepMoves
    ensures { (cells : EffectCells) → AreOfEffect effect cells
        → named_moves result.items ≡ effect_moves cells }
{
    let mut moves = StepMoves::new();
    tell_halves(
        &mut moves,
        CellName::ResultByte(HalfName::Low),
        CellName::ResultByte(HalfName::High),
        effect.value,
    );
    tell_codes_due(&mut moves, effect.codes);
    moves
}
