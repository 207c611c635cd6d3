//! What an act moved, as a list.

ghost use Rattle.std.specs.Prelude.{◌≡◌, ◌++◌, [], IfOk, OnOk};
ghost use Rattle.pdp_moves.specs.CellNames.{named_cell, named_cells};
ghost use Rattle.pdp_moves.specs.CourseMoves.{sources_of_act};
ghost use Rattle.pdp_moves.specs.Moves.{is_cell_among, is_itself};
ghost use Rattle.pdp_turn_moves.specs.ActMoves.{moves_of_act, cells_of_cycle, cells_outside_core};
ghost use Rattle.pdp_turn_moves.specs.ActMoves.{cells_written, moves_from, moves_of_cell};
ghost use Rattle.pdp_turn_moves.specs.ActMoves.{moves_of_cells, with_cells};

use crate::act_move::ActMove;
use crate::act_sources::{add_cells, sources_of_act};
use pdp_moves::{BufferName, CellName, CodeName, HalfName, NotedAct};
use pdp_store::{BusCycle, CycleKind};
use pdp_word::NoMemory;
use std::alloc::Global;

/// The first physical address of a register (bytes): those below it are of core.
const FIRST_REGISTER: u32 = 0o760000;

/// How many registers there are that hold data: R0 to R5 and the stack pointers of two modes.
const REGISTERS: u8 = 8;

/// The condition codes and the buffers of the devices.
const CODES_AND_BUFFERS: [CellName; 9] = [
    CellName::CodeNow(CodeName::Negative),
    CellName::CodeNow(CodeName::Zero),
    CellName::CodeNow(CodeName::Overflow),
    CellName::CodeNow(CodeName::Carry),
    CellName::Buffer(BufferName::Keyboard),
    CellName::Buffer(BufferName::Printer),
    CellName::Buffer(BufferName::Reader),
    CellName::Buffer(BufferName::Punch),
    CellName::Buffer(BufferName::Switches),
];

/// Whether the cell is among these.
fn is_among(cells: &[CellName], cell: CellName) -> bool
    ensures { result ≡ is_cell_among (named_cells cells.now) (named_cell cell) }
{
    for one in cells {
        if cell.is_same(*one) {
            return true;
        }
    }
    false
}

/// These cells, each once, in the place where it stands first.
///
/// Err if memory was refused.
fn each_once(alloc: Global, cells: &[CellName]) -> Result<Vec<CellName>, NoMemory>
    ensures { IfOk result (λ once. named_cells once.items
        ≡ with_cells [] (named_cells cells.now)) }
{
    let mut once = Vec::new(alloc);
    for cell in cells {
        if !is_among(once.as_slice(), *cell) {
            once.push(*cell)?;
        }
    }
    Ok(once)
}

/// Whether the cell is made of itself alone.
fn is_itself(cell: CellName, sources: &[CellName]) -> bool
    ensures { result ≡ is_itself (named_cell cell) (named_cells sources.now) }
{
    match sources {
        [source] => cell.is_same(*source),
        _ => false,
    }
}

/// Adds the moves to this cell from these ones.
///
/// Err if memory was refused.
fn add_moves(moves: &mut Vec<ActMove>, cell: CellName, sources: &[CellName]) -> Result<(), NoMemory>
    ensures { OnOk result (moves.new.items ≡ moves.old.items
        ++ moves_from (named_cell cell) (named_cells sources.now)) }
{
    if sources.is_empty() {
        moves.push(ActMove::OfNothing(cell))?;
        return Ok(());
    }
    for source in sources {
        moves.push(ActMove::Of(cell, *source))?;
    }
    Ok(())
}

/// Adds what the act moved to this cell.
///
/// Err if memory was refused.
fn add_moves_of(
    alloc: Global,
    noted: &NotedAct,
    moves: &mut Vec<ActMove>,
    cell: CellName,
) -> Result<(), NoMemory>
    ensures { OnOk result (moves.new.items ≡ moves.old.items ++ moves_of_cell (named_cell cell)
        (with_cells [] (sources_of_act noted.now (named_cell cell)))) }
{
    let sources = sources_of_act(alloc, noted, cell)?;
    let once = each_once(alloc, sources.as_slice())?;
    if is_itself(cell, once.as_slice()) {
        Ok(())
    } else {
        add_moves(moves, cell, once.as_slice())
    }
}

/// Adds what the act moved to these cells.
///
/// Err if memory was refused.
fn add_moves_of_cells(
    alloc: Global,
    noted: &NotedAct,
    moves: &mut Vec<ActMove>,
    cells: &[CellName],
) -> Result<(), NoMemory>
    ensures { OnOk result (moves.new.items ≡ moves.old.items
        ++ moves_of_cells (sources_of_act noted.now) (named_cells cells.now)) }
{
    for cell in cells {
        add_moves_of(alloc, noted, moves, *cell)?;
    }
    Ok(())
}

/// Adds both halves of the word of core that the cycle wrote, if it is core that it wrote.
///
/// Err if memory was refused.
fn add_written(cells: &mut Vec<CellName>, cycle: BusCycle) -> Result<(), NoMemory>
    ensures { OnOk result (named_cells cells.new.items ≡ named_cells cells.old.items
        ++ cells_of_cycle cycle.kind cycle.address cycle.value) }
{
    if cycle.kind == CycleKind::Read || cycle.value.is_none() || cycle.address >= FIRST_REGISTER {
        return Ok(());
    }
    let word = cycle.address / 2;
    cells.push(CellName::CoreByte {
        word,
        half: HalfName::Low,
    })?;
    cells.push(CellName::CoreByte {
        word,
        half: HalfName::High,
    })?;
    Ok(())
}

/// The halves of the words of core that these cycles wrote, in their order.
///
/// Err if memory was refused.
fn written_cells(alloc: Global, cycles: &[BusCycle]) -> Result<Vec<CellName>, NoMemory>
    ensures { IfOk result (λ cells. named_cells cells.items ≡ cells_written cycles.now) }
{
    let mut cells = Vec::new(alloc);
    for cycle in cycles {
        add_written(&mut cells, *cycle)?;
    }
    Ok(cells)
}

/// The registers, the condition codes and the buffers of the devices.
///
/// Err if memory was refused.
fn other_cells(alloc: Global) -> Result<Vec<CellName>, NoMemory>
    ensures { IfOk result (λ cells. named_cells cells.items ≡ cells_outside_core) }
{
    let mut cells = Vec::new(alloc);
    for place in 0..REGISTERS {
        cells.push(CellName::RegisterByte {
            place,
            half: HalfName::Low,
        })?;
        cells.push(CellName::RegisterByte {
            place,
            half: HalfName::High,
        })?;
    }
    add_cells(&mut cells, &CODES_AND_BUFFERS)?;
    Ok(cells)
}

/// What an act with these bus cycles moved: to the words of core that it wrote, each once and in
/// their order, and then to the registers, the condition codes and the buffers of the devices.
///
/// Err if memory was refused.
pub fn moves_of_act(
    alloc: Global,
    noted: &NotedAct,
    cycles: &[BusCycle],
) -> Result<Vec<ActMove>, NoMemory>
    ensures { IfOk result (λ moves. moves.items
        ≡ moves_of_act (sources_of_act noted.now) cycles.now) }
{
    let mut moves = Vec::new(alloc);
    let written = written_cells(alloc, cycles)?;
    let words = each_once(alloc, written.as_slice())?;
    add_moves_of_cells(alloc, noted, &mut moves, words.as_slice())?;
    let others = other_cells(alloc)?;
    add_moves_of_cells(alloc, noted, &mut moves, others.as_slice())?;
    Ok(moves)
}
