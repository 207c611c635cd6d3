//! Back through an act: which cells before it a cell after it is made of.

ghost use Rattle.std.specs.Prelude.{◌≡◌, [], ◌∷◌, ◌++◌, flat_map, IfOk, OnOk};
ghost use Rattle.pdp_made.specs.CourseRows.{of_saved_codes};
ghost use Rattle.pdp_moves.specs.CellNames.{named_cell, named_cells, named_moves};
ghost use Rattle.pdp_moves.specs.CourseMoves.{saved_if, sources_of_act, sources_of_plan};
ghost use Rattle.pdp_moves.specs.Moves.{sources_before, sources_in};
ghost use Rattle.pdp_moves.specs.PlanRows.{moves_noted};
ghost use Rattle.pdp_turn_moves.specs.ActMoves.{is_handed_on};

use pdp_moves::{CellName, NotedAct, NotedPlan, NotedStep, StepMoves};
use pdp_word::NoMemory;
use std::alloc::Global;

/// Adds the cells before a step with these moves that this cell after it is made of.
///
/// Err if memory was refused.
fn add_step_sources(
    sources: &mut Vec<CellName>,
    moves: &StepMoves,
    cell: CellName,
) -> Result<(), NoMemory>
    ensures { OnOk result (named_cells sources.new.items ≡ named_cells sources.old.items
        ++ sources_in (named_moves moves.now.items) (named_cell cell)) }
{
    for one in moves.as_slice() {
        if cell.is_same(one.cell) {
            add_cells(sources, one.sources.as_slice())?;
            return Ok(());
        }
    }
    sources.push(cell)?;
    Ok(())
}

/// Adds these cells.
///
/// Err if memory was refused.
pub(crate) fn add_cells(sources: &mut Vec<CellName>, cells: &[CellName]) -> Result<(), NoMemory>
    ensures { OnOk result (sources.new.items ≡ sources.old.items ++ cells.now) }
{
    for cell in cells {
        sources.push(*cell)?;
    }
    Ok(())
}

/// The cells before a step with these moves that these cells after it are made of.
///
/// Err if memory was refused.
fn through_step(
    alloc: Global,
    moves: &StepMoves,
    cells: &[CellName],
) -> Result<Vec<CellName>, NoMemory>
    ensures { IfOk result (λ sources. named_cells sources.items
        ≡ flat_map (sources_in (named_moves moves.now.items)) (named_cells cells.now)) }
{
    let mut sources = Vec::new(alloc);
    for cell in cells {
        add_step_sources(&mut sources, moves, *cell)?;
    }
    Ok(sources)
}

/// The cells before these steps that this cell after them is made of.
///
/// Err if memory was refused.
fn through_steps(
    alloc: Global,
    steps: &[NotedStep],
    cell: CellName,
) -> Result<Vec<CellName>, NoMemory>
    ensures { IfOk result (λ sources. named_cells sources.items
        ≡ sources_before (moves_noted steps.now) (named_cell cell)) }
{
    let mut sources = Vec::new(alloc);
    sources.push(cell)?;
    for done in 0..steps.len() {
        let step = &steps[steps.len() - 1 - done];
        sources = through_step(alloc, &step.moves, sources.as_slice())?;
    }
    Ok(sources)
}

/// Whether it is a cell that a step hands to the next. A plan that comes to a trap loses it.
fn is_handed_on(cell: CellName) -> bool
    ensures { result ≡ is_handed_on (named_cell cell) }
{
    match cell {
        CellName::ValueByte(_)
        | CellName::SourceByte(_)
        | CellName::ResultByte(_)
        | CellName::StatusByte(_)
        | CellName::CodeDue(_) => true,
        CellName::CoreByte { word: _, half: _ }
        | CellName::DriveByte {
            drive: _,
            word: _,
            half: _,
        }
        | CellName::RegisterByte { place: _, half: _ }
        | CellName::CodeNow(_)
        | CellName::Buffer(_)
        | CellName::TapeByte(_)
        | CellName::CodeSaved(_) => false,
    }
}

/// The cells before a plan that this cell after it is made of.
///
/// Err if memory was refused.
fn plan_sources(alloc: Global, plan: &NotedPlan, cell: CellName) -> Result<Vec<CellName>, NoMemory>
    ensures { IfOk result (λ sources. named_cells sources.items
        ≡ sources_of_plan plan.now (named_cell cell)) }
{
    if plan.is_lost && is_handed_on(cell) {
        through_steps(alloc, &[], cell)
    } else {
        through_steps(alloc, plan.steps.as_slice(), cell)
    }
}

/// The same of these cells.
///
/// Err if memory was refused.
fn through_plan(
    alloc: Global,
    plan: &NotedPlan,
    cells: &[CellName],
) -> Result<Vec<CellName>, NoMemory>
    ensures { IfOk result (λ sources. named_cells sources.items
        ≡ flat_map (sources_of_plan plan.now) (named_cells cells.now)) }
{
    let mut sources = Vec::new(alloc);
    for cell in cells {
        let before = plan_sources(alloc, plan, *cell)?;
        add_cells(&mut sources, before.as_slice())?;
    }
    Ok(sources)
}

/// The code of now, if this is one that a sequence saved; else the cell.
fn before_saving(cell: CellName) -> CellName
    ensures { of_saved_codes (named_cell cell) ≡ named_cell result ∷ [] }
{
    match cell {
        CellName::CodeSaved(code) => CellName::CodeNow(code),
        other => other,
    }
}

/// The cells before the codes were saved, if they were (`saves`), that these are made of.
fn through_saving(saves: bool, cells: &mut Vec<CellName>)
    ensures { named_cells cells.new.items
        ≡ flat_map (saved_if saves) (named_cells cells.old.items) }
{
    if !saves {
        return;
    }
    for index in 0..cells.len() {
        cells[index] = before_saving(cells[index]);
    }
}

/// The cells before an act that this cell after it is made of: back through all that was noted of
/// it. They may stand there more than once.
///
/// Err if memory was refused.
pub fn sources_of_act(
    alloc: Global,
    noted: &NotedAct,
    cell: CellName,
) -> Result<Vec<CellName>, NoMemory>
    ensures { IfOk result (λ sources. named_cells sources.items
        ≡ sources_of_act noted.now (named_cell cell)) }
{
    let sequence = &noted.sequence;
    let before_halt = plan_sources(alloc, &sequence.halt, cell)?;
    let before_red = through_plan(alloc, &sequence.red, before_halt.as_slice())?;
    let mut before = through_plan(alloc, &sequence.first, before_red.as_slice())?;
    through_saving(noted.saves_codes, &mut before);
    through_plan(alloc, &noted.plan, before.as_slice())
}
