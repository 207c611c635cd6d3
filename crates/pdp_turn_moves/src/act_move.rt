use pdp_moves::CellName;

/// One of the cells that a cell after an act is made of.
#[derive(Clone, Copy)]
pub enum ActMove {
    /// The first is made of the second, and maybe of others.
    Of(CellName, CellName),
    /// The cell is made of nothing that was held before: the program itself says what it holds.
    OfNothing(CellName),
}
