ghost use Rattle.std.specs.Prelude.{◌≡◌, ◌+◌, ◌≤◌, ◌++◌, length};
ghost use Rattle.pdp_made.specs.ReferenceRows.{of_nothing};
ghost use Rattle.pdp_moves.specs.Built.{AreHalves};

use crate::cell_name::CellName;
use arrayvec::ArrayVec;

/// The most sources that a cell has in one step.
pub const MOST_SOURCES: usize = 6;

/// The cells before a step that a cell after it is made of. They take no memory.
pub type Sources = ArrayVec<CellName, MOST_SOURCES>;

/// The sources of the halves of a word.
#[derive(Drop)]
pub(crate) struct HalfSources {
    pub low: Sources,
    pub high: Sources,
}

/// The sources of the condition codes.
#[derive(Drop)]
pub(crate) struct CodeSources {
    pub negative: Sources,
    pub zero: Sources,
    pub overflow: Sources,
    pub carry: Sources,
}

/// These cells as sources.
pub(crate) fn sources(cells: &[CellName]) -> Sources
    requires { length cells.now ≤ MOST_SOURCES }
    ensures { result.items ≡ cells.now }
{
    let mut sources = Sources::new();
    // it never fails: there is room, as the contract requires
    let _ = sources.try_extend_from_slice(cells);
    sources
}

/// The first sources, and then the second.
pub(crate) fn joined(mut first: Sources, second: &Sources) -> Sources
    requires { length first.items + length second.now.items ≤ MOST_SOURCES }
    ensures { result.items ≡ first.items ++ second.now.items }
{
    // as in `sources`
    let _ = first.try_extend_from_slice(second.as_slice());
    first
}

/// The same sources once more.
pub(crate) fn copied(from: &Sources) -> Sources
    ensures { result.items ≡ from.now.items }
{
    sources(from.as_slice())
}

impl HalfSources {
    /// The halves are made of nothing.
    pub(crate) fn none() -> HalfSources
        ensures { AreHalves result of_nothing }
    {
        HalfSources {
            low: Sources::new(),
            high: Sources::new(),
        }
    }
}
