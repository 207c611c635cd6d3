//! Laws of pages and of last stamps, each a contract without code.

ghost use Rattle.pdp_store.specs.Overlays.{OverlaysAreFlat};
ghost use Rattle.pdp_store.specs.PageLaws.{SerialsAreGivenOnce};
ghost use Rattle.pdp_store.specs.Stamps.{TracesLeaveLastWrites};

/// A law and no code: while there are serials enough, what is taken as pages keeps the serial of
/// each base, and gives each other place one that was not given before, no two of them the same.
pub fn serials_are_given_once()
    ensures { SerialsAreGivenOnce }
{}

/// A law and no code: the stamps that a trace leaves are those of its last write to each word of
/// core, and of a word that it doesn't write the stamp from before. [P]
pub fn traces_leave_last_writes()
    ensures { TracesLeaveLastWrites }
{}

/// A law and no code: stamps laid over others, and both over third ones, are one overlay. The upper
/// turn hides the stamps in the middle if they are all before it; if it isn't later than the lower
/// turn, the middle may be laid over first.
pub fn overlays_are_flat()
    ensures { OverlaysAreFlat }
{}
