//! Laws of what a past makes.

ghost use Rattle.pdp_made_past.specs.KeptCells.{AllCyclesAreListed, DriveBytesStay, TapeBytesStay};
ghost use Rattle.pdp_made_past.specs.KeptCells.{UnlistedCellsStay, UnwrittenWordsStay};
ghost use Rattle.pdp_made_past.specs.PastRows.{DriveWordsTell, PastsTell, PunchedTextsTell};
ghost use Rattle.pdp_made_past.specs.PastRows.{StatesAreOfRows, TextsTell, CoreWordsTell};

/// A law and no code: the state before each turn of the run of a past, from which answers are
/// given, is the one that `made_before_turn` goes back from.
#[tactic(auto, using(crate::proofs::Pasts::states))]
pub fn states_are_those_of_rows()
    ensures { StatesAreOfRows }
{}

/// A law and no code: take any other past whose inputs of the names in `made_at` are the same, and
/// whose run goes the same way before turn n. Then the cell is the same there.
#[tactic(auto, using(crate::proofs::Pasts::pasts))]
pub fn rows_tell_what_pasts_make()
    ensures { PastsTell }
{}

/// A law and no code: the same of a word of core or of a drive, by the inputs of both its halves,
/// and of the texts that came out before turn n, by the inputs of each byte.
pub fn words_and_texts_are_made_of_inputs()
    ensures core { CoreWordsTell }
    ensures drives { DriveWordsTell }
    ensures printed { TextsTell }
    ensures punched { PunchedTextsTell }
{}

/// A law and no code: if no bus cycle of a turn wrote a word of core, the act of the turn makes the
/// word of itself alone. An act makes every word of a drive and every byte of the tape of itself
/// alone.
pub fn unwritten_cells_stay()
    ensures core { UnwrittenWordsStay }
    ensures drives { DriveBytesStay }
    ensures tape { TapeBytesStay }
{}

/// A law and no code: if no move to a cell is listed of the act of a turn of a run, the act makes
/// the cell of itself alone. The cycles that are listed of a turn are all of its cycles.
pub fn unlisted_cells_stay()
    ensures cycles { AllCyclesAreListed }
    ensures cells { UnlistedCellsStay }
{}
