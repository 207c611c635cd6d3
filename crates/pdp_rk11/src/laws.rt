ghost use Rattle.pdp_rk11.specs.Laws.{ChecksChangeNoWord, CompletionsSetReady, ErrorsAreTold};
ghost use Rattle.pdp_rk11.specs.Laws.{HardErrorsAreTold};
ghost use Rattle.pdp_rk11.specs.Laws.{ReadsLeaveTheLastMove, WritesFillWithZeros};
ghost use Rattle.pdp_rk11.specs.Laws.{WrittenWordsAreReadBack};
ghost use Rattle.pdp_rk11.specs.Trace.{StampsDisturbNoCompletion};
ghost use Rattle.pdp_rk11.specs.WordsDone.{WordsAreCounted};

/// A law and no code: after a read that nothing forbids, each word of core to which a move goes has
/// the drive's word of the last move to it, and every other word of core is as it was; so are the
/// drives.
///
/// PDP-11 Peripherals Handbook, RK11.
pub fn a_read_leaves_the_last_move()
    ensures { ReadsLeaveTheLastMove }
{}

/// A law and no code: after a write that nothing forbids, the drive's words to which moves go have
/// core's words, those after them in the sector of the last one are 0, and every other word of the
/// drive is as it was; so are the other drives, and core with its stamps.
///
/// PDP-11 Peripherals Handbook, RK11; the zeros [P].
pub fn a_write_fills_with_zeros()
    ensures { WritesFillWithZeros }
{}

/// A law and no code: words that are written and then read back from the same disk address, with
/// the same count, both with no error and over incremented bus addresses, come to the words of core
/// to which they are read, whatever is done to core between, if the drive is as the write left
/// it.
///
/// PDP-11 Peripherals Handbook, RK11.
pub fn what_is_written_and_read_back_is_the_same()
    ensures { WrittenWordsAreReadBack }
{}

/// A law and no code: a write check and a read check change no word of core, no stamp and no word
/// of a drive.
///
/// PDP-11 Peripherals Handbook, RK11.
pub fn a_check_changes_no_word()
    ensures { ChecksChangeNoWord }
{}

/// A law and no code: the completion of what is under way sets ready, however it ends; error, bit
/// 15 of RKCS, is set exactly if RKER isn't 0, and hard error, bit 14, exactly if a bit of RKER
/// other than write check is.
///
/// PDP-11 Peripherals Handbook, RK11.
pub fn the_control_register_tells_the_end()
    ensures ready { CompletionsSetReady }
    ensures error { ErrorsAreTold }
    ensures hard_error { HardErrorsAreTold }
{}

/// A law and no code: a completion does the same whatever last stamps core has. The writes of its
/// trace leave their stamps on these, and nothing else differs. [P]
pub fn stamps_disturb_no_completion()
    ensures { StampsDisturbNoCompletion }
{}

/// A law and no code: `Rk::words_done`, of the controller before the completion of what is under
/// way and of the controller after it, is the number of words that the function moves or compares:
/// none if it is refused.
///
/// PDP-11 Peripherals Handbook, RK11.
#[tactic(auto, using(crate::proofs::WordsCounted::words_are_counted))]
pub fn words_done_are_counted()
    ensures { WordsAreCounted }
{}
