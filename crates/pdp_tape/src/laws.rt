ghost use Rattle.pdp_tape.specs.Laws.{BusyGoChangesNothingButEnable, ReaderConditionIsShown};
ghost use Rattle.pdp_tape.specs.Laws.{GoWithErrorRequests, ReadingGivesTheNextByte};
ghost use Rattle.pdp_tape.specs.Laws.{ReadingPastTheEndSetsError, ReaderRequestsAppearOnARise};
ghost use Rattle.pdp_tape.specs.Laws.{ReaderRequestsGoWithTheCondition};
ghost use Rattle.pdp_tape.specs.Laws.{ServedReaderRequestsStayAway};

/// A law and no code: whichever register is read or written, and at a completion, a request of the
/// reader appears exactly if its condition, enable and one of error and done, goes from false to
/// true, but for one case: a go that finds error requests exactly if it sets enable, and keeps
/// the rest. A request that is there goes exactly if the condition does. One that was served
/// stays away while the condition holds and no go finds error.
///
/// [P]
pub fn reader_requests_appear_on_a_rise()
    ensures condition { ReaderConditionIsShown }
    ensures appear { ReaderRequestsAppearOnARise }
    ensures go { ReaderRequestsGoWithTheCondition }
    ensures error { GoWithErrorRequests }
    ensures served { ServedReaderRequestsStayAway }
{}

/// A law and no code: while a byte is being read, a write of the reader's status changes enable,
/// and the request by it, and nothing else, whether its go is set or not.
///
/// [P]
pub fn go_while_busy_changes_nothing_but_enable()
    ensures { BusyGoChangesNothingButEnable }
{}

/// A law and no code: go, with no error and nothing under way, and then a completion with the
/// tape's next byte, sets done and has the byte in the buffer; past the tape's end it sets error
/// and not done, and the buffer is 0.
///
/// Source: PDP-11 Peripherals Handbook, PC11.
pub fn a_tape_is_read_to_its_end()
    ensures byte { ReadingGivesTheNextByte }
    ensures end { ReadingPastTheEndSetsError }
{}
