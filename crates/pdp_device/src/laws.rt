ghost use Rattle.pdp_device.specs.Laws.{BytesComeOutOnce, ConditionIsShown};
ghost use Rattle.pdp_device.specs.Laws.{EventsAloneCompleteWithoutDelay, IdleIsNeverDue};
ghost use Rattle.pdp_device.specs.Laws.{OperationsAreDueOnce, OperationsBeginUnderWay};
ghost use Rattle.pdp_device.specs.Laws.{RequestsAppearOnARise, RequestsGoWithTheCondition};
ghost use Rattle.pdp_device.specs.Laws.{ServedRequestsStayAway};

/// A law and no code: whatever changes of a ready/enable pair, a request appears exactly if its
/// condition, ready and enable, goes from false to true, and one that is there goes exactly if
/// the condition does. One that was served stays away while the condition holds.
///
/// [P]
pub fn requests_appear_on_a_rise()
    ensures condition { ConditionIsShown }
    ensures appear { RequestsAppearOnARise }
    ensures go { RequestsGoWithTheCondition }
    ensures served { ServedRequestsStayAway }
{}

/// A law and no code: an operation begun in a turn with a delay is under way, and is due that many
/// turns later and in no other turn. With delay 0 it is due in no turn, and so is a device that
/// does nothing.
///
/// [P]
pub fn completions_come_in_their_turn()
    ensures begun { OperationsBeginUnderWay }
    ensures delayed { OperationsAreDueOnce }
    ensures by_event { EventsAloneCompleteWithoutDelay }
    ensures idle { IdleIsNeverDue }
{}

/// A law and no code: after a byte was written to a transmitter with nothing under way, and
/// whatever was written to its registers since, the last byte written comes out, when the first was
/// due, and then nothing more does.
///
/// Source: PDP-11 Peripherals Handbook, KL11 and PC11; what later bytes do [P].
pub fn a_byte_comes_out_once()
    ensures { BytesComeOutOnce }
{}
