ghost use Rattle.pdp_io_page.specs.Laws.{ReadStatusWritesBack, WrittenRegisterReadsBack};
ghost use Rattle.pdp_io_page.specs.Laws.{WrittenStatusReadsBack};
ghost use Rattle.pdp_io_page.specs.Laws.{StatusIsItsWord, WholeStatusReadsBack};
ghost use Rattle.pdp_io_page.specs.RequestLaws.{NoneIsChosenWhereNoneIsAbove, RequestsAreTold};
ghost use Rattle.pdp_io_page.specs.RequestLaws.{TheFirstIsChosen};
ghost use Rattle.pdp_io_page.specs.RequestLaws.{OthersGoOnRequesting, ResetDropsRequests};
ghost use Rattle.pdp_io_page.specs.RequestLaws.{ServedSourcesAreSilent};

/// A law of the program status word: a word that is written to it reads back without bits 11-8, and
/// with T as it was. What was read from it changes nothing when it is written. A whole word, as a
/// trap loads it, sets T too.
///
/// DEC PDP-11/40 Processor Handbook (1972), Processor status word; bits 11-8 and T are [P].
pub fn status_reads_back()
    ensures word { WrittenStatusReadsBack }
    ensures register { WrittenRegisterReadsBack }
    ensures unchanged { ReadStatusWritesBack }
    ensures whole { WholeStatusReadsBack }
    ensures same { StatusIsItsWord }
{}

/// A law of interrupts: whichever sources request, the one that is chosen requests with a level
/// above the priority, and no other that does goes before it, by its level or at the same level by
/// its place. None is chosen exactly if none does.
///
/// PDP-11 Peripherals Handbook, Unibus; the order at one level [P].
pub fn the_first_request_is_chosen()
    ensures first { TheFirstIsChosen }
    ensures none { NoneIsChosenWhereNoneIsAbove }
{}

/// A law of requests: the processor is told whether any source requests; a source that was served
/// doesn't request any more, the others request as before, and after RESET none does.
///
/// PDP-11 Peripherals Handbook, Unibus; RESET [P].
pub fn requests_go_one_by_one_or_by_reset()
    ensures told { RequestsAreTold }
    ensures served { ServedSourcesAreSilent }
    ensures others { OthersGoOnRequesting }
    ensures reset { ResetDropsRequests }
{}
