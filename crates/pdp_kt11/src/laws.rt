ghost use Rattle.pdp_kt11.specs.Laws.{DisjointPagesNeverMeet, MappingOffIsTheOldRule};
ghost use Rattle.pdp_kt11.specs.Laws.{ReadOnlyPagesAreNeverWritten};
ghost use Rattle.pdp_kt11.specs.Laws.{AbortsLeaveThePages, FetchesAreFollowedUntilAnAbort};
ghost use Rattle.pdp_kt11.specs.Laws.{LaterAbortsAreNotTold, PassesLeaveStatus};
ghost use Rattle.pdp_kt11.specs.Laws.{TheFirstAbortIsTold};
ghost use Rattle.pdp_kt11.specs.Laws.{OtherBitsReadZero, PowerGivesPagesInRange};
ghost use Rattle.pdp_kt11.specs.Laws.{UsesKeepPagesInRange};
ghost use Rattle.pdp_kt11.specs.Laws.{WrittenAddressReadsBack, WrittenDescriptorReadsBack};
ghost use Rattle.pdp_kt11.specs.Laws.{WrittenStatus0ReadsBack};
ghost use Rattle.pdp_kt11.specs.Laws.{PowerClearsWrittenBits, PowerGivesEightPages};
ghost use Rattle.pdp_kt11.specs.Laws.{UsesKeepEightPages, WrittenBitsTellTheTruth};

/// A law of mapping: while it is off every access goes where it goes without memory management, by
/// any mode, and no register changes.
///
/// DEC PDP-11/40 Processor Handbook (1972), Memory management.
pub fn mapping_off_is_the_old_rule()
    ensures { MappingOffIsTheOldRule }
{}

/// A law of isolation: two pages whose physical addresses don't pass 18 bits, and of which one ends
/// before the other begins, never share a word. While mapping is on, whatever accesses in whichever
/// modes go through them, no address through the one and no address through the other reach the
/// same word. So if no page passes 18 bits and no two pages of kernel and user meet, no page of the
/// one space reaches a word of a page of the other.
///
/// DEC PDP-11/40 Processor Handbook (1972), Memory management.
pub fn disjoint_pages_never_meet()
    ensures { DisjointPagesNeverMeet }
{}

/// A law of protection: while mapping is on, a write through a read-only page is aborted, whatever
/// its address, and changes no register but SR0. So nothing is ever written through such a page.
///
/// DEC PDP-11/40 Processor Handbook (1972), Memory management.
pub fn read_only_pages_are_never_written()
    ensures { ReadOnlyPagesAreNeverWritten }
{}

/// A law of W: whatever accesses are made, registers written, instructions fetched, and with RESET
/// in between, W of a page is set exactly if a write went through the page since one of its two
/// registers was written last, or if it was set in the beginning and none was written. As of
/// power-up each W is clear. Each space has its eight pages all along.
///
/// DEC PDP-11/40 Processor Handbook (1972), Memory management; that power-up clears W, and that
/// RESET leaves it, are [P].
pub fn written_bits_tell_the_truth()
    ensures bits { WrittenBitsTellTheTruth }
    ensures pages { UsesKeepEightPages }
    ensures powered { PowerGivesEightPages }
    ensures clear { PowerClearsWrittenBits }
{}

/// A law of aborts: whatever access is aborted, it leaves all registers but SR0.
///
/// DEC PDP-11/40 Processor Handbook (1972), Memory management.
pub fn aborts_leave_the_pages()
    ensures { AbortsLeaveThePages }
{}

/// A law of SR0: the first abort sets its flag in SR0, no other flag, and its mode and its page.
/// While one of bits 15-13 of SR0 is set, by an abort or by a write, no access changes SR0 and no
/// fetch changes SR2; until then SR2 follows the fetches. An access that passes leaves SR0.
///
/// DEC PDP-11/40 Processor Handbook (1972), Memory management; that SR0 doesn't show later aborts,
/// and that bits 15-13 which were written hold SR0 and SR2 as an abort does, are [P].
pub fn the_first_abort_is_told()
    ensures first { TheFirstAbortIsTold }
    ensures later { LaterAbortsAreNotTold }
    ensures passes { PassesLeaveStatus }
    ensures fetches { FetchesAreFollowedUntilAnAbort }
{}

/// A law of the registers: if no page has bits beyond those of its registers, which is so at
/// power-up and after whatever uses of them, a read gives the bits that a rule names, and 0 in all
/// others. A word that is written to a descriptor reads back bits 14-8 and 3-1, with W clear; one
/// written to a page address register bits 11-0; one written to SR0 bits 15-13 and 0, with 6-5 and
/// 3-1 as they were.
///
/// DEC PDP-11/40 Processor Handbook (1972), Memory management; that the other bits are 0, and what
/// SR0 takes of a word, are [P].
pub fn registers_read_back()
    ensures others { OtherBitsReadZero }
    ensures powered { PowerGivesPagesInRange }
    ensures kept { UsesKeepPagesInRange }
    ensures descriptor { WrittenDescriptorReadsBack }
    ensures address { WrittenAddressReadsBack }
    ensures status { WrittenStatus0ReadsBack }
{}
