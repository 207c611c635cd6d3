ghost use Rattle.pdp_replay.specs.Run.FirstTouches.{FirstTouchesAreFirst, FirstTouchesAreTold};
ghost use Rattle.pdp_replay.specs.Run.FirstTouches.{LateTouchesAreDropped};
ghost use Rattle.pdp_replay.specs.Run.FirstTouches.{PatchesReachTheFirstTouch};
ghost use Rattle.pdp_replay.specs.Run.FirstTouches.{TurnsRunAgainTouchNothingNew};
ghost use Rattle.pdp_replay.specs.Run.FirstTouches.{UntouchedPagesAreAlike};
ghost use Rattle.pdp_replay.specs.Run.Adoptions.{AdoptedRunsGoOn};
ghost use Rattle.pdp_replay.specs.Run.Meetings.{EqualStaysEqual, FirstTouchesAreTaken, MeetAgain};
ghost use Rattle.pdp_replay.specs.Run.Meetings.{TouchesNoMoreAgain};
ghost use Rattle.pdp_replay.specs.Run.SavedMeetings.{KeptBytesAreTaken, SavedMachinesAreTaken};
ghost use Rattle.pdp_replay.specs.Past.FirstWords.{CoreHasItsSize, DriveHasItsSize};
ghost use Rattle.pdp_replay.specs.Past.FirstWords.{CoreWordsAreFirstWords, DiskWordsAreFirstWords};
ghost use Rattle.pdp_replay.specs.Past.FirstWords.{DrivesAreByNumber, DrivesAreSoMany};
ghost use Rattle.pdp_replay.specs.Past.Edit.{AlterationNeedsNoMemory, DropNeedsNoMemory};
ghost use Rattle.pdp_replay.specs.Past.Edit.{TapeNeedsNoMemory, DelayNeedsNoMemory};
ghost use Rattle.pdp_replay.specs.Past.Restored.{PatchIsTakenBack, ReversionIsTakenBack};
ghost use Rattle.pdp_replay.specs.Past.Restored.{RestoredPatchesAreUndone};
ghost use Rattle.pdp_replay.specs.Ask.FadedAnswers.{EditsLeaveWhatCanBeAsked};
ghost use Rattle.pdp_replay.specs.Ask.FadedAnswers.{FadedEditsChangeNoAnswer};
ghost use Rattle.pdp_replay.specs.Ask.FadedSearches.{FadedEditsChangeNoSearch};
ghost use Rattle.pdp_replay.specs.Ask.Fadings.{JoinedIsDecided, JoinedStayJoined};
ghost use Rattle.pdp_replay.specs.Ask.LastWrites.{StampsOfCheckpointsAreLastWrites};
ghost use Rattle.pdp_replay.specs.Ask.LastWrites.{StampsOfStatesAreLastWrites};
ghost use Rattle.pdp_replay.specs.Ask.LoggedCycles.{CyclesAreListed, DiskReadsAreTraced};
ghost use Rattle.pdp_replay.specs.Ask.LoggedCycles.{TurnsAreLogged};
ghost use Rattle.pdp_replay.specs.Ask.VirtualReads.{VirtualWordsAreRead};
ghost use Rattle.pdp_replay.specs.Run.States.{TextOnlyGrows, PunchedOnlyGrows};

/// A law of setups: core as of power-up has the words of its units, each of which is its patch,
/// else its image's word, else 0.
///
/// [P]
#[tactic(auto, using(crate::proofs::past::FirstWords::words_of_core))]
pub fn core_words_are_first_words()
    ensures size { CoreHasItsSize }
    ensures words { CoreWordsAreFirstWords }
{}

/// A law of setups: there are as many drives as of power-up as the setup says, and each has
/// 1,247,232 words, each of which is its patch, else the word of the drive's image, else 0.
///
/// [P]
#[tactic(auto, using(crate::proofs::past::FirstWords::words_of_drives))]
pub fn disk_words_are_first_words()
    ensures size { DriveHasItsSize }
    ensures words { DiskWordsAreFirstWords }
    ensures drives { DrivesAreByNumber }
    ensures count { DrivesAreSoMany }
{}

/// A law of edits: no alteration and no drop of an event is refused as out of memory, and no edit
/// of the tape or of a delay.
///
/// [P]
#[tactic(auto, using(crate::proofs::past::Memory::needs_no_memory))]
pub fn some_edits_need_no_memory()
    ensures alteration { AlterationNeedsNoMemory }
    ensures drop { DropNeedsNoMemory }
    ensures tape { TapeNeedsNoMemory }
    ensures delay { DelayNeedsNoMemory }
{}

/// A law of edits: what the patches had of a word takes a patch of the word back exactly, and a
/// patch less, and what they had of it before that makes it again.
///
/// [P]
pub fn patches_are_taken_back()
    ensures patched { PatchIsTakenBack }
    ensures reverted { ReversionIsTakenBack }
    ensures undone { RestoredPatchesAreUndone }
{}

/// A law of runs: what was printed on the console before a turn begins what was printed before each
/// later turn, and what was punched likewise.
///
/// [P]
#[tactic(auto, using(crate::proofs::run::Texts::text_grows, crate::proofs::run::Texts::punched_grows))]
pub fn texts_only_grow()
    ensures text { TextOnlyGrows }
    ensures punched { PunchedOnlyGrows }
{}

/// A law of runs: in each state of a run the last stamp of each word of core is that of its last
/// write, by the processor or by the disk, in the trace of the run from power-up to the turn of the
/// state; a word that was not written has none. So it is in each state that an engine keeps.
///
/// [P]
pub fn stamps_of_states_are_last_writes()
    ensures states { StampsOfStatesAreLastWrites }
    ensures kept { StampsOfCheckpointsAreLastWrites }
{}

/// A law of edits: a patch of a word reaches back to the first turn that touches its page. Up to
/// there each state of the patched run is that of the run before, with the word changed.
///
/// [P]
pub fn patches_reach_the_first_touch()
    ensures { PatchesReachTheFirstTouch }
{}

/// A law of first touches: no turn before the first touch of a page accesses the page, and the turn
/// of the first touch does. Those that the turns before a turn leave tell the first touch of each
/// page. If touches of a turn and of later turns are dropped, those that the turns before it leave
/// remain.
///
/// [P]
pub fn first_touches_are_told()
    ensures least { FirstTouchesAreFirst }
    ensures told { FirstTouchesAreTold }
    ensures dropped { LateTouchesAreDropped }
{}

/// A law of first touches: a turn that is run again adds nothing to them.
///
/// [P]
pub fn turns_run_again_touch_nothing_new()
    ensures { TurnsRunAgainTouchNothingNew }
{}

/// A law of runs: up to the first touch of a page each state of a run has in this page the words of
/// power-up and, in core, no stamp.
///
/// [P]
pub fn untouched_pages_are_alike()
    ensures { UntouchedPagesAreAlike }
{}

/// A law of runs: two runs that meet in a state stay equal. If their states before some turn are
/// equal except for the last stamps of core, and their scripts have the same events from that turn
/// on, then so are their states before each later turn, stamps from that turn on too, and what they
/// print, punch and access from then on. So they meet again at each later turn. Their setups and
/// their earlier events may differ.
///
/// [P]
pub fn equal_stays_equal()
    ensures equal { EqualStaysEqual }
    ensures again { MeetAgain }
{}

/// A law of first touches: of two runs that meet, let the second have touched no page before that
/// turn that the first has not. Then the first touches of the first run before each later turn are
/// those that it had where they met, and for each other page those of the second run. So again the
/// second has touched no page that the first has not.
///
/// [P]
pub fn first_touches_are_taken()
    ensures taken { FirstTouchesAreTaken }
    ensures again { TouchesNoMoreAgain }
{}

/// A law of runs: of two runs that meet, each saved machine of the second from that turn on is,
/// with its stamps laid over those of the first, the saved machine of the first before the same
/// turn. And the bytes that come out of the second from that turn on, with their turns, come out of
/// the first.
///
/// [P]
pub fn saved_machines_are_taken()
    ensures machines { SavedMachinesAreTaken }
    ensures bytes { KeptBytesAreTaken }
{}

/// A law of runs: a machine that is in a state of the first of two runs that meet there, and keeps
/// its texts, can be made any later saved machine of the second. If its bytes, its first touches
/// and its stamps are taken of the second from that turn on, it is then in a state of the first
/// run, and keeps the texts of the first run.
///
/// [P]
pub fn adopted_runs_go_on()
    ensures { AdoptedRunsGoOn }
{}

/// A law of runs: two runs with the same tape that are one from a turn on, as [`Engine::fades`]
/// tells it, are one from each later turn on. And a test decides whether they are one from a turn
/// on: their states before the turn are equal, except for the last stamps of core and what came
/// out, and their scripts have the same events in the turn and in later ones.
///
/// [`Engine::fades`]: crate::Engine::fades
///
/// [P]
pub fn joined_runs_stay_joined()
    ensures stay { JoinedStayJoined }
    ensures decided { JoinedIsDecided }
{}

/// A law of edits: one that fades by a turn, as [`Engine::fades`] tells it, changes no answer that
/// needs no earlier turn. What was printed and punched until then may differ, and from then on both
/// texts grow by the same bytes; and a write of that turn or of a later one is the last write to a
/// word in both runs or in neither. Nor does it change what searches find from that turn on, the
/// lists of accesses and of moves, and the counts of instructions. Whether an edit fades or not,
/// what can be asked stays.
///
/// [`Engine::fades`]: crate::Engine::fades
///
/// [P]
pub fn faded_edits_change_no_answer()
    ensures answers { FadedEditsChangeNoAnswer }
    ensures searches { FadedEditsChangeNoSearch }
    ensures asked { EditsLeaveWhatCanBeAsked }
{}

/// A law of logs: a turn tells a log of its cycles in their order, and does the same whatever log
/// is kept. The cycles in core are all accesses of the turn's trace after those of the disk, with
/// which the turn begins. The cycles that are listed of a turn of a run are the first 257 of them.
/// The disk is said to read a word of core exactly if the trace has that read.
///
/// [P]
pub fn logged_cycles_are_traced()
    ensures turns { TurnsAreLogged }
    ensures listed { CyclesAreListed }
    ensures disk { DiskReadsAreTraced }
{}

/// A law of virtual addresses: a word that an answer tells is what a bus cycle (DATI) reads at the
/// physical address of the word. If the answer says why a word can't be read, it is right: memory
/// management aborts the read, nothing is at the physical address, or a register of a device is.
///
/// DEC PDP-11/40 Processor Handbook (1972), Memory management; PDP-11 Peripherals Handbook, Unibus.
#[tactic(auto, using(crate::proofs::ask::VirtualReads::virtual_words_read))]
pub fn virtual_words_are_read()
    ensures { VirtualWordsAreRead }
{}
