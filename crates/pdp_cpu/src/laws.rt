//! Laws of turns, for every turn, its events and every world.

ghost use Rattle.std.specs.Prelude.{◌≡◌, ◌<◌, ◌≤◌, ℕ, All, List, None, Option, false, length};
ghost use Rattle.std.specs.Prelude.{map, slice_index_or};
ghost use Rattle.pdp_unibus.specs.Handbook.BusWorld.{BusWorld, is_disk_busy};
ghost use Rattle.pdp_unibus.specs.declared.event.Event.{Event};
ghost use Rattle.pdp_store.specs.CycleLogs.{KeptCycles, no_log};
ghost use Rattle.pdp_store.specs.TracedAccess.{Avoids, last_write};
ghost use Rattle.pdp_store.specs.declared.Stamp.{Stamp};
ghost use Rattle.pdp_store.specs.declared.part.Part.{Part};
ghost use Rattle.pdp_unibus.specs.Page.{AlikeOutside};
ghost use Rattle.pdp_unibus.specs.Touched.{IsOfTurn};
ghost use Rattle.pdp_operand.specs.declared.processor.Processor.{Processor};
ghost use Rattle.pdp_operand.specs.declared.processor.RunState.TheVariants.{Halted};
ghost use Rattle.pdp_cpu.specs.Laws.TurnLaws.{LogsDisturbNothing, NoneContinues};
ghost use Rattle.pdp_cpu.specs.Laws.TurnLaws.{StampsDisturbNothing, Stays};
ghost use Rattle.pdp_cpu.specs.Laws.TurnLaws.{Undisturbed, WordsStay, turn_phases, world_after};
ghost use Rattle.pdp_cpu.specs.Handbook.Turn.{one_turn, turn_trace};
ghost use Rattle.pdp_operand.specs.Phases.World.{World, world};

/// A law of turns: a turn runs at most 32 phases, one that faults counted too.
#[tactic(auto, using(crate::proofs::TurnLaws::turn_at_most_32))]
pub fn turns_end_within_32_phases()
    ensures { (t : ℕ) (events : List Event) (w : World) → turn_phases t events w ≤ 32 }
{}

/// A law of turns: after a turn, the last stamp of each word is that of its last write in the trace
/// of the turn, or the one from before if the turn did not write it.
#[tactic(auto, using(crate::proofs::TurnLaws::turn_stamps))]
pub fn stamps_are_last_writes()
    ensures { (t : ℕ) (events : List Event) (w : World) (k : ℕ) → k < length w.bus.stamps →
        slice_index_or (one_turn t events w).bus.stamps k None
        ≡ last_write (turn_trace t events w) k (slice_index_or w.bus.stamps k None) }
{}

/// A law of turns: a turn does the same whatever last stamps core has. The writes of its trace
/// leave their stamps on these, and nothing else differs. [P]
pub fn stamps_disturb_nothing()
    ensures { (t : ℕ) (events : List Event) (w : World) (stamps : List (Option Stamp)) →
        StampsDisturbNothing t events w stamps }
{}

/// A law of turns: a turn does the same whatever log of bus cycles is kept. Its cycles are put into
/// that log, and nothing else differs. Where none is kept, none is begun. [P]
pub fn logs_disturb_nothing()
    ensures any { (t : ℕ) (events : List Event) (w : World) (log : KeptCycles) →
        LogsDisturbNothing t events w log }
    ensures none { (t : ℕ) (events : List Event) (w : World) → w.bus.log ≡ no_log →
        (one_turn t events w).bus.log ≡ no_log }
{}

/// A law of turns: every access in the trace of a turn is in that turn; one of core is of a word
/// that core has, and one of a drive is by the disk.
#[tactic(auto, using(crate::proofs::TurnLaws::turn_touches))]
pub fn touches_are_of_their_turn()
    ensures { (t : ℕ) (events : List Event) (w : World) →
        All (IsOfTurn t (length w.bus.core)) (turn_trace t events w) }
{}

/// A law of turns: core and its stamps keep their lengths.
#[tactic(auto, using(crate::proofs::Rules::sizes))]
pub fn turns_keep_the_size_of_core()
    ensures words { (t : ℕ) (events : List Event) (w : World) →
        length (one_turn t events w).bus.core ≡ length w.bus.core }
    ensures stamps { (t : ℕ) (events : List Event) (w : World) →
        length (one_turn t events w).bus.stamps ≡ length w.bus.stamps }
{}

/// A law of turns: there are as many drives after a turn as before it, each with as many words.
#[tactic(auto, using(crate::proofs::DriveSizes::turn_keeps_drives))]
pub fn turns_keep_the_sizes_of_drives()
    ensures { (t : ℕ) (events : List Event) (w : World) →
        map length (one_turn t events w).bus.drives ≡ map length w.bus.drives }
{}

/// A law of turns: the tape in the reader stays, whatever is read of it.
#[tactic(auto, using(crate::proofs::TurnLaws::turn_keeps_tape))]
pub fn turns_keep_the_tape()
    ensures { (t : ℕ) (events : List Event) (w : World) →
        (one_turn t events w).bus.tape ≡ w.bus.tape }
{}

/// A law of turns: a turn whose trace avoids a page of 256 words, of core or of a drive, leaves the
/// page as it was, and does the same in every other way whatever words the page holds.
pub fn turns_leave_what_they_never_touch()
    ensures { (part : Part) (page t : ℕ) (events : List Event) (p : Processor) (b c : BusWorld) →
        AlikeOutside part page b c → Avoids part page (turn_trace t events (world p b)) →
        Undisturbed part page t events p b c }
{}

/// A law of turns: a halted machine stays. Without `Continue` its processor, the program status and
/// the mapping registers are the same after any number of turns, whatever other events come; and if
/// nothing is under way on the disk, so are core, its stamps and the drives.
pub fn halted_machines_stay()
    ensures stays { (events : ℕ → List Event) (t n : ℕ) (w : World) → w.processor.run ≡ Halted →
        ((k : ℕ) → NoneContinues (events k)) → Stays w (world_after events t n w) }
    ensures words { (events : ℕ → List Event) (t n : ℕ) (w : World) → w.processor.run ≡ Halted →
        ((k : ℕ) → NoneContinues (events k)) → is_disk_busy w.bus.io_page ≡ false →
        WordsStay w (world_after events t n w) }
{}
