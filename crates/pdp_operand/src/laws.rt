ghost use Rattle.std.specs.Prelude.{◌≡◌, ◌<◌, ℕ, All, None, length, slice_index_or};
ghost use Rattle.pdp_store.specs.TracedAccess.{Avoids, last_write};
ghost use Rattle.pdp_store.specs.declared.part.Part.{Part};
ghost use Rattle.pdp_unibus.specs.Handbook.BusWorld.{BusWorld};
ghost use Rattle.pdp_unibus.specs.Page.{AlikeOutside};
ghost use Rattle.pdp_operand.specs.Laws.Aborted.{AbortsLeaveCore, ReadOnlyPagesKeepTheirWords};
ghost use Rattle.pdp_operand.specs.Laws.Aborted.{ToldAbortsLeaveCore};
ghost use Rattle.pdp_operand.specs.Laws.Page.{UndisturbedCourse};
ghost use Rattle.pdp_operand.specs.Laws.Touched.{IsByProcessor};
ghost use Rattle.pdp_operand.specs.Phases.Course.{Course, follow};
ghost use Rattle.pdp_operand.specs.Laws.Trace.{trace_of};
ghost use Rattle.pdp_operand.specs.Phases.Phase.{State, run};
ghost use Rattle.pdp_operand.specs.Phases.Plan.{Plan, phases_of, run_plan};

/// A law of plans: a plan run group by group is the run of all its phases in their order.
#[tactic(auto, using(crate::proofs::Flattening::run_phases_of))]
pub fn plan_is_its_phases()
    ensures { (plan : Plan) (s : State) → run (phases_of plan) s ≡ run_plan plan s }
{}

/// A law of courses: every access to a word of core is by the processor, in the turn of the bus, to
/// a word that core has.
#[tactic(auto, using(crate::proofs::Kept::course_touches))]
pub fn touches_of_courses_are_of_their_turn()
    ensures { (course : Course) (s : State) →
        All (IsByProcessor s.world.bus.turn (length s.world.bus.core)) (trace_of course s) }
{}

/// A law of courses: after one, the last stamp of each word is that of its last write in the
/// course, or the one from before if it was not written.
#[tactic(auto, using(crate::proofs::Kept::course_stamps))]
pub fn stamps_of_courses_are_last_writes()
    ensures { (course : Course) (s : State) (k : ℕ) → k < length s.world.bus.stamps →
        slice_index_or (follow course s).world.bus.stamps k None
        ≡ last_write (trace_of course s) k (slice_index_or s.world.bus.stamps k None) }
{}

/// A law of courses: one that never touches a page of 256 words, of core or of a drive, leaves it,
/// and goes on in the same way whatever is in it.
pub fn courses_leave_what_they_never_touch()
    ensures { (part : Part) (page : ℕ) (course : Course) (s : State) (c : BusWorld) →
        AlikeOutside part page s.world.bus c → Avoids part page (trace_of course s) →
        UndisturbedCourse part page course s c }
{}

/// A law of references: one whose address isn't odd, and that memory management aborts, whyever,
/// fails with a mapping abort; a write through a read-only page fails with one too, or if its
/// address is odd with that. None of them changes a word of core, a stamp, or anything else but
/// SR0.
///
/// DEC PDP-11/40 Processor Handbook (1972), Memory management; that an odd address goes first is
/// [P].
pub fn aborts_change_no_core_word()
    ensures aborted { AbortsLeaveCore }
    ensures told { ToldAbortsLeaveCore }
    ensures read_only { ReadOnlyPagesKeepTheirWords }
{}
