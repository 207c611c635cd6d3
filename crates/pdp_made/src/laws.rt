//! Laws of what cells are made of.

ghost use Rattle.std.specs.Prelude.{◌≡◌, ℕ, Bool, [], ◌∷◌};
ghost use Rattle.pdp_word.specs.declared.codes.Codes.{Codes};
ghost use Rattle.pdp_action.specs.declared.action.Action.{Action};
ghost use Rattle.pdp_operand.specs.Phases.Phase.{State};
ghost use Rattle.pdp_operand.specs.Phases.Plan.{phases_of};
ghost use Rattle.pdp_instruction.specs.Handbook.Action.{plan_of_action};
ghost use Rattle.pdp_instruction.specs.Handbook.TrapSequence.{red_plan, trap_plan};
ghost use Rattle.pdp_instruction.specs.declared.saved_context.SavedContext.{SavedContext};
ghost use Rattle.pdp_made.specs.Cells.{AreAlike, High, Low, RegisterByte};
ghost use Rattle.pdp_made.specs.CourseRows.{CourseRows, CoursesTell, GoAlong, InstructionsTell};
ghost use Rattle.pdp_made.specs.CourseRows.{IsSoundCourse};
ghost use Rattle.pdp_made.specs.CourseRows.{RowsFollowInstructions, RowsFollowSequences};
ghost use Rattle.pdp_made.specs.CourseRows.{SequencesTell, instruction_rows, sequence_rows};
ghost use Rattle.pdp_made.specs.InstructionRows.{add_registers, rows_of_action};
ghost use Rattle.pdp_made.specs.PhaseRows.{AreSoundRows, GoTheSameWay, PlansTell, made_through};
ghost use Rattle.pdp_made.specs.PhaseRows.{phases_in};
ghost use Rattle.pdp_made.specs.TrapRows.{red_rows, trap_rows, with_saved_codes};

/// A law and no code: the rows of each action and of each sequence are those of the phases of its
/// plan, in their order.
pub fn rows_are_those_of_plans()
    ensures actions { (saved : Codes) (a : Action)
        → phases_in (rows_of_action a) saved ≡ phases_of (plan_of_action a) }
    ensures traps { (marks : Bool) (vector : ℕ) (context : SavedContext) (saved : Codes)
        → phases_in (trap_rows marks vector context) saved
        ≡ phases_of (trap_plan marks vector (with_saved_codes context saved)) }
    ensures red { (context : SavedContext) (saved : Codes)
        → phases_in (red_rows context) saved
        ≡ phases_of (red_plan (with_saved_codes context saved)) }
{}

/// A law and no code: if two states are alike except for data, and the cells that a row names for a
/// cell are the same in both, that cell is the same after the phase. This holds of each row of an
/// action, of an instruction with its fetch and its traps, and of a sequence.
pub fn each_row_tells_what_its_phase_makes()
    ensures actions { (a : Action) → AreSoundRows (rows_of_action a) }
    ensures instructions { IsSoundCourse instruction_rows }
    ensures sequences { (marks : Bool) (vector : ℕ) (context : SavedContext)
        → IsSoundCourse (sequence_rows marks vector context) }
{}

/// A law and no code: what phases with sound rows make is made of the cells that `made_through`
/// names. Two states that are alike except for data go the same way along the phases: if these
/// cells are the same before, the cell is the same after, also at a trap.
#[tactic(auto, using(crate::proofs::Through::through))]
pub fn rows_tell_what_plans_make()
    ensures { PlansTell }
{}

/// A law and no code: what a course makes is made of the cells that `made_along` names. A course is
/// plans that follow one another by how each ended.
#[tactic(auto, using(crate::proofs::Courses::courses))]
pub fn rows_tell_what_courses_make()
    ensures { CoursesTell }
{}

/// A law and no code: what an instruction makes, with its fetch and its traps, is made of the cells
/// that its rows name. It goes the same way from two states that are alike except for data: if
/// these cells are the same before, the cell is the same after.
pub fn rows_tell_what_instructions_make()
    ensures follows { RowsFollowInstructions }
    ensures tells { InstructionsTell }
{}

/// A law and no code: what the sequence of a trap or an interrupt makes is made of the cells that
/// its rows name, among them the saved codes.
pub fn rows_tell_what_sequences_make()
    ensures follows { RowsFollowSequences }
    ensures tells { SequencesTell }
{}

/// A law and no code: each state is alike to itself, and goes the same way as itself along each
/// course. So what the laws of courses require is met at least there.
pub fn each_state_goes_the_same_way_as_itself()
    ensures alike { (saved : Codes) (s : State) → AreAlike saved saved s s }
    ensures way { (rows : CourseRows) (saved : Codes) (s : State) → GoAlong rows saved saved s s }
{}

/// A law and no code: `ADD R0,R1`, as an example, goes the same way whatever the registers hold.
/// After it the low half of R1 is made of both low halves, and the high half of both registers.
pub fn sums_are_made_of_both_registers()
    ensures way { (saved other : Codes) (s u : State) → AreAlike saved other s u
        → GoTheSameWay (rows_of_action add_registers) saved other s u }
    ensures low { (saved : Codes) (s : State)
        → made_through (rows_of_action add_registers) saved s (RegisterByte 1 Low)
        ≡ RegisterByte 0 Low ∷ RegisterByte 1 Low ∷ [] }
    ensures high { (saved : Codes) (s : State)
        → made_through (rows_of_action add_registers) saved s (RegisterByte 1 High)
        ≡ RegisterByte 0 Low ∷ RegisterByte 1 Low ∷ RegisterByte 0 High ∷ RegisterByte 1 High ∷ [] }
{}
