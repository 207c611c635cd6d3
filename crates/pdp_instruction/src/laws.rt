//! A law of instructions, for every instruction and every state.

ghost use Rattle.std.specs.Prelude.{◌≡◌, Err};
ghost use Rattle.pdp_decode.specs.declared.instruction.Instr.{Instr};
ghost use Rattle.pdp_operand.specs.Phases.Phase.{State, Stop};
ghost use Rattle.pdp_operand.specs.Phases.Plan.{one, run_plan};
ghost use Rattle.pdp_instruction.specs.Handbook.Action.{plan_of};
ghost use Rattle.pdp_instruction.specs.Handbook.Instruction.{fetch_instruction};
ghost use Rattle.pdp_instruction.specs.Laws.InstructionLaws.{LeavesStatus};

/// A law of instructions: if the fetch or a phase of any plan can't go on, the program status word,
/// and with it the condition codes, is as it was before.
///
/// That a fault leaves the codes is [P].
pub fn what_cannot_go_on_leaves_the_codes()
    ensures fetch { (s : State) (stop : Stop) → run_plan (one fetch_instruction) s ≡ Err stop
        → LeavesStatus s stop }
    ensures plan { (instr : Instr) (s : State) (stop : Stop) →
        run_plan (plan_of instr) s ≡ Err stop → LeavesStatus s stop }
{}
