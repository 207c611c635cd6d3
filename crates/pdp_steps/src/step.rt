use crate::control_step::ControlStep;
use crate::execute_step::ExecuteStep;
use crate::extended_step::ExtendedStep;
use crate::jump_step::JumpStep;
use crate::operand_step::OperandStep;
use crate::trap_step::TrapStep;
use pdp_decode::Instr;

/// A phase by its name.
#[derive(Clone, Copy, Default)]
pub enum Microstep {
    /// The word at PC is fetched.
    #[default]
    Fetch,
    /// An operand is found, read or written.
    Operand(OperandStep),
    /// An operation is done, and codes are stored.
    Execute(ExecuteStep),
    /// MUL, DIV, ASH and ASHC.
    Extended(ExtendedStep),
    /// Branches, the condition code operators, HALT, WAIT, RESET and traps.
    Control(ControlStep),
    /// Jumps, returns, and the other space of MFPI and MTPI.
    Jump(JumpStep),
    /// The sequence of a trap.
    Trap(TrapStep),
    /// A trace trap is noted after this instruction, while T is set.
    NoteTrace(Instr),
}
