use pdp_operand::RunState;

/// The registers of the machine, as a person reads them.
#[derive(Clone, Copy)]
pub struct Regs {
    /// R0 to R5.
    pub r: [u16; 6],
    /// R6 in kernel mode.
    pub ksp: u16,
    /// R6 in user mode.
    pub usp: u16,
    pub pc: u16,
    /// The program status word.
    pub ps: u16,
    pub state: RunState,
}
