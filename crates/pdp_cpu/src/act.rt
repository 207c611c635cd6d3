/// The act that began a turn.
#[derive(Clone, Copy)]
pub enum Act {
    /// One instruction, with its trap if it had one; also if its word could not be fetched.
    Instr,
    /// The trace trap.
    Trace,
    /// The stack trap.
    Stack,
    /// The interrupt with this vector (octal).
    Irq(u16),
    /// Nothing: the machine waits or is halted.
    Idle,
}
