/// Why a phase could not go on, or which trap an instruction asks for.
///
/// DEC PDP-11/40 Processor Handbook (1972), Traps.
#[derive(Clone, Copy, PartialEq, Eq)]
pub enum Trap {
    /// A word was asked for at an odd address.
    OddAddress,
    /// Memory management aborted the reference.
    MappingAbort,
    /// Nothing on the bus has the address.
    BusTimeout,
    /// The word is no instruction of the machine, or HALT in user mode.
    Reserved,
    /// A jump to a register.
    JumpToRegister,
    /// A reference to the kernel stack below 340 (octal).
    StackLimit,
    /// BPT.
    Breakpoint,
    /// IOT.
    InputOutput,
    /// EMT.
    Emulator,
    /// TRAP.
    TrapInstruction,
}
