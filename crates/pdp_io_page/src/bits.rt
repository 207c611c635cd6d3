//! The bits of the program status word: DEC PDP-11/40 Processor Handbook (1972), Processor status
//! word.

/// The lowest of bits 15-14, the mode.
pub(crate) const PS_MODE: u16 = 0o40000;

/// The lowest of bits 13-12, the previous mode.
pub(crate) const PS_PREVIOUS: u16 = 0o10000;

/// The lowest of bits 7-5, the priority.
pub(crate) const PS_PRIORITY: u16 = 0o40;

/// Bit 4, T: each instruction traps.
pub(crate) const PS_TRACE: u16 = 0o20;

/// Bit 3, N.
pub(crate) const PS_N: u16 = 0o10;

/// Bit 2, Z.
pub(crate) const PS_Z: u16 = 0o4;

/// Bit 1, V.
pub(crate) const PS_V: u16 = 0o2;

/// Bit 0, C.
pub(crate) const PS_C: u16 = 0o1;
