//! The bits of PRS: PDP-11 Peripherals Handbook, PC11.

/// Bit 15: a read found no byte.
pub(crate) const PRS_ERROR: u16 = 0o100000;

/// Bit 11: a byte is being read.
pub(crate) const PRS_BUSY: u16 = 0o4000;

/// Bit 7: a byte has come.
pub(crate) const PRS_DONE: u16 = 0o200;

/// Bit 6: its interrupts are enabled.
pub(crate) const PRS_ENABLE: u16 = 0o100;

/// Bit 0: begin to read a byte.
pub(crate) const PRS_GO: u16 = 0o1;
