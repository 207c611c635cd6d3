//! The bits of a status register, of any device: PDP-11 Peripherals Handbook, KL11, PC11 and RK11.

/// Bit 7: the device is ready, or done.
pub const STATUS_READY: u16 = 0o200;

/// Bit 6: its interrupts are enabled.
pub const STATUS_ENABLE: u16 = 0o100;
