//! The bits of LKS: PDP-11 Peripherals Handbook, KW11-L.

/// Bit 7: the clock has ticked, or was initialised, since this was last cleared.
pub(crate) const LKS_MONITOR: u16 = 0o200;

/// Bit 6: ticks request an interrupt.
pub(crate) const LKS_ENABLE: u16 = 0o100;
