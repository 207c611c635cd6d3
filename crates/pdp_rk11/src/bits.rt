//! The bits of the RK11's registers: PDP-11 Peripherals Handbook, RK11.

/// RKDS, bit 11: the drive is an RK05.
pub(crate) const RKDS_RK05: u16 = 0o4000;

/// RKDS, bit 8: its sector counter is right.
pub(crate) const RKDS_SECTOR_COUNTER: u16 = 0o400;

/// RKDS, bit 7: it is ready.
pub(crate) const RKDS_READY: u16 = 0o200;

/// RKDS, bit 6: its heads can read, write and seek.
pub(crate) const RKDS_HEADS_READY: u16 = 0o100;

/// RKDS, bit 5: it is locked against writing.
pub(crate) const RKDS_WRITE_LOCKED: u16 = 0o40;

/// RKER, bit 14: the transfer went past the last sector of the drive.
pub(crate) const RKER_OVERRUN: u16 = 0o40000;

/// RKER, bit 13: a write to a drive that is locked.
pub(crate) const RKER_WRITE_LOCKED: u16 = 0o20000;

/// RKER, bit 10: the bus address was outside core.
pub(crate) const RKER_NO_MEMORY: u16 = 0o2000;

/// RKER, bit 7: the drive isn't there.
pub(crate) const RKER_NO_DRIVE: u16 = 0o200;

/// RKER, bit 6: the disk address names no cylinder.
pub(crate) const RKER_NO_CYLINDER: u16 = 0o100;

/// RKER, bit 5: the disk address names no sector of a track.
pub(crate) const RKER_NO_SECTOR: u16 = 0o40;

/// RKCS, bit 15: a bit of RKER is set.
pub(crate) const RKCS_ERROR: u16 = 0o100000;

/// RKCS, bit 14: a bit of RKER other than bit 0 is set.
pub(crate) const RKCS_HARD_ERROR: u16 = 0o40000;

/// RKCS, bit 13: a seek or a drive reset is done.
pub(crate) const RKCS_SEARCH_COMPLETE: u16 = 0o20000;

/// RKCS, bit 11: the bus address isn't incremented.
pub(crate) const RKCS_NO_INCREMENT: u16 = 0o4000;

/// RKCS, bit 6: its interrupts are enabled.
pub(crate) const RKCS_ENABLE: u16 = 0o100;

/// RKCS, the lowest of bits 5-4, which are bits 17-16 of the bus address.
pub(crate) const RKCS_ADDRESS: u16 = 0o20;

/// RKCS, the lowest of bits 3-1, the function.
pub(crate) const RKCS_FUNCTION: u16 = 0o2;

/// RKCS, bit 0: the function begins.
pub(crate) const RKCS_GO: u16 = 0o1;

/// RKDA, the lowest of bits 15-13, the drive.
pub(crate) const RKDA_DRIVE: u16 = 0o20000;

/// RKDA, the lowest of bits 12-5, the cylinder.
pub(crate) const RKDA_CYLINDER: u16 = 0o40;

/// RKDA, bit 4: the surface.
pub(crate) const RKDA_SURFACE: u16 = 0o20;
