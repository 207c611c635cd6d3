ghost use Rattle.std.specs.Prelude.{◌≡◌, ◌<◌};

use crate::bits::{
    RKER_NO_CYLINDER, RKER_NO_DRIVE, RKER_NO_MEMORY, RKER_NO_SECTOR, RKER_OVERRUN,
    RKER_WRITE_LOCKED,
};

/// Why a function of the RK11 failed, or why its transfer stopped; RKER tells it.
///
/// PDP-11 Peripherals Handbook, RK11.
#[derive(Clone, Copy, PartialEq, Eq)]
pub enum Failure {
    /// Bit 5: the disk address names no sector of a track.
    NoSector,
    /// Bit 6: the disk address names no cylinder.
    NoCylinder,
    /// Bit 7: the drive isn't there.
    NoDrive,
    /// Bit 10: the bus address was outside core.
    NoMemory,
    /// Bit 13: a write to a drive that is locked.
    WriteLocked,
    /// Bit 14: the transfer went past the last sector of the drive.
    Overrun,
}

impl Failure {
    ghost use Rattle.pdp_rk11.specs.Handbook.Rk.{failure_bit};

    /// RKER with the bit of this failure alone.
    pub fn bit(self) -> u16
        ensures value { result ≡ failure_bit self }
        ensures fits { result < 0o100000 }
    {
        match self {
            Failure::NoSector => RKER_NO_SECTOR,
            Failure::NoCylinder => RKER_NO_CYLINDER,
            Failure::NoDrive => RKER_NO_DRIVE,
            Failure::NoMemory => RKER_NO_MEMORY,
            Failure::WriteLocked => RKER_WRITE_LOCKED,
            Failure::Overrun => RKER_OVERRUN,
        }
    }
}
