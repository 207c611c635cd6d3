ghost use Rattle.std.specs.Prelude.{◌≡◌};

/// A register of the RK11.
///
/// PDP-11 Peripherals Handbook, RK11.
#[derive(Clone, Copy)]
pub enum RkRegister {
    /// RKDS: 4700, and bit 5 if the drive that RKDA names is locked; 0 if that drive isn't
    /// there. It can't be written [6.35].
    DriveStatus,
    /// RKER: bit 0 write check, 5 no sector, 6 no cylinder, 7 no drive, 10 no memory, 13 write
    /// locked, 14 overrun. It can't be written [6.36].
    Error,
    /// RKCS: bit 0 go, 3-1 function, 5-4 bits 17-16 of the bus address, 6 enable, 7 ready, 11 no
    /// increment, 13 search complete, 14 hard error, 15 error.
    Control,
    /// RKWC: counts the words up to 0.
    WordCount,
    /// RKBA: bits 15-0 of the bus address (bytes).
    BusAddress,
    /// RKDA: bits 15-13 drive, 12-5 cylinder, 4 surface, 3-0 sector.
    DiskAddress,
}

impl RkRegister {
    ghost use Rattle.pdp_rk11.specs.Handbook.Rk.{rk_register_at};

    /// The register `offset` bytes after the first one, RKDS, if there is one.
    pub fn at(offset: u32) -> Option<RkRegister>
        ensures { result ≡ rk_register_at offset }
    {
        match offset {
            0 => Some(RkRegister::DriveStatus),
            2 => Some(RkRegister::Error),
            4 => Some(RkRegister::Control),
            6 => Some(RkRegister::WordCount),
            0o10 => Some(RkRegister::BusAddress),
            0o12 => Some(RkRegister::DiskAddress),
            _ => None,
        }
    }
}
