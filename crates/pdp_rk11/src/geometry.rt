//! Disk addresses, and the sectors that they name.

ghost use Rattle.std.specs.Prelude.{◌≡◌, ◌<◌, nat_lt};
ghost use Rattle.pdp_rk11.specs.Handbook.Geometry.{address_of_sector, cylinder_in, cylinders};
ghost use Rattle.pdp_rk11.specs.Handbook.Geometry.{drive_in};
ghost use Rattle.pdp_rk11.specs.Handbook.Geometry.{sector_in};
ghost use Rattle.pdp_rk11.specs.Handbook.Geometry.{sector_number, sectors_named, sectors_of_track};
ghost use Rattle.pdp_rk11.specs.Handbook.Geometry.{surface_in};

use crate::bits::{RKDA_CYLINDER, RKDA_DRIVE, RKDA_SURFACE};
use pdp_word::field;

/// The cylinders of a drive (PDP-11 Peripherals Handbook, RK05).
const CYLINDERS: u32 = 203;

/// The surfaces of a cylinder (PDP-11 Peripherals Handbook, RK05).
const SURFACES: u32 = 2;

/// The sectors of a surface of a cylinder (PDP-11 Peripherals Handbook, RK05).
const SECTORS_OF_TRACK: u32 = 12;

/// The sectors of a cylinder (PDP-11 Peripherals Handbook, RK05).
const SECTORS_OF_CYLINDER: u32 = SURFACES * SECTORS_OF_TRACK;

/// The words of a sector (PDP-11 Peripherals Handbook, RK05).
pub(crate) const WORDS_OF_SECTOR: u32 = 256;

/// How many addresses (bytes) the bus has: they have 18 bits (PDP-11 Peripherals Handbook, Unibus).
pub(crate) const PHYSICAL_ADDRESSES: u32 = 0o1000000;

/// Bit 16 of a bus address, of which RKBA has those below it and RKCS the others
/// (PDP-11 Peripherals Handbook, RK11).
pub(crate) const ADDRESS_BIT_16: u32 = 0o200000;

/// The words that RKWC 0 asks for, and the most (PDP-11 Peripherals Handbook, RK11).
pub(crate) const MOST_WORDS: u32 = 0o200000;

/// The number of the drive that a disk address names, 0 to 7.
pub(crate) fn drive_in(address: u16) -> u16
    ensures value { result ≡ drive_in address }
    ensures fits { result < 8 }
{
    field(13, 3, address)
}

fn cylinder_in(address: u16) -> u16
    ensures { result ≡ cylinder_in address }
{
    field(5, 8, address)
}

fn surface_in(address: u16) -> u16
    ensures { result ≡ surface_in address }
{
    field(4, 1, address)
}

fn sector_in(address: u16) -> u16
    ensures { result ≡ sector_in address }
{
    field(0, 4, address)
}

/// Whether the cylinder that a disk address names is one of a drive's.
pub(crate) fn has_cylinder(address: u16) -> bool
    ensures { result ≡ nat_lt (cylinder_in address) cylinders }
{
    u32::from(cylinder_in(address)) < CYLINDERS
}

/// Whether the sector that a disk address names is one of a track's.
pub(crate) fn has_sector(address: u16) -> bool
    ensures { result ≡ nat_lt (sector_in address) sectors_of_track }
{
    u32::from(sector_in(address)) < SECTORS_OF_TRACK
}

/// The number on its drive of the sector that a disk address names, counted from 0.
pub(crate) fn sector_number(address: u16) -> u32
    ensures { result ≡ sector_number address }
{
    let track = u32::from(cylinder_in(address)) * SURFACES + u32::from(surface_in(address));
    track * SECTORS_OF_TRACK + u32::from(sector_in(address))
}

/// The address of the sector of this number on a drive; it may be past the last one.
pub(crate) fn address_of_sector(drive: u16, number: u32) -> u16
    requires drive { drive < 8 }
    requires number { number < sectors_named }
    ensures { result ≡ address_of_sector drive number }
{
    let cylinder = number / SECTORS_OF_CYLINDER;
    let surface = number / SECTORS_OF_TRACK % SURFACES;
    let sector = number % SECTORS_OF_TRACK;
    drive * RKDA_DRIVE
        + cylinder as u16 * RKDA_CYLINDER
        + surface as u16 * RKDA_SURFACE
        + sector as u16
}
