//! The devices of the bus that interrupt: where their registers are, at which level they request,
//! and by which vector.

use crate::priority::Priority;

/// A device on the bus.
#[derive(Clone, Copy)]
pub(crate) struct Device {
    /// The address (bytes) of its first register.
    pub(crate) first: u32,
    /// The address (bytes) of its last register.
    pub(crate) last: u32,
    /// The level at which it requests.
    pub(crate) level: Priority,
    /// Its vector: the address in kernel space (bytes) of the new PC, with the new program status
    /// word after it.
    pub(crate) vector: u16,
}

/// The devices that interrupt.
#[derive(Clone, Copy)]
pub(crate) struct DeviceTable {
    pub(crate) keyboard: Device,
    pub(crate) printer: Device,
    pub(crate) reader: Device,
    pub(crate) punch: Device,
    pub(crate) clock: Device,
    pub(crate) disk: Device,
}

/// PDP-11 Peripherals Handbook, KL11, PC11, KW11-L and RK11.
pub(crate) const DEVICES: DeviceTable = DeviceTable {
    keyboard: Device {
        first: 0o777560,
        last: 0o777562,
        level: Priority::Level4,
        vector: 0o60,
    },
    printer: Device {
        first: 0o777564,
        last: 0o777566,
        level: Priority::Level4,
        vector: 0o64,
    },
    reader: Device {
        first: 0o777550,
        last: 0o777552,
        level: Priority::Level4,
        vector: 0o70,
    },
    punch: Device {
        first: 0o777554,
        last: 0o777556,
        level: Priority::Level4,
        vector: 0o74,
    },
    clock: Device {
        first: 0o777546,
        last: 0o777546,
        level: Priority::Level6,
        vector: 0o100,
    },
    disk: Device {
        first: 0o777400,
        last: 0o777412,
        level: Priority::Level5,
        vector: 0o220,
    },
};
