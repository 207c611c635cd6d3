ghost use Rattle.std.specs.Prelude.{◌≡◌, ◌↔◌, true};
ghost use Rattle.pdp_io_page.specs.Handbook.Delays.{standard_delays, with_delay};

/// A device whose delay can be set [6.57].
#[derive(Clone, Copy)]
pub enum DelayedDevice {
    /// The console terminal's printer.
    Printer,
    /// The paper tape reader.
    Reader,
    /// The paper tape punch.
    Punch,
    /// The disk.
    Disk,
    /// The line clock; its delay is the period of its ticks.
    Clock,
}

/// How many turns after it began an operation of each device completes: 0 says by an event alone.
/// Of the clock it is the period: with p above 0 it ticks in the turns p, 2p and so on, with 0 by
/// events alone [6.56] [8.1].
#[derive(Clone, Copy)]
pub struct Delays {
    pub printer: u32,
    pub reader: u32,
    pub punch: u32,
    pub disk: u32,
    /// The period of the line clock, in turns.
    pub clock: u32,
}

impl Delays {
    /// Whether both are the same in all.
    pub fn is_same(&self, other: &Delays) -> bool
        ensures { (result ≡ true) ↔ (self.now ≡ other.now) }
    {
        if self.printer != other.printer || self.reader != other.reader {
            return false;
        }
        if self.punch != other.punch || self.disk != other.disk {
            return false;
        }
        self.clock == other.clock
    }

    /// The delays of a machine for which none is given: printer 1, reader 4, punch 4, disk 10, and
    /// no tick of the clock but by events [P].
    pub fn standard() -> Delays
        ensures { result ≡ standard_delays }
    {
        Delays {
            printer: 1,
            reader: 4,
            punch: 4,
            disk: 10,
            clock: 0,
        }
    }

    /// These delays with that of one device set, in turns.
    pub fn with(self, device: DelayedDevice, delay: u32) -> Delays
        ensures { result ≡ with_delay device delay self }
    {
        match device {
            DelayedDevice::Printer => Delays {
                printer: delay,
                ..self
            },
            DelayedDevice::Reader => Delays {
                reader: delay,
                ..self
            },
            DelayedDevice::Punch => Delays {
                punch: delay,
                ..self
            },
            DelayedDevice::Disk => Delays {
                disk: delay,
                ..self
            },
            DelayedDevice::Clock => Delays {
                clock: delay,
                ..self
            },
        }
    }
}
