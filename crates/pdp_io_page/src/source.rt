ghost use Rattle.std.specs.Prelude.{◌≡◌};

use crate::device_table::{DEVICES, Device};
use crate::priority::Priority;

/// What can interrupt the processor.
///
/// PDP-11 Peripherals Handbook, KL11, KW11-L, PC11 and RK11.
#[derive(Clone, Copy)]
pub enum Source {
    /// The console terminal's keyboard.
    Keyboard,
    /// The console terminal's printer.
    Printer,
    /// The paper tape reader.
    Reader,
    /// The paper tape punch.
    Punch,
    /// The line clock.
    Clock,
    /// The disk.
    Disk,
}

impl Source {
    ghost use Rattle.pdp_io_page.specs.Handbook.Source.{level_of, vector_of};

    /// The source's device.
    fn device(self) -> Device
        ensures level { result.level ≡ level_of self }
        ensures vector { result.vector ≡ vector_of self }
    {
        match self {
            Source::Keyboard => DEVICES.keyboard,
            Source::Printer => DEVICES.printer,
            Source::Reader => DEVICES.reader,
            Source::Punch => DEVICES.punch,
            Source::Clock => DEVICES.clock,
            Source::Disk => DEVICES.disk,
        }
    }

    /// The level at which the source requests: 6 the clock, 5 the disk, 4 the others.
    pub fn level(self) -> Priority
        ensures { result ≡ level_of self }
    {
        self.device().level
    }

    /// The source's vector: the address in kernel space (bytes) of the new PC, with the new program
    /// status word after it.
    pub fn vector(self) -> u16
        ensures { result ≡ vector_of self }
    {
        self.device().vector
    }
}
