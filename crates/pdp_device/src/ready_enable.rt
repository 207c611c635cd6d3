ghost use Rattle.std.specs.Prelude.{◌≡◌, ◌↔◌, true};

use crate::bits::{STATUS_ENABLE, STATUS_READY};
use crate::request::request_after;
use pdp_word::{bit_of, is_set};

/// Ready, enable and the request of a device that interrupts if ready and enable are both set.
///
/// PDP-11 Peripherals Handbook, KL11, PC11 and RK11.
#[derive(Clone, Copy, PartialEq, Eq, Default)]
pub struct ReadyEnable {
    /// Bit 7 of the status: the device is ready, or done.
    pub ready: bool,
    /// Bit 6 of the status: its interrupts are enabled.
    pub enable: bool,
    /// It requests an interrupt. A request appears if ready and enable are both set and were not
    /// before, and goes when it is served or if they are not both set any more [6.106].
    pub request: bool,
}

impl ReadyEnable {
    ghost use Rattle.pdp_device.specs.ReadyEnable.{ready_enable_served, ready_enable_status};
    ghost use Rattle.pdp_device.specs.ReadyEnable.{ready_enable_with, enable_written};
    ghost use Rattle.pdp_device.specs.ReadyEnable.{wants_interrupt, init_ready_enable, with_ready};

    /// Whether both are the same in all.
    pub fn is_same(&self, other: &ReadyEnable) -> bool
        ensures { (result ≡ true) ↔ (self.now ≡ other.now) }
    {
        self == other
    }

    /// A ready/enable pair as RESET leaves it: ready or not, not enabled, with no request.
    pub fn init(ready: bool) -> ReadyEnable
        ensures { result ≡ init_ready_enable ready }
    {
        ReadyEnable {
            ready,
            enable: false,
            request: false,
        }
    }

    /// Whether its condition holds: ready and enable are both set.
    pub fn wants_interrupt(&self) -> bool
        ensures { result ≡ wants_interrupt self.now }
    {
        self.ready && self.enable
    }

    /// Sets or clears ready and enable, both at once. A request appears if the condition didn't
    /// hold before this change and holds after it; it ends if the condition doesn't hold after it
    /// [6.106].
    pub fn change(&mut self, ready: bool, enable: bool)
        ensures { self.new ≡ ready_enable_with ready enable self.old }
    {
        *self = ReadyEnable {
            ready,
            enable,
            request: request_after(self.wants_interrupt(), ready && enable, self.request),
        };
    }

    /// Sets or clears ready.
    pub fn set_ready(&mut self, ready: bool)
        ensures { self.new ≡ with_ready ready self.old }
    {
        self.change(ready, self.enable);
    }

    /// A write of a word to the status: bit 6 is enable, and nothing else is written.
    pub fn write_enable(&mut self, word: u16)
        ensures { self.new ≡ enable_written word self.old }
    {
        self.change(self.ready, is_set(STATUS_ENABLE, word));
    }

    /// The status: bit 7 ready, bit 6 enable.
    pub fn status(&self) -> u16
        ensures { result ≡ ready_enable_status self.now }
    {
        bit_of(self.ready) * STATUS_READY + bit_of(self.enable) * STATUS_ENABLE
    }

    /// The request is served: it goes, and nothing else changes. The next one appears if ready
    /// or enable was cleared and both are set again [6.106].
    pub fn serve(&mut self)
        ensures { self.new ≡ ready_enable_served self.old }
    {
        self.request = false;
    }
}
