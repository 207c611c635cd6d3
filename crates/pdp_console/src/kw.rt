ghost use Rattle.std.specs.Prelude.{◌≡◌, ◌↔◌, true};

use crate::bits::{LKS_ENABLE, LKS_MONITOR};
use pdp_word::{bit_of, is_set};

/// The line clock, with its one register LKS.
///
/// PDP-11 Peripherals Handbook, KW11-L.
#[derive(Clone, Copy, PartialEq, Eq)]
pub struct Kw {
    /// Bit 7: the clock has ticked, or was initialised, since this was last cleared.
    pub monitor: bool,
    /// Bit 6: ticks request an interrupt.
    pub enable: bool,
    /// It requests an interrupt. A tick requests if enable is set; a request goes when it is
    /// served, by RESET, and by a write with bit 6 clear [6.107].
    pub request: bool,
}

impl Kw {
    ghost use Rattle.pdp_console.specs.Kw.{kw_served, kw_value, kw_written, init_kw, kw_ticked};

    /// Whether both are the same in all.
    pub fn is_same(&self, other: &Kw) -> bool
        ensures { (result ≡ true) ↔ (self.now ≡ other.now) }
    {
        self == other
    }

    /// A clock at power-up and after RESET: monitor is set, enable is clear, and there is no
    /// request.
    pub fn init() -> Kw
        ensures { result ≡ init_kw }
    {
        Kw {
            monitor: true,
            enable: false,
            request: false,
        }
    }

    /// What a read of LKS gives: bit 7 monitor, bit 6 enable. A read has no effect.
    pub fn value(&self) -> u16
        ensures { result ≡ kw_value self.now }
    {
        bit_of(self.monitor) * LKS_MONITOR + bit_of(self.enable) * LKS_ENABLE
    }

    /// A write of a word to LKS: bit 6 is enable, and a clear bit 7 clears monitor. With bit 6
    /// clear a request is dropped [6.107].
    pub fn write_reg(&mut self, word: u16)
        ensures { self.new ≡ kw_written word self.old }
    {
        let enable = is_set(LKS_ENABLE, word);
        *self = Kw {
            monitor: self.monitor && is_set(LKS_MONITOR, word),
            enable,
            request: self.request && enable,
        };
    }

    /// The clock ticks: monitor is set, and if enable is set it requests an interrupt.
    pub fn tick(&mut self)
        ensures { self.new ≡ kw_ticked self.old }
    {
        self.monitor = true;
        self.request = self.request || self.enable;
    }

    /// The request is served: it goes, and nothing else changes.
    pub fn serve(&mut self)
        ensures { self.new ≡ kw_served self.old }
    {
        self.request = false;
    }

    /// RESET: monitor is set, enable is cleared and a request is dropped.
    pub fn reset(&mut self)
        ensures { self.new ≡ init_kw }
    {
        *self = Kw::init();
    }
}
