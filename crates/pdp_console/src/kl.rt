ghost use Rattle.std.specs.Prelude.{◌≡◌, ◌↔◌, true};

use super::Keyboard;
use pdp_device::{Transmitter, TransmitterRegister};

/// A register of the console terminal.
///
/// PDP-11 Peripherals Handbook, KL11.
#[derive(Clone, Copy)]
pub enum KlRegister {
    /// TKS: bit 7 done, bit 6 enable, which alone is written.
    KeyboardStatus,
    /// TKB: the last key. A read clears done; a write does nothing [6.45].
    KeyboardBuffer,
    /// TPS: bit 7 ready, bit 6 enable, which alone is written.
    PrinterStatus,
    /// TPB: a write clears ready and begins to print its low byte. Reads 0 [6.47].
    PrinterBuffer,
}

impl KlRegister {
    ghost use Rattle.pdp_console.specs.Kl.{kl_register_at};

    /// The register so many bytes from the first one, if there is one.
    pub fn at(offset: u32) -> Option<KlRegister>
        ensures { result ≡ kl_register_at offset }
    {
        match offset {
            0 => Some(KlRegister::KeyboardStatus),
            2 => Some(KlRegister::KeyboardBuffer),
            4 => Some(KlRegister::PrinterStatus),
            6 => Some(KlRegister::PrinterBuffer),
            _ => None,
        }
    }
}

/// The console terminal: its keyboard and its printer.
///
/// PDP-11 Peripherals Handbook, KL11.
#[derive(Clone, Copy)]
pub struct Kl {
    /// What is typed.
    pub keyboard: Keyboard,
    /// What is printed.
    pub printer: Transmitter,
}

impl Kl {
    ghost use Rattle.pdp_console.specs.Kl.{keyboard_served, kl_completed, kl_printed, kl_read};
    ghost use Rattle.pdp_console.specs.Kl.{kl_reset, kl_value};
    ghost use Rattle.pdp_console.specs.Kl.{kl_written, printer_served, init_kl, kl_struck};

    /// Whether both are the same in all.
    pub fn is_same(&self, other: &Kl) -> bool
        ensures { (result ≡ true) ↔ (self.now ≡ other.now) }
    {
        self.keyboard.is_same(&other.keyboard) && self.printer.is_same(&other.printer)
    }

    /// A console terminal at power-up: as after RESET, with both buffers 0 [7.7].
    pub fn init() -> Kl
        ensures { result ≡ init_kl }
    {
        Kl {
            keyboard: Keyboard::init(),
            printer: Transmitter::init(),
        }
    }

    /// A key is struck: its byte is in the buffer, and done is set. A key that comes while done is
    /// set replaces the byte [6.54].
    pub fn key(&mut self, key: u8)
        ensures { self.new ≡ kl_struck self.old key }
    {
        self.keyboard.strike(key);
    }

    /// What a read of the register gives, without the effect of a read.
    #[inline(always)]
    pub fn value(&self, register: KlRegister) -> u16
        ensures { result ≡ kl_value register self.now }
    {
        match register {
            KlRegister::KeyboardStatus => self.keyboard.ready_enable.status(),
            KlRegister::KeyboardBuffer => u16::from(self.keyboard.key),
            KlRegister::PrinterStatus => self.printer.value(TransmitterRegister::Status),
            KlRegister::PrinterBuffer => self.printer.value(TransmitterRegister::Buffer),
        }
    }

    /// A read of the register.
    pub fn read_reg(&mut self, register: KlRegister) -> u16
        ensures value { result ≡ kl_value register self.old }
        ensures after { self.new ≡ kl_read register self.old }
    {
        match register {
            KlRegister::KeyboardBuffer => u16::from(self.keyboard.take()),
            _ => self.value(register),
        }
    }

    /// Writes a word to the register in turn `turn`. A byte written to the printer buffer is
    /// printed `printer_delay` turns later; with delay 0 only its event completes it [6.56] [6.59].
    pub fn write_reg(&mut self, register: KlRegister, word: u16, turn: u32, printer_delay: u32)
        ensures { self.new ≡ kl_written register word turn printer_delay self.old }
    {
        match register {
            KlRegister::KeyboardStatus => self.keyboard.ready_enable.write_enable(word),
            KlRegister::KeyboardBuffer => {}
            KlRegister::PrinterStatus => self
                .printer
                .write_reg(TransmitterRegister::Status, word, turn, printer_delay),
            KlRegister::PrinterBuffer => self
                .printer
                .write_reg(TransmitterRegister::Buffer, word, turn, printer_delay),
        }
    }

    /// The byte that is being printed is out, and the printer is ready again. Gives the byte; if
    /// none is being printed, nothing happens [6.58].
    pub fn complete(&mut self) -> Option<u8>
        ensures byte { result ≡ kl_printed self.old }
        ensures after { self.new ≡ kl_completed self.old }
    {
        self.printer.complete()
    }

    /// The keyboard's request is served: it goes, and nothing else changes. The next one appears
    /// if done or enable was cleared and both are set again [6.106].
    pub fn serve_keyboard(&mut self)
        ensures { self.new ≡ keyboard_served self.old }
    {
        self.keyboard.ready_enable.serve();
    }

    /// The printer's request is served: it goes, and nothing else changes. The next one appears
    /// if ready or enable was cleared and both are set again [6.106].
    pub fn serve_printer(&mut self)
        ensures { self.new ≡ printer_served self.old }
    {
        self.printer.serve();
    }

    /// RESET: the keyboard is not done, the printer is ready, neither is enabled or requests, and a
    /// byte that is being printed is dropped. The buffers stay [6.108].
    pub fn reset(&mut self)
        ensures { self.new ≡ kl_reset self.old }
    {
        self.keyboard.reset();
        self.printer.reset();
    }
}
