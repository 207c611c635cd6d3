ghost use Rattle.std.specs.Prelude.{◌≡◌, ◌↔◌, true};
ghost use Rattle.pdp_word.specs.Word.{low_byte};

use super::{Operation, ReadyEnable};
use pdp_word::low_byte;

/// A register of a transmitter.
///
/// PDP-11 Peripherals Handbook, KL11 and PC11.
#[derive(Clone, Copy)]
pub enum TransmitterRegister {
    /// Bit 7 ready, bit 6 enable, which alone is written.
    Status,
    /// A write clears ready and begins to put its low byte out. Reads 0 [6.47].
    Buffer,
}

/// What puts bytes out one by one: the printer, or the punch.
///
/// PDP-11 Peripherals Handbook, KL11 and PC11.
#[derive(Clone, Copy)]
pub struct Transmitter {
    /// Ready if no byte is on its way.
    pub ready_enable: ReadyEnable,
    /// The byte that was written last.
    pub byte: u8,
    /// Putting that byte out.
    pub operation: Operation,
}

impl Transmitter {
    ghost use Rattle.pdp_device.specs.ReadyEnable.{ready_enable_served};
    ghost use Rattle.pdp_device.specs.Transmitter.{byte_out, byte_written, transmitter_completed};
    ghost use Rattle.pdp_device.specs.Transmitter.{transmitter_reset, transmitter_served};
    ghost use Rattle.pdp_device.specs.Transmitter.{transmitter_value, transmitter_written};
    ghost use Rattle.pdp_device.specs.Transmitter.{init_transmitter};

    /// Whether both are the same in all.
    pub fn is_same(&self, other: &Transmitter) -> bool
        ensures { (result ≡ true) ↔ (self.now ≡ other.now) }
    {
        if self.byte != other.byte || !self.ready_enable.is_same(&other.ready_enable) {
            return false;
        }
        self.operation.is_same(&other.operation)
    }

    /// A transmitter at power-up: ready, not enabled, with byte 0 and nothing under way [7.7].
    pub fn init() -> Transmitter
        ensures { result ≡ init_transmitter }
    {
        Transmitter {
            ready_enable: ReadyEnable::init(true),
            byte: 0,
            operation: Operation::Idle,
        }
    }

    /// What a read of the register gives. A read has no effect.
    pub fn value(&self, register: TransmitterRegister) -> u16
        ensures { result ≡ transmitter_value register self.now }
    {
        match register {
            TransmitterRegister::Status => self.ready_enable.status(),
            TransmitterRegister::Buffer => 0,
        }
    }

    /// Writes a word to the register in turn `turn`. A byte written to the buffer is out `delay`
    /// turns later; with delay 0 only its event completes it [6.56] [6.59].
    pub fn write_reg(&mut self, register: TransmitterRegister, word: u16, turn: u32, delay: u32)
        ensures { self.new ≡ transmitter_written register word turn delay self.old }
    {
        match register {
            TransmitterRegister::Status => self.ready_enable.write_enable(word),
            TransmitterRegister::Buffer => self.write_byte(low_byte(word), turn, delay),
        }
    }

    /// The byte that is on its way is out, and the transmitter is ready again. Gives the byte;
    /// without one on its way, nothing happens [6.58].
    pub fn complete(&mut self) -> Option<u8>
        ensures byte { result ≡ byte_out self.old }
        ensures after { self.new ≡ transmitter_completed self.old }
    {
        if self.operation.is_under_way() {
            self.ready_enable.set_ready(true);
            self.operation = Operation::Idle;
            Some(self.byte)
        } else {
            None
        }
    }

    /// RESET: ready, not enabled, no request, nothing under way. The byte stays, and does not come
    /// out [6.108].
    pub fn reset(&mut self)
        ensures { self.new ≡ transmitter_reset self.old }
    {
        *self = Transmitter {
            byte: self.byte,
            ..Transmitter::init()
        };
    }

    /// The request is served: it goes, and nothing else changes.
    pub fn serve(&mut self)
        ensures { self.new ≡ transmitter_served self.old }
    {
        self.ready_enable.serve();
    }

    /// A byte begins to go out. One that comes while another is on its way replaces it, and is due
    /// when that one was.
    fn write_byte(&mut self, byte: u8, turn: u32, delay: u32)
        ensures { self.new ≡ byte_written byte turn delay self.old }
    {
        if !self.operation.is_under_way() {
            self.ready_enable.set_ready(false);
            self.operation = Operation::begin(turn, delay);
        }
        self.byte = byte;
    }
}
