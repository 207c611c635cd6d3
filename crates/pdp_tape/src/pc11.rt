ghost use Rattle.std.specs.Prelude.{◌≡◌, ◌↔◌, true};

use super::Reader;
use pdp_device::{Transmitter, TransmitterRegister};

/// A register of the paper tape's reader and punch.
///
/// PDP-11 Peripherals Handbook, PC11.
#[derive(Clone, Copy)]
pub enum Pc11Register {
    /// PRS: bit 15 error, bit 11 busy, bit 7 done, bit 6 enable, bit 0 go. Enable and go alone are
    /// written.
    ReaderStatus,
    /// PRB: the last byte read, or 0 once go has begun a new one. A read clears done; a write does
    /// nothing [6.43].
    ReaderBuffer,
    /// PPS: bit 7 ready, bit 6 enable, which alone is written. Bit 15, error, is always 0 [6.46].
    PunchStatus,
    /// PPB: a write clears ready and begins to punch its low byte. Reads 0 [6.47].
    PunchBuffer,
}

impl Pc11Register {
    ghost use Rattle.pdp_tape.specs.Pc11.{pc11_register_at};

    /// The register `offset` bytes after the first one, if there is one.
    pub fn at(offset: u32) -> Option<Pc11Register>
        ensures { result ≡ pc11_register_at offset }
    {
        match offset {
            0 => Some(Pc11Register::ReaderStatus),
            2 => Some(Pc11Register::ReaderBuffer),
            4 => Some(Pc11Register::PunchStatus),
            6 => Some(Pc11Register::PunchBuffer),
            _ => None,
        }
    }
}

/// The paper tape: its reader and its punch.
///
/// PDP-11 Peripherals Handbook, PC11.
#[derive(Clone, Copy)]
pub struct Pc11 {
    /// What reads the tape.
    pub reader: Reader,
    /// What punches another.
    pub punch: Transmitter,
}

impl Pc11 {
    ghost use Rattle.pdp_tape.specs.Pc11.{pc11_punch_completed, pc11_punched, pc11_read};
    ghost use Rattle.pdp_tape.specs.Pc11.{pc11_reader_completed, pc11_reset};
    ghost use Rattle.pdp_tape.specs.Pc11.{init_pc11, pc11_value, pc11_written, punch_served};
    ghost use Rattle.pdp_tape.specs.Pc11.{reader_served};

    /// Whether both are the same in all.
    pub fn is_same(&self, other: &Pc11) -> bool
        ensures { (result ≡ true) ↔ (self.now ≡ other.now) }
    {
        self.reader.is_same(&other.reader) && self.punch.is_same(&other.punch)
    }

    /// Reader and punch at power-up: as after RESET, with both buffers 0 [7.7].
    pub fn init() -> Pc11
        ensures { result ≡ init_pc11 }
    {
        Pc11 {
            reader: Reader::init(),
            punch: Transmitter::init(),
        }
    }

    /// What a read of the register gives, without the effect of a read.
    #[inline(always)]
    pub fn value(&self, register: Pc11Register) -> u16
        ensures { result ≡ pc11_value register self.now }
    {
        match register {
            Pc11Register::ReaderStatus => self.reader.status(),
            Pc11Register::ReaderBuffer => u16::from(self.reader.byte),
            Pc11Register::PunchStatus => self.punch.value(TransmitterRegister::Status),
            Pc11Register::PunchBuffer => self.punch.value(TransmitterRegister::Buffer),
        }
    }

    /// A read of the register.
    pub fn read_reg(&mut self, register: Pc11Register) -> u16
        ensures value { result ≡ pc11_value register self.old }
        ensures after { self.new ≡ pc11_read register self.old }
    {
        match register {
            Pc11Register::ReaderBuffer => u16::from(self.reader.read_buffer()),
            _ => self.value(register),
        }
    }

    /// Writes a word to the register in turn `turn`. A byte is read `reader_delay` turns later, or
    /// punched `punch_delay` turns later; with delay 0 only its event completes it [6.56].
    pub fn write_reg(
        &mut self,
        register: Pc11Register,
        word: u16,
        turn: u32,
        reader_delay: u32,
        punch_delay: u32,
    )
        ensures { self.new ≡ pc11_written register word turn reader_delay punch_delay self.old }
    {
        match register {
            Pc11Register::ReaderStatus => self.reader.write_status(word, turn, reader_delay),
            Pc11Register::ReaderBuffer => {}
            Pc11Register::PunchStatus => self
                .punch
                .write_reg(TransmitterRegister::Status, word, turn, punch_delay),
            Pc11Register::PunchBuffer => self
                .punch
                .write_reg(TransmitterRegister::Buffer, word, turn, punch_delay),
        }
    }

    /// The read that is under way is over, with the next byte of the tape, if there is one: the
    /// byte is in the buffer and done is set, else error is set. If none is under way, nothing
    /// happens [6.58].
    pub fn complete_reader(&mut self, next: Option<u8>)
        ensures { self.new ≡ pc11_reader_completed next self.old }
    {
        self.reader.complete(next);
    }

    /// The byte that is being punched is out, and the punch is ready again. Gives the byte; if
    /// none is being punched, nothing happens [6.58].
    pub fn complete_punch(&mut self) -> Option<u8>
        ensures byte { result ≡ pc11_punched self.old }
        ensures after { self.new ≡ pc11_punch_completed self.old }
    {
        self.punch.complete()
    }

    /// The reader's request is served: it goes, and nothing else changes. The next one appears
    /// if its condition has become false and true again, or at a go that finds error
    /// [6.62] [6.106].
    pub fn serve_reader(&mut self)
        ensures { self.new ≡ reader_served self.old }
    {
        self.reader.serve();
    }

    /// The punch's request is served: it goes, and nothing else changes. The next one appears if
    /// ready or enable was cleared and both are set again [6.106].
    pub fn serve_punch(&mut self)
        ensures { self.new ≡ punch_served self.old }
    {
        self.punch.serve();
    }

    /// RESET: the reader has nothing set, error too, the punch is ready, neither is enabled or
    /// requests, and bytes that are being read or punched are dropped. The buffers stay [6.108].
    pub fn reset(&mut self)
        ensures { self.new ≡ pc11_reset self.old }
    {
        self.reader.reset();
        self.punch.reset();
    }
}
