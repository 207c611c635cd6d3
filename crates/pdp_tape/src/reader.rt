ghost use Rattle.std.specs.Prelude.{◌≡◌, ◌↔◌, false, true};

use crate::bits::{PRS_BUSY, PRS_DONE, PRS_ENABLE, PRS_ERROR, PRS_GO};
use pdp_device::{Operation, request_after};
use pdp_word::{bit_of, is_set};

/// The paper tape reader.
///
/// PDP-11 Peripherals Handbook, PC11.
#[derive(Clone, Copy)]
pub struct Reader {
    /// Bit 15 of the status: a read found no byte. RESET alone clears it [6.64].
    pub error: bool,
    /// Bit 7 of the status: a byte has come since the buffer was last read or a read of a new one
    /// began.
    pub done: bool,
    /// Bit 6 of the status: its interrupts are enabled.
    pub enable: bool,
    /// It requests an interrupt. A request appears if enable and one of error and done come to
    /// be set, and at a go that finds error and leaves enable set; it goes when it is served or
    /// if they are not set any more [6.62] [6.106].
    pub request: bool,
    /// The last byte read, or 0 once a read of a new one began.
    pub byte: u8,
    /// Reading a byte: bit 11 of the status, busy.
    pub operation: Operation,
}

impl Reader {
    ghost use Rattle.pdp_tape.specs.Reader.{buffer_read, reader_after_go, reader_wants_interrupt};
    ghost use Rattle.pdp_tape.specs.Reader.{init_reader, reader_completed};
    ghost use Rattle.pdp_tape.specs.Reader.{reader_reset, reader_status, reader_with};
    ghost use Rattle.pdp_tape.specs.Reader.{reader_status_written};

    /// Whether both are the same in all.
    pub fn is_same(&self, other: &Reader) -> bool
        ensures { (result ≡ true) ↔ (self.now ≡ other.now) }
    {
        if self.error != other.error || self.done != other.done || self.enable != other.enable {
            return false;
        }
        if self.request != other.request || self.byte != other.byte {
            return false;
        }
        self.operation.is_same(&other.operation)
    }

    /// A reader at power-up: nothing set, with byte 0 and nothing under way [7.7].
    pub fn init() -> Reader
        ensures { result ≡ init_reader }
    {
        Reader {
            error: false,
            done: false,
            enable: false,
            request: false,
            byte: 0,
            operation: Operation::Idle,
        }
    }

    /// The status: bit 15 error, bit 11 busy, bit 7 done, bit 6 enable. Bit 0, go, reads 0.
    pub fn status(&self) -> u16
        ensures { result ≡ reader_status self.now }
    {
        let busy = self.operation.is_under_way();
        bit_of(self.error) * PRS_ERROR
            + bit_of(busy) * PRS_BUSY
            + bit_of(self.done) * PRS_DONE
            + bit_of(self.enable) * PRS_ENABLE
    }

    /// Writes a word to the status in turn `turn`: bit 6 is enable, and bit 0 is go. Go clears done
    /// and the byte, and begins to read a byte, which is there `delay` turns later; with delay 0
    /// only its event completes it. While busy go does nothing. With error set it begins nothing,
    /// and requests an interrupt if bit 6 is set [6.61] [6.62] [6.63].
    pub fn write_status(&mut self, word: u16, turn: u32, delay: u32)
        ensures { self.new ≡ reader_status_written word turn delay self.old }
    {
        let enable = is_set(PRS_ENABLE, word);
        if self.operation.is_under_way() || !is_set(PRS_GO, word) {
            self.change(self.error, self.done, enable);
        } else {
            self.go(enable, turn, delay);
        }
    }

    /// A read of the buffer gives the byte, and clears done.
    pub fn read_buffer(&mut self) -> u8
        ensures byte { result ≡ self.old.byte }
        ensures after { self.new ≡ buffer_read self.old }
    {
        self.change(self.error, false, self.enable);
        self.byte
    }

    /// The read that is under way is over, with the next byte of the tape, if there is one: the
    /// byte is in the buffer and done is set, else error is set. If none is under way, nothing
    /// happens [6.58].
    pub fn complete(&mut self, next: Option<u8>)
        ensures { self.new ≡ reader_completed next self.old }
    {
        if !self.operation.is_under_way() {
            return;
        }
        self.operation = Operation::Idle;
        match next {
            Some(byte) => {
                self.byte = byte;
                self.change(self.error, true, self.enable);
            }
            None => self.change(true, self.done, self.enable),
        }
    }

    /// RESET: error, done and enable are cleared, a request and what is under way are dropped. The
    /// byte stays [6.108].
    pub fn reset(&mut self)
        ensures { self.new ≡ reader_reset self.old }
    {
        *self = Reader {
            byte: self.byte,
            ..Reader::init()
        };
    }

    /// The request is served: it goes, and nothing else changes.
    pub fn serve(&mut self)
        ensures { self.new ≡ record self.old { request = false } }
    {
        self.request = false;
    }

    /// Whether its condition holds: enable, and one of error and done.
    fn wants_interrupt(&self) -> bool
        ensures { result ≡ reader_wants_interrupt self.now }
    {
        (self.error || self.done) && self.enable
    }

    /// Sets the three flags at once. A request appears if the condition didn't hold before and
    /// holds after; it ends if the condition doesn't hold after.
    fn change(&mut self, error: bool, done: bool, enable: bool)
        ensures { self.new ≡ reader_with error done enable self.old }
    {
        let after = (error || done) && enable;
        *self = Reader {
            error,
            done,
            enable,
            request: request_after(self.wants_interrupt(), after, self.request),
            ..*self
        };
    }

    /// Go, if nothing is under way: with error set it requests if the write sets enable, else
    /// it begins to read.
    fn go(&mut self, enable: bool, turn: u32, delay: u32)
        ensures { self.new ≡ reader_after_go enable turn delay self.old }
    {
        if self.error {
            self.request = enable;
            self.enable = enable;
        } else {
            self.change(false, false, enable);
            self.byte = 0;
            self.operation = Operation::begin(turn, delay);
        }
    }
}
