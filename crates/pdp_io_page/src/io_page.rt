ghost use Rattle.std.specs.Prelude.{◌≡◌, ◌↔◌, true};
ghost use Rattle.pdp_io_page.specs.Handbook.Reset.{io_page_reset, io_page_at_power_up};
ghost use Rattle.pdp_io_page.specs.Handbook.Register.{value_in, after_byte, after_read};
ghost use Rattle.pdp_io_page.specs.Handbook.Register.{after_write};
ghost use Rattle.pdp_io_page.specs.Handbook.Register.{is_byte_written, word_with_byte};

use crate::delays::Delays;
use crate::register::Register;
use crate::status::Status;
use pdp_console::{Kl, KlRegister, Kw};
use pdp_kt11::Kt;
use pdp_rk11::Rk;
use pdp_tape::{Pc11, Pc11Register};

/// What the bus holds besides the lists of words, the tape and the turn: the program status word,
/// the mapping registers, the devices with their delays, and the switches.
#[derive(Drop)]
pub struct IoPage {
    pub status: Status,
    /// Memory management.
    pub mapping: Kt,
    pub console: Kl,
    /// The line clock.
    pub clock: Kw,
    /// The paper tape reader and punch.
    pub paper_tape: Pc11,
    /// The disk's controller.
    pub disk: Rk,
    /// How long operations take.
    pub delays: Delays,
    /// The switch register.
    pub switches: u16,
}

impl IoPage {
    /// The I/O page as of power-up, with these delays: every bit of the program status word, of the
    /// mapping registers and of the switches 0, and the devices as after RESET [7.2] [7.4] [7.7].
    pub fn at_power_up(delays: Delays) -> IoPage
        ensures { result ≡ io_page_at_power_up delays }
    {
        IoPage {
            status: Status::default(),
            mapping: Kt::at_power_up(),
            console: Kl::init(),
            clock: Kw::init(),
            paper_tape: Pc11::init(),
            disk: Rk::init(),
            delays,
            switches: 0,
        }
    }

    /// The same I/O page, with no translation kept.
    pub fn copy(&self) -> IoPage
        ensures { result ≡ self.now }
    {
        IoPage {
            status: self.status,
            mapping: Kt::over(self.mapping.registers()),
            console: self.console,
            clock: self.clock,
            paper_tape: self.paper_tape,
            disk: self.disk,
            delays: self.delays,
            switches: self.switches,
        }
    }

    /// Whether both are the same in all that a contract sees: which translations are kept counts
    /// for nothing.
    pub fn is_same(&self, other: &IoPage) -> bool
        ensures { (result ≡ true) ↔ (self.now ≡ other.now) }
    {
        if self.switches != other.switches || !self.status.is_same(&other.status) {
            return false;
        }
        if !self.console.is_same(&other.console) || !self.clock.is_same(&other.clock) {
            return false;
        }
        if !self.paper_tape.is_same(&other.paper_tape) || !self.disk.is_same(&other.disk) {
            return false;
        }
        if !self.mapping.is_same(&other.mapping) {
            return false;
        }
        self.delays.is_same(&other.delays)
    }

    /// What a read of the register gives, with so many drives on the disk, without the effect of a
    /// read.
    #[inline(always)]
    #[tactic(auto, unfolding(crate::specs::Handbook::Register::value_in))]
    pub fn value(&self, register: Register, drives: usize) -> u16
        ensures { result ≡ value_in register drives self.now }
    {
        match register {
            Register::Console(register) => self.console.value(register),
            Register::Clock => self.clock.value(),
            Register::PaperTape(register) => self.paper_tape.value(register),
            Register::Disk(register) => self.disk.read_reg(register, drives),
            Register::Switches => self.switches,
            Register::Mapping(register) => self.mapping.read_reg(register),
            Register::ProgramStatus => self.status.word(),
        }
    }

    /// A read of the register, with so many drives on the disk.
    #[tactic(auto, unfolding(crate::specs::value_in, crate::specs::after_read))]
    pub fn read(&mut self, register: Register, drives: usize) -> u16
        ensures value { result ≡ value_in register drives self.old }
        ensures after { self.new ≡ after_read register self.old }
    {
        match register {
            Register::Console(register) => self.console.read_reg(register),
            Register::Clock => self.clock.value(),
            Register::PaperTape(register) => self.paper_tape.read_reg(register),
            Register::Disk(register) => self.disk.read_reg(register, drives),
            Register::Switches => self.switches,
            Register::Mapping(register) => self.mapping.read_reg(register),
            Register::ProgramStatus => self.status.word(),
        }
    }

    /// A write of a word to the register, in this turn.
    #[tactic(auto, unfolding(crate::specs::Handbook::Register::after_write))]
    pub fn write(&mut self, register: Register, word: u16, turn: u32)
        ensures { self.new ≡ after_write register word turn self.old }
    {
        match register {
            Register::Console(register) => {
                self.console
                    .write_reg(register, word, turn, self.delays.printer)
            }
            Register::Clock => self.clock.write_reg(word),
            Register::PaperTape(register) => {
                let Delays { reader, punch, .. } = self.delays;
                self.paper_tape
                    .write_reg(register, word, turn, reader, punch)
            }
            Register::Disk(register) => {
                self.disk.write_reg(register, word, turn, self.delays.disk)
            }
            Register::Switches => {}
            Register::Mapping(register) => self.mapping.write_reg(register, word),
            Register::ProgramStatus => self.status = self.status.written(word),
        }
    }

    /// A write of a byte to the register, at an address in its word, in this turn, with so many
    /// drives: the other half is written as a read would give it, without the effect of a read. At
    /// the odd address of the printer's and the punch's buffer it does nothing. [6.30] [6.32]
    #[tactic(auto, unfolding(crate::specs::Handbook::Register::after_byte))]
    pub fn write_byte(
        &mut self,
        register: Register,
        drives: usize,
        address: u32,
        byte: u8,
        turn: u32,
    )
        ensures { self.new ≡ after_byte register drives address byte turn self.old }
    {
        if is_byte_written(register, address) {
            let word = with_byte(self.value(register, drives), address, byte);
            self.write(register, word, turn);
        }
    }

    /// RESET of all devices and of SR0, so mapping is off. The program status, the pages, SR2, the
    /// delays, the switches and which drives are locked stay.
    #[tactic(auto, unfolding(crate::specs::Handbook::Reset::io_page_reset))]
    pub fn reset(&mut self)
        ensures { self.new ≡ io_page_reset self.old }
    {
        self.mapping.reset();
        self.console.reset();
        self.clock.reset();
        self.paper_tape.reset();
        self.disk.reset();
    }
}

/// Whether a write of a byte at this address of the register does anything.
fn is_byte_written(register: Register, address: u32) -> bool
    ensures { result ≡ is_byte_written register address }
{
    match register {
        Register::Console(KlRegister::PrinterBuffer)
        | Register::PaperTape(Pc11Register::PunchBuffer) => address % 2 == 0,
        _ => true,
    }
}

/// The word with the byte of this address replaced: the even address is the low half.
#[inline(always)]
pub fn with_byte(word: u16, address: u32, byte: u8) -> u16
    ensures { result ≡ word_with_byte word address byte }
{
    let byte = u16::from(byte);
    if address % 2 == 0 {
        word - word % 256 + byte
    } else {
        byte * 256 + word % 256
    }
}
