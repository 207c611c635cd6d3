ghost use Rattle.std.specs.Prelude.{◌≡◌, ◌<◌, ◌↔◌, true};
ghost use Rattle.pdp_word.specs.Bits.{field};

use super::{Failure, Function, RkRegister};
use crate::bits::{
    RKCS_ADDRESS, RKCS_ENABLE, RKCS_ERROR, RKCS_FUNCTION, RKCS_GO, RKCS_HARD_ERROR,
    RKCS_NO_INCREMENT, RKCS_SEARCH_COMPLETE, RKDS_HEADS_READY, RKDS_READY, RKDS_RK05,
    RKDS_SECTOR_COUNTER, RKDS_WRITE_LOCKED,
};
use crate::geometry::{ADDRESS_BIT_16, drive_in};
use pdp_device::{Operation, ReadyEnable};
use pdp_word::{bit_of, field, is_set};

/// The RK11 controller.
///
/// PDP-11 Peripherals Handbook, RK11.
#[derive(Clone, Copy)]
pub struct Rk {
    /// Ready if no function is under way.
    pub ready_enable: ReadyEnable,
    /// The function that was written last.
    pub function: Function,
    /// Bit 11 of RKCS: the bus address isn't incremented.
    pub no_increment: bool,
    /// Bit 13 of RKCS: a seek or a drive reset is done.
    pub search_complete: bool,
    /// Bit 0 of RKER: a write check found words that differ.
    pub write_check: bool,
    /// The other bits of RKER: at most one failure is shown.
    pub failure: Option<Failure>,
    /// RKWC.
    pub word_count: u16,
    /// The bus address (bytes): RKBA, and bits 17-16 from RKCS above it.
    pub address: u32,
    /// RKDA.
    pub disk_address: u16,
    /// Which of the eight drives are locked against writing.
    pub locked: [bool; 8],
    /// The function that is under way.
    pub operation: Operation,
}

/// A word that is written to RKCS in a turn, and how many turns a function takes then.
#[derive(Clone, Copy)]
pub struct ControlWrite {
    pub word: u16,
    pub turn: u32,
    pub delay: u32,
}

impl Rk {
    ghost use Rattle.pdp_rk11.specs.Handbook.Geometry.{drive_in};
    ghost use Rattle.pdp_rk11.specs.Handbook.Rk.{begun_function, rk_commanded, control_word};
    ghost use Rattle.pdp_rk11.specs.Handbook.Rk.{control_written, drive_status};
    ghost use Rattle.pdp_rk11.specs.Handbook.Rk.{error_word, function_of, gone_with, is_locked};
    ghost use Rattle.pdp_rk11.specs.Handbook.Rk.{init_rk};
    ghost use Rattle.pdp_rk11.specs.Handbook.Rk.{rk_reset, rk_served, rk_value};
    ghost use Rattle.pdp_rk11.specs.Handbook.Rk.{rk_written, with_command};

    /// Whether the controllers are the same in all.
    pub fn is_same(&self, other: &Rk) -> bool
        ensures { (result ≡ true) ↔ (self.now ≡ other.now) }
    {
        if !self.ready_enable.is_same(&other.ready_enable) || self.function != other.function {
            return false;
        }
        if self.no_increment != other.no_increment
            || self.search_complete != other.search_complete
            || self.write_check != other.write_check
        {
            return false;
        }
        if !is_same_failure(self.failure, other.failure) || self.word_count != other.word_count {
            return false;
        }
        if self.address != other.address || self.disk_address != other.disk_address {
            return false;
        }
        if !are_same_locks(&self.locked, &other.locked) {
            return false;
        }
        self.operation.is_same(&other.operation)
    }

    /// The controller at power-up: as after RESET, with no drive locked [7.6] [7.7].
    pub fn init() -> Rk
        ensures { result ≡ init_rk }
    {
        Rk {
            ready_enable: ReadyEnable::init(true),
            function: Function::ControlReset,
            no_increment: false,
            search_complete: false,
            write_check: false,
            failure: None,
            word_count: 0,
            address: 0,
            disk_address: 0,
            locked: [false; 8],
            operation: Operation::Idle,
        }
    }

    /// What a read of the register gives, with `drives` drives, numbered from 0 on. A read has no
    /// effect.
    ///
    /// PDP-11 Peripherals Handbook, RK11; that RKDS has no other bits, and is 0 for a drive that
    /// isn't there [6.35].
    pub fn read_reg(&self, register: RkRegister, drives: usize) -> u16
        ensures { result ≡ rk_value register drives self.now }
    {
        match register {
            RkRegister::DriveStatus => self.drive_status(drives),
            RkRegister::Error => self.error_word(),
            RkRegister::Control => self.control_word(),
            RkRegister::WordCount => self.word_count,
            RkRegister::BusAddress => (self.address % ADDRESS_BIT_16) as u16,
            RkRegister::DiskAddress => self.disk_address,
        }
    }

    /// Writes a word to the register in turn `turn`. A function is complete `delay` turns later;
    /// with delay 0 only its event completes it. While the controller isn't ready, a write to RKCS
    /// sets or clears enable, and no write does anything else. Control reset acts at once, and
    /// drops the enable that is written with it.
    ///
    /// PDP-11 Peripherals Handbook, RK11; how long a function takes, what a write does while the
    /// controller isn't ready, and that control reset acts at once [6.68] [6.70].
    #[tactic(auto, unfolding(crate::specs::Handbook::Rk::rk_written))]
    pub fn write_reg(&mut self, register: RkRegister, word: u16, turn: u32, delay: u32)
        ensures { self.new ≡ rk_written register word turn delay self.old }
    {
        match register {
            RkRegister::DriveStatus | RkRegister::Error => {}
            RkRegister::Control => self.write_control(ControlWrite { word, turn, delay }),
            RkRegister::WordCount => {
                if self.ready_enable.ready {
                    self.word_count = word;
                }
            }
            RkRegister::BusAddress => {
                if self.ready_enable.ready {
                    let high = self.address / ADDRESS_BIT_16 % 4;
                    self.address = high * ADDRESS_BIT_16 + u32::from(word);
                }
            }
            RkRegister::DiskAddress => {
                if self.ready_enable.ready {
                    self.disk_address = word;
                }
            }
        }
    }

    /// RESET, and control reset: ready, not enabled, no request, nothing under way, no error, and
    /// word count, bus address and disk address 0. Drives that are locked stay so.
    ///
    /// PDP-11 Peripherals Handbook, RK11; that the locks stay [6.101].
    pub fn reset(&mut self)
        ensures { self.new ≡ rk_reset self.old }
    {
        *self = Rk {
            locked: self.locked,
            ..Rk::init()
        };
    }

    /// Whether it requests an interrupt.
    pub fn request(&self) -> bool
        ensures { result ≡ self.now.ready_enable.request }
    {
        self.ready_enable.request
    }

    /// The request is served: it goes, and nothing else changes. The next one appears if ready or
    /// enable was cleared and both are set again [6.106].
    pub fn serve(&mut self)
        ensures { self.new ≡ rk_served self.old }
    {
        self.ready_enable.serve();
    }

    /// The number of the drive that RKDA names, 0 to 7.
    ///
    /// PDP-11 Peripherals Handbook, RK11.
    pub fn drive(&self) -> usize
        ensures value { result ≡ drive_in self.now.disk_address }
        ensures fits { result < 8 }
    {
        usize::from(drive_in(self.disk_address))
    }

    /// Whether the drive that RKDA names is locked.
    pub(crate) fn is_locked(&self) -> bool
        ensures { result ≡ is_locked self.now }
    {
        self.locked[self.drive()]
    }

    fn drive_status(&self, drives: usize) -> u16
        ensures { result ≡ drive_status drives self.now }
    {
        if self.drive() < drives {
            let there = RKDS_RK05 + RKDS_SECTOR_COUNTER + RKDS_READY + RKDS_HEADS_READY;
            there + bit_of(self.is_locked()) * RKDS_WRITE_LOCKED
        } else {
            0
        }
    }

    /// RKER: the bit of the failure, and bit 0 if a write check found words that differ.
    ///
    /// PDP-11 Peripherals Handbook, RK11.
    pub fn error_word(&self) -> u16
        ensures { result ≡ error_word self.now }
    {
        let failure = match self.failure {
            Some(failure) => failure.bit(),
            None => 0,
        };
        failure + bit_of(self.write_check)
    }

    fn control_word(&self) -> u16
        ensures { result ≡ control_word self.now }
    {
        let failed = self.failure.is_some();
        let errors = bit_of(failed || self.write_check) * RKCS_ERROR
            + bit_of(failed) * RKCS_HARD_ERROR;
        let flags = bit_of(self.search_complete) * RKCS_SEARCH_COMPLETE
            + bit_of(self.no_increment) * RKCS_NO_INCREMENT;
        let high_address = (self.address / ADDRESS_BIT_16 % 4) as u16 * RKCS_ADDRESS;
        let function = self.function.code() * RKCS_FUNCTION;
        errors + flags + self.ready_enable.status() + high_address + function
    }

    /// A write of a word to RKCS.
    fn write_control(&mut self, write: ControlWrite)
        ensures { self.new ≡ control_written write self.old }
    {
        if self.ready_enable.ready {
            self.command(write);
        } else {
            self.ready_enable.write_enable(write.word);
        }
    }

    /// A write of a word to RKCS while ready, without go or with it.
    fn command(&mut self, write: ControlWrite)
        ensures { self.new ≡ rk_commanded write self.old }
    {
        if is_set(RKCS_GO, write.word) {
            self.go(write);
        } else {
            self.set_command(write.word);
            self.ready_enable.write_enable(write.word);
        }
    }

    /// Go with the function of this word.
    fn go(&mut self, write: ControlWrite)
        ensures { self.new ≡ gone_with (function_of (field 1 3 write.word)) write self.old }
    {
        match Function::of_code(field(1, 3, write.word)) {
            Function::ControlReset => self.reset(),
            _ => self.begin_function(write),
        }
    }

    /// A function begins.
    fn begin_function(&mut self, write: ControlWrite)
        ensures { self.new ≡ begun_function write self.old }
    {
        self.set_command(write.word);
        self.ready_enable
            .change(false, is_set(RKCS_ENABLE, write.word));
        self.search_complete = false;
        self.write_check = false;
        self.failure = None;
        self.operation = Operation::begin(write.turn, write.delay);
    }

    /// Sets the function, bits 17-16 of the bus address, and no increment.
    fn set_command(&mut self, word: u16)
        ensures { self.new ≡ with_command word self.old }
    {
        self.function = Function::of_code(field(1, 3, word));
        self.address = u32::from(field(4, 2, word)) * ADDRESS_BIT_16
            + self.address % ADDRESS_BIT_16;
        self.no_increment = is_set(RKCS_NO_INCREMENT, word);
    }
}

/// Whether the same drives are locked.
fn are_same_locks(some: &[bool], others: &[bool]) -> bool
    ensures { (result ≡ true) ↔ (some.now ≡ others.now) }
{
    some == others
}

/// Whether these are the same failure, or none.
fn is_same_failure(some: Option<Failure>, other: Option<Failure>) -> bool
    ensures { (result ≡ true) ↔ (some ≡ other) }
{
    some == other
}
