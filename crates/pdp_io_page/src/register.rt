ghost use Rattle.std.specs.Prelude.{◌≡◌};
ghost use Rattle.pdp_io_page.specs.Handbook.Register.{register_at};

use crate::device_table::DEVICES;
use pdp_console::KlRegister;
use pdp_kt11::KtRegister;
use pdp_rk11::RkRegister;
use pdp_tape::Pc11Register;

/// A register on the bus, of a device, of memory management or of the processor.
#[derive(Clone, Copy)]
pub enum Register {
    /// 777400 to 777413: the disk's.
    Disk(RkRegister),
    /// 777546: the line clock's.
    Clock,
    /// 777550 to 777557: the paper tape reader's and punch's.
    PaperTape(Pc11Register),
    /// 777560 to 777567: the console terminal's.
    Console(KlRegister),
    /// 777570
    Switches,
    /// 772300 to 772317, 772340 to 772357, 777572 to 777577, 777600 to 777617 and 777640 to 777657:
    /// those of memory management.
    Mapping(KtRegister),
    /// 777776
    ProgramStatus,
}

/// The register whose word has this physical address (bytes), if there is one.
///
/// PDP-11 Peripherals Handbook, KL11, KW11-L, PC11 and RK11; DEC PDP-11/40 Processor Handbook
/// (1972), Switch register, Processor status word and Memory management.
#[tactic(auto, unfolding(crate::specs::Handbook::Register::register_at))]
pub fn register_at_address(address: u32) -> Option<Register>
    ensures { result ≡ register_at address }
{
    let word = address - address % 2;
    if DEVICES.disk.first <= word && word <= DEVICES.disk.last {
        RkRegister::at(word - DEVICES.disk.first).map(Register::Disk)
    } else if word == DEVICES.clock.first {
        Some(Register::Clock)
    } else if DEVICES.reader.first <= word && word <= DEVICES.punch.last {
        Pc11Register::at(word - DEVICES.reader.first).map(Register::PaperTape)
    } else if DEVICES.keyboard.first <= word && word <= DEVICES.printer.last {
        KlRegister::at(word - DEVICES.keyboard.first).map(Register::Console)
    } else if word == 0o777570 {
        Some(Register::Switches)
    } else if word == 0o777776 {
        Some(Register::ProgramStatus)
    } else {
        KtRegister::at(word).map(Register::Mapping)
    }
}
