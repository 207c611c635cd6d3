ghost use Rattle.std.specs.Prelude.{◌≡◌, ◌≤◌, ◌<◌, length, map, slice_get, Some};
ghost use Rattle.pdp_unibus.specs.Handbook.Shown.{devices_of, shown_names, shown_registers};

use crate::bus::Bus;
use pdp_console::KlRegister;
use pdp_io_page::Register;
use pdp_rk11::{Rk, RkRegister};
use pdp_store::Store;
use pdp_tape::Pc11Register;

/// How many registers of the devices are shown.
pub const SHOWN_REGISTERS: usize = 14;

// The registers of the devices that are shown, in their order, each after its name (PDP-11
// Peripherals Handbook, KL11, KW11-L, PC11 and RK11; DEC PDP-11/40 Processor Handbook (1972),
// Switch register).
const SHOWN: [(&str, Register); SHOWN_REGISTERS] = [
    // 777560
    ("TKS", Register::Console(KlRegister::KeyboardStatus)),
    // 777562
    ("TKB", Register::Console(KlRegister::KeyboardBuffer)),
    // 777564
    ("TPS", Register::Console(KlRegister::PrinterStatus)),
    // 777546
    ("LKS", Register::Clock),
    // 777550
    ("PRS", Register::PaperTape(Pc11Register::ReaderStatus)),
    // 777552
    ("PRB", Register::PaperTape(Pc11Register::ReaderBuffer)),
    // 777554
    ("PPS", Register::PaperTape(Pc11Register::PunchStatus)),
    // 777400
    ("RKDS", Register::Disk(RkRegister::DriveStatus)),
    // 777402
    ("RKER", Register::Disk(RkRegister::Error)),
    // 777404
    ("RKCS", Register::Disk(RkRegister::Control)),
    // 777406
    ("RKWC", Register::Disk(RkRegister::WordCount)),
    // 777410
    ("RKBA", Register::Disk(RkRegister::BusAddress)),
    // 777412
    ("RKDA", Register::Disk(RkRegister::DiskAddress)),
    // 777570
    ("SWR", Register::Switches),
];

/// The registers of the devices, as reads would give them without the effect of a read (PDP-11
/// Peripherals Handbook, KL11, KW11-L, PC11 and RK11; DEC PDP-11/40 Processor Handbook (1972),
/// Switch register).
#[derive(Clone, Copy)]
pub struct DeviceRegisters {
    /// TKS, TKB, TPS, LKS, PRS, PRB, PPS, RKDS, RKER, RKCS, RKWC, RKBA, RKDA and the switch
    /// register SWR: the words of the registers that `name` names, by the same index.
    pub words: [u16; SHOWN_REGISTERS],
}

impl DeviceRegisters {
    /// The name of the register whose word has this index, in the handbook of its device.
    pub fn name(index: usize) -> &'static str
        requires { index < SHOWN_REGISTERS }
        ensures name { slice_get shown_names index ≡ Some result.now }
        ensures short { length result.now ≤ 4 }
    {
        SHOWN[index].0
    }
}

// The register whose word has this index.
fn shown_register(index: usize) -> Register
    requires { index < SHOWN_REGISTERS }
    ensures { slice_get (map (λ shown. shown.1) shown_registers) index ≡ Some result }
{
    SHOWN[index].1
}

impl<S: Store, D: Store> Bus<S, D> {
    /// The registers of the devices as reads would give them, without the effect of a read (PDP-11
    /// Peripherals Handbook, KL11, KW11-L, PC11 and RK11).
    #[tactic(auto, unfolding(crate::specs::Handbook::Shown::devices_of))]
    pub fn devices(&self) -> DeviceRegisters
        ensures { result ≡ devices_of self.now }
    {
        let mut words = [0; SHOWN_REGISTERS];
        for index in 0..SHOWN_REGISTERS {
            words[index] = self.value(shown_register(index));
        }
        DeviceRegisters { words }
    }

    /// The disk's controller (PDP-11 Peripherals Handbook, RK11).
    pub fn disk(&self) -> Rk
        ensures { result ≡ self.now.io_page.disk }
    {
        self.io_page.disk
    }
}
