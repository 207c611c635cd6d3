//! What answers an address of the bus, and what its words are made of.

ghost use Rattle.std.specs.Prelude.{◌≡◌, ◌≤◌, length};
ghost use Rattle.pdp_kt11.specs.Handbook.Translation.{translate};
ghost use Rattle.pdp_unibus.specs.Handbook.Cycle.{slave_at};
ghost use Rattle.pdp_made.specs.Cells.{CodeNow};
ghost use Rattle.pdp_made.specs.ReferenceRows.{each_code, half_of_address, halves_at};
ghost use Rattle.pdp_made.specs.ReferenceRows.{halves_of_device, halves_read, halves_referred};
ghost use Rattle.pdp_moves.specs.Built.{AreHalves, most_of_half, slave_of};
ghost use Rattle.pdp_moves.specs.CellNames.{named_cells, named_half};

use crate::cell_name::{BufferName, CellName, CodeName, HalfName};
use crate::sources::{HalfSources, Sources, sources};
use pdp_console::KlRegister;
use pdp_io_page::{Register, register_at_address};
use pdp_kt11::{Abort, Access, Kt, Mode};
use pdp_store::Store;
use pdp_tape::Pc11Register;
use pdp_unibus::Bus;
use pdp_word::Size;

/// Who answers a physical address.
#[derive(Clone, Copy)]
pub(crate) enum BusSlave {
    /// The word of core of this number.
    Core(u32),
    Device(Register),
    Nobody,
}

/// The physical byte address of a virtual one, as the mapping registers are. None of them changes.
pub(crate) fn place<S: Store, D: Store>(
    bus: &Bus<S, D>,
    mode: Mode,
    address: u16,
    access: Access,
) -> Result<u32, Abort>
    ensures { result ≡ (translate mode address access bus.now.io_page.mapping).address }
{
    let mut mapping = Kt::over(bus.mapping_registers());
    mapping.place(mode, address, access)
}

/// The half of a word that is at this physical address.
pub(crate) fn half_at(physical: u32) -> HalfName
    ensures { named_half result ≡ half_of_address physical }
{
    if physical % 2 == 0 {
        HalfName::Low
    } else {
        HalfName::High
    }
}

impl BusSlave {
    /// Who answers this physical address.
    pub(crate) fn at<S: Store, D: Store>(bus: &Bus<S, D>, physical: u32) -> BusSlave
        ensures { slave_of result ≡ slave_at (length bus.now.core) physical }
    {
        let word = physical / 2;
        if (word as usize) < bus.core_len() {
            return BusSlave::Core(word);
        }
        match register_at_address(physical) {
            Some(register) => BusSlave::Device(register),
            None => BusSlave::Nobody,
        }
    }

    /// What a half of its word is made of.
    pub(crate) fn sources(self, half: HalfName) -> Sources
        ensures cells { named_cells result.items ≡ halves_at (slave_of self) (named_half half) }
        ensures length { length result.items ≤ most_of_half half }
    {
        match self {
            BusSlave::Core(word) => sources(&[CellName::CoreByte { word, half }]),
            BusSlave::Device(register) => device_sources(register, half),
            BusSlave::Nobody => Sources::new(),
        }
    }

    /// What a read of a size at a physical address gives.
    fn read(self, size: Size, physical: u32) -> HalfSources
        ensures { AreHalves result (halves_read size physical (halves_at (slave_of self))) }
    {
        match size {
            Size::Word => HalfSources {
                low: self.sources(HalfName::Low),
                high: self.sources(HalfName::High),
            },
            Size::Byte => HalfSources {
                low: self.sources(half_at(physical)),
                high: self.sources(half_at(physical)),
            },
        }
    }
}

/// The codes of now.
pub(crate) fn codes_now() -> Sources
    ensures cells { named_cells result.items ≡ each_code CodeNow }
    ensures length { length result.items ≤ 4 }
{
    sources(&[
        CellName::CodeNow(CodeName::Negative),
        CellName::CodeNow(CodeName::Zero),
        CellName::CodeNow(CodeName::Overflow),
        CellName::CodeNow(CodeName::Carry),
    ])
}

/// What a half of a register of the bus is made of.
fn device_sources(register: Register, half: HalfName) -> Sources
    ensures cells { named_cells result.items ≡ halves_of_device register (named_half half) }
    ensures length { length result.items ≤ most_of_half half }
{
    match register {
        Register::ProgramStatus => match half {
            HalfName::Low => codes_now(),
            HalfName::High => Sources::new(),
        },
        Register::Console(KlRegister::KeyboardBuffer) => {
            sources(&[CellName::Buffer(BufferName::Keyboard)])
        }
        Register::PaperTape(Pc11Register::ReaderBuffer) => {
            sources(&[CellName::Buffer(BufferName::Reader)])
        }
        Register::Switches => sources(&[CellName::Buffer(BufferName::Switches)]),
        _ => Sources::new(),
    }
}

/// What a read at a virtual address of a mode gives.
pub(crate) fn referred<S: Store, D: Store>(
    bus: &Bus<S, D>,
    size: Size,
    mode: Mode,
    address: u16,
) -> HalfSources
    ensures { AreHalves result (halves_referred size mode address bus.now) }
{
    match place(bus, mode, address, Access::Read) {
        Ok(physical) => BusSlave::at(bus, physical).read(size, physical),
        Err(_) => HalfSources::none(),
    }
}
