//! What is written, and what a write moves.

ghost use Rattle.std.specs.Prelude.{◌≡◌, ◌∷◌, [], ◌≤◌, length};
ghost use Rattle.pdp_made.specs.Cells.{Buffer, Low, Reader};
ghost use Rattle.pdp_made.specs.ReferenceRows.{buffer_put, halves_at, halves_put, place_of_write};
ghost use Rattle.pdp_made.specs.ReferenceRows.{of_nothing, whole_of};
ghost use Rattle.pdp_moves.specs.Built.{device_moves, halves_written, most_of_half, slave_moves};
ghost use Rattle.pdp_moves.specs.Built.{slave_of, write_moves};
ghost use Rattle.pdp_moves.specs.declared.written_word.WrittenWord.TheVariants.{SavedStatus};
ghost use Rattle.pdp_moves.specs.CellNames.{named_buffer, named_cells, named_half, named_moves};

use crate::bus_slave::{BusSlave, half_at, place};
use crate::cell_move::{StepMoves, tell, tell_codes, tell_halves};
use crate::cell_name::{BufferName, CellName, CodeName, HalfName};
use crate::sources::{CodeSources, HalfSources, Sources, joined, sources};
use pdp_console::KlRegister;
use pdp_io_page::Register;
use pdp_kt11::{Access, Mode};
use pdp_store::Store;
use pdp_tape::Pc11Register;
use pdp_unibus::Bus;
use pdp_word::Size;

/// What a step writes to memory.
#[derive(Clone, Copy)]
pub enum WrittenWord {
    /// A word that is no data, as PC.
    Nothing,
    /// The result of an operation.
    Result,
    /// The program status word that a sequence saves.
    SavedStatus,
}

const RESULT_LOW: CellName = CellName::ResultByte(HalfName::Low);

const RESULT_HIGH: CellName = CellName::ResultByte(HalfName::High);

/// The codes that a sequence saves.
fn codes_saved() -> Sources
    ensures cells { named_cells result.items ≡ halves_written SavedStatus Low }
    ensures length { length result.items ≤ 4 }
{
    sources(&[
        CellName::CodeSaved(CodeName::Negative),
        CellName::CodeSaved(CodeName::Zero),
        CellName::CodeSaved(CodeName::Overflow),
        CellName::CodeSaved(CodeName::Carry),
    ])
}

impl WrittenWord {
    /// What a half of it is made of.
    fn half(self, half: HalfName) -> Sources
        ensures cells { named_cells result.items ≡ halves_written self (named_half half) }
        ensures length { length result.items ≤ most_of_half half }
    {
        match self {
            WrittenWord::Nothing => Sources::new(),
            WrittenWord::Result => sources(&[CellName::ResultByte(half)]),
            WrittenWord::SavedStatus => match half {
                HalfName::Low => codes_saved(),
                HalfName::High => Sources::new(),
            },
        }
    }

    /// What both halves of it are made of.
    fn whole(self) -> Sources
        ensures cells { named_cells result.items ≡ whole_of (halves_written self) }
        ensures length { length result.items ≤ 4 }
    {
        match self {
            WrittenWord::Nothing => Sources::new(),
            WrittenWord::Result => sources(&[RESULT_LOW, RESULT_HIGH]),
            WrittenWord::SavedStatus => codes_saved(),
        }
    }

    /// What a half of the word of a slave is made of, once this was written at the address.
    fn put(self, size: Size, physical: u32, slave: BusSlave, half: HalfName) -> Sources
        ensures { named_cells result.items ≡ halves_put size physical (halves_at (slave_of slave))
            (halves_written self) (named_half half) }
    {
        match size {
            Size::Word => self.half(half),
            Size::Byte => match (half_at(physical), half) {
                (HalfName::Low, HalfName::Low) => self.half(HalfName::Low),
                (HalfName::Low, HalfName::High) => {
                    joined(slave.sources(HalfName::High), &self.half(HalfName::High))
                }
                (HalfName::High, HalfName::Low) => slave.sources(HalfName::Low),
                (HalfName::High, HalfName::High) => self.whole(),
            },
        }
    }

    /// What a buffer is made of, once this was written at the address.
    fn put_buffer(self, size: Size, physical: u32, buffer: BufferName) -> Sources
        ensures { named_cells result.items
            ≡ buffer_put size physical (Buffer (named_buffer buffer)) (halves_written self) }
    {
        match size {
            Size::Word => self.half(HalfName::Low),
            Size::Byte => {
                if physical % 2 == 0 {
                    self.half(HalfName::Low)
                } else {
                    sources(&[CellName::Buffer(buffer)])
                }
            }
        }
    }

    /// What PRB is made of, once this was written to PRS: itself, and all that was written.
    #[tactic(auto, using(crate::proofs::Writes::all_is_put))]
    fn put_reader(self, size: Size, physical: u32) -> Sources
        ensures { named_cells result.items ≡ Buffer Reader ∷ whole_of (halves_put size physical
            of_nothing (halves_written self)) }
    {
        joined(
            sources(&[CellName::Buffer(BufferName::Reader)]),
            &self.whole(),
        )
    }

    /// The moves of a write to core or to a register.
    fn moves_at(self, size: Size, physical: u32, slave: BusSlave) -> StepMoves
        ensures { named_moves result.items
            ≡ slave_moves size physical (slave_of slave) (halves_written self) }
    {
        let mut moves = StepMoves::new();
        match slave {
            BusSlave::Core(word) => tell_halves(
                &mut moves,
                CellName::CoreByte {
                    word,
                    half: HalfName::Low,
                },
                CellName::CoreByte {
                    word,
                    half: HalfName::High,
                },
                HalfSources {
                    low: self.put(size, physical, slave, HalfName::Low),
                    high: self.put(size, physical, slave, HalfName::High),
                },
            ),
            BusSlave::Device(register) => self.tell_device(&mut moves, size, physical, register),
            BusSlave::Nobody => {}
        }
        moves
    }

    /// The moves of a write to a register.
    fn tell_device(self, moves: &mut StepMoves, size: Size, physical: u32, register: Register)
        requires { moves.old.items ≡ [] }
        ensures { named_moves moves.new.items
            ≡ device_moves size physical register (halves_written self) }
    {
        match register {
            Register::ProgramStatus => {
                let slave = BusSlave::Device(register);
                let low = HalfName::Low;
                tell_codes(
                    moves,
                    CodeSources {
                        negative: self.put(size, physical, slave, low),
                        zero: self.put(size, physical, slave, low),
                        overflow: self.put(size, physical, slave, low),
                        carry: self.put(size, physical, slave, low),
                    },
                );
            }
            Register::Console(KlRegister::PrinterBuffer) => {
                let sources = self.put_buffer(size, physical, BufferName::Printer);
                tell(moves, CellName::Buffer(BufferName::Printer), sources);
            }
            Register::PaperTape(Pc11Register::PunchBuffer) => {
                let sources = self.put_buffer(size, physical, BufferName::Punch);
                tell(moves, CellName::Buffer(BufferName::Punch), sources);
            }
            Register::PaperTape(Pc11Register::ReaderStatus) => {
                let sources = self.put_reader(size, physical);
                tell(moves, CellName::Buffer(BufferName::Reader), sources);
            }
            _ => {}
        }
    }

    /// The moves of a write at a virtual address of a mode.
    pub(crate) fn moves<S: Store, D: Store>(
        self,
        bus: &Bus<S, D>,
        size: Size,
        mode: Mode,
        address: u16,
    ) -> StepMoves
        ensures { named_moves result.items ≡ write_moves size bus.now (place_of_write mode address
            bus.now) (halves_written self) }
    {
        match place(bus, mode, address, Access::Write) {
            Ok(physical) => self.moves_at(size, physical, BusSlave::at(bus, physical)),
            Err(_) => StepMoves::new(),
        }
    }
}
