ghost use Rattle.std.specs.Prelude.{◌≡◌};
ghost use Rattle.pdp_operand.specs.Handbook.Operand.{fill_of, size_of_fill};

use crate::processor::RegisterId;
use pdp_kt11::Mode;
use pdp_word::Size;

/// A place in memory, as an operand names it.
#[derive(Clone, Copy)]
pub struct Cell {
    /// The mode in whose space the address is.
    pub mode: Mode,
    /// The virtual byte address.
    pub address: u16,
    /// Whether a reference to it makes a stack trap pending: the kernel's stack pointer shrank to
    /// it, below 400 octal.
    pub yellow: bool,
}

/// Where an operand is.
#[derive(Clone, Copy)]
pub enum Place {
    Reg(RegisterId),
    Mem(Cell),
}

/// How a write fills a register. In memory it writes its word or its byte.
#[derive(Clone, Copy)]
pub enum Fill {
    /// A word fills the register.
    Whole,
    /// A byte changes the low byte alone.
    LowByte,
    /// A byte fills the register with its sign.
    Extended,
}

impl Fill {
    /// How the instructions of a size fill a register, all but MOVB
    /// (DEC PDP-11/40 Processor Handbook (1972), Addressing modes).
    #[inline(always)]
    pub fn of(size: Size) -> Fill
        ensures fill { result ≡ fill_of size }
        ensures size { size_of_fill result ≡ size }
    {
        if size == Size::Word {
            Fill::Whole
        } else {
            Fill::LowByte
        }
    }
}
