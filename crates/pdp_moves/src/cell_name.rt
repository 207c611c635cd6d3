//! The names of cells.

ghost use Rattle.std.specs.Prelude.{◌≡◌};
ghost use Rattle.pdp_moves.specs.CellNames.{named_buffer, named_cell, named_code, named_half};
ghost use Rattle.pdp_moves.specs.Moves.{is_buffer, is_cell, is_code, is_half};

/// A half of a word: bits 7-0, or bits 15-8.
#[derive(Clone, Copy)]
pub enum HalfName {
    Low,
    High,
}

/// A condition code.
#[derive(Clone, Copy)]
pub enum CodeName {
    Negative,
    Zero,
    Overflow,
    Carry,
}

/// What a device holds of data: TKB, TPB, PRB, PPB, or the switches.
#[derive(Clone, Copy)]
pub enum BufferName {
    Keyboard,
    Printer,
    Reader,
    Punch,
    Switches,
}

/// A cell that holds data, or the part of it that a step hands to the next.
#[derive(Clone, Copy)]
pub enum CellName {
    CoreByte {
        word: u32,
        half: HalfName,
    },
    DriveByte {
        drive: u32,
        word: u32,
        half: HalfName,
    },
    /// R0 to R5, the stack pointer of kernel mode and that of user mode, by place 0 to 7.
    RegisterByte {
        place: u8,
        half: HalfName,
    },
    CodeNow(CodeName),
    Buffer(BufferName),
    /// A byte of the paper tape.
    TapeByte(u32),
    /// Of the operand.
    ValueByte(HalfName),
    /// Of the source.
    SourceByte(HalfName),
    /// Of what is to be written.
    ResultByte(HalfName),
    /// Of a new program status word.
    StatusByte(HalfName),
    /// A code that is to be stored.
    CodeDue(CodeName),
    /// A code that the sequence of a trap saves.
    CodeSaved(CodeName),
}

impl Default for CellName {
    /// Any would do: it fills places that are not used.
    fn default() -> CellName {
        CellName::TapeByte(0)
    }
}

impl HalfName {
    /// Whether the halves are the same.
    fn is_same(self, other: HalfName) -> bool
        ensures { result ≡ is_half (named_half self) (named_half other) }
    {
        match (self, other) {
            (HalfName::Low, HalfName::Low) | (HalfName::High, HalfName::High) => true,
            _ => false,
        }
    }
}

impl CodeName {
    /// Whether the codes are the same.
    fn is_same(self, other: CodeName) -> bool
        ensures { result ≡ is_code (named_code self) (named_code other) }
    {
        match (self, other) {
            (CodeName::Negative, CodeName::Negative)
            | (CodeName::Zero, CodeName::Zero)
            | (CodeName::Overflow, CodeName::Overflow)
            | (CodeName::Carry, CodeName::Carry) => true,
            _ => false,
        }
    }
}

impl BufferName {
    /// Whether the buffers are the same.
    fn is_same(self, other: BufferName) -> bool
        ensures { result ≡ is_buffer (named_buffer self) (named_buffer other) }
    {
        match (self, other) {
            (BufferName::Keyboard, BufferName::Keyboard)
            | (BufferName::Printer, BufferName::Printer)
            | (BufferName::Reader, BufferName::Reader)
            | (BufferName::Punch, BufferName::Punch)
            | (BufferName::Switches, BufferName::Switches) => true,
            _ => false,
        }
    }
}

impl CellName {
    /// Whether the names are of the same cell.
    pub fn is_same(self, other: CellName) -> bool
        ensures { result ≡ is_cell (named_cell self) (named_cell other) }
    {
        match (self, other) {
            (
                CellName::CoreByte { word, half },
                CellName::CoreByte {
                    word: number,
                    half: part,
                },
            ) => half.is_same(part) && word == number,
            (
                CellName::DriveByte { drive, word, half },
                CellName::DriveByte {
                    drive: unit,
                    word: number,
                    half: part,
                },
            ) => half.is_same(part) && drive == unit && word == number,
            (
                CellName::RegisterByte { place, half },
                CellName::RegisterByte {
                    place: number,
                    half: part,
                },
            ) => half.is_same(part) && place == number,
            (CellName::TapeByte(byte), CellName::TapeByte(number)) => byte == number,
            (CellName::Buffer(buffer), CellName::Buffer(second)) => buffer.is_same(second),
            (CellName::CodeNow(code), CellName::CodeNow(second))
            | (CellName::CodeDue(code), CellName::CodeDue(second))
            | (CellName::CodeSaved(code), CellName::CodeSaved(second)) => code.is_same(second),
            (CellName::ValueByte(half), CellName::ValueByte(second))
            | (CellName::SourceByte(half), CellName::SourceByte(second))
            | (CellName::ResultByte(half), CellName::ResultByte(second))
            | (CellName::StatusByte(half), CellName::StatusByte(second)) => half.is_same(second),
            _ => false,
        }
    }
}
