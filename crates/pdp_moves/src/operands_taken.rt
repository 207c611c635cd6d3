//! What an operation takes, and how bits go from half to half.

ghost use Rattle.std.specs.Prelude.{◌≡◌};
ghost use Rattle.pdp_made.specs.Cells.{High, Low};
ghost use Rattle.pdp_made.specs.EffectRows.{cells_of_operands, value_made};
ghost use Rattle.pdp_made.specs.ReferenceRows.{whole_of};
ghost use Rattle.pdp_moves.specs.Built.{AreHalves, halves_taken, way_between};
ghost use Rattle.pdp_moves.specs.CellNames.{named_cells};

use crate::cell_name::{CellName, CodeName, HalfName};
use crate::sources::{HalfSources, Sources, sources};
use pdp_word::Size;

/// The operands that an operation takes.
#[derive(Clone, Copy)]
pub(crate) enum OperandsTaken {
    Nothing,
    Source,
    Value,
    Both,
    /// The value, and the complement of the whole source.
    WithComplement,
    ValueAndCarry,
}

/// How bits go from half to half.
#[derive(Clone, Copy)]
pub(crate) enum HalvesWay {
    Straight,
    /// In a sum, from the low half to the high one.
    Up,
    /// In a shift to the right, from the high half to the low one.
    Down,
}

const SOURCE_LOW: CellName = CellName::SourceByte(HalfName::Low);

const SOURCE_HIGH: CellName = CellName::SourceByte(HalfName::High);

const VALUE_LOW: CellName = CellName::ValueByte(HalfName::Low);

const VALUE_HIGH: CellName = CellName::ValueByte(HalfName::High);

const CARRY: CellName = CellName::CodeNow(CodeName::Carry);

impl OperandsTaken {
    /// The sources of a low half.
    fn low(self) -> Sources
        ensures { named_cells result.items ≡ halves_taken self Low }
    {
        match self {
            OperandsTaken::Nothing => Sources::new(),
            OperandsTaken::Source => sources(&[SOURCE_LOW]),
            OperandsTaken::Value => sources(&[VALUE_LOW]),
            OperandsTaken::Both => sources(&[SOURCE_LOW, VALUE_LOW]),
            OperandsTaken::WithComplement => sources(&[SOURCE_LOW, SOURCE_HIGH, VALUE_LOW]),
            OperandsTaken::ValueAndCarry => sources(&[VALUE_LOW, CARRY]),
        }
    }

    /// The sources of a high half.
    fn high(self) -> Sources
        ensures { named_cells result.items ≡ halves_taken self High }
    {
        match self {
            OperandsTaken::Nothing => Sources::new(),
            OperandsTaken::Source => sources(&[SOURCE_HIGH]),
            OperandsTaken::Value => sources(&[VALUE_HIGH]),
            OperandsTaken::Both => sources(&[SOURCE_HIGH, VALUE_HIGH]),
            OperandsTaken::WithComplement => sources(&[SOURCE_LOW, SOURCE_HIGH, VALUE_HIGH]),
            OperandsTaken::ValueAndCarry => sources(&[VALUE_HIGH, CARRY]),
        }
    }

    /// The sources of both halves.
    fn whole(self) -> Sources
        ensures { named_cells result.items ≡ whole_of (halves_taken self) }
    {
        match self {
            OperandsTaken::Nothing => Sources::new(),
            OperandsTaken::Source => sources(&[SOURCE_LOW, SOURCE_HIGH]),
            OperandsTaken::Value => sources(&[VALUE_LOW, VALUE_HIGH]),
            OperandsTaken::Both => sources(&[SOURCE_LOW, VALUE_LOW, SOURCE_HIGH, VALUE_HIGH]),
            OperandsTaken::WithComplement => sources(&[
                SOURCE_LOW,
                SOURCE_HIGH,
                VALUE_LOW,
                SOURCE_LOW,
                SOURCE_HIGH,
                VALUE_HIGH,
            ]),
            OperandsTaken::ValueAndCarry => sources(&[VALUE_LOW, CARRY, VALUE_HIGH, CARRY]),
        }
    }

    /// The sources of what is told of operands of a size.
    pub(crate) fn cells(self, size: Size) -> Sources
        ensures { named_cells result.items ≡ cells_of_operands size (halves_taken self) }
    {
        match size {
            Size::Word => self.whole(),
            Size::Byte => self.low(),
        }
    }

    /// The sources of a low half of the value.
    fn low_value(self, size: Size, way: HalvesWay) -> Sources
        ensures { named_cells result.items
            ≡ value_made size (way_between way) (halves_taken self) Low }
    {
        match way {
            HalvesWay::Straight | HalvesWay::Up => self.low(),
            HalvesWay::Down => self.cells(size),
        }
    }

    /// The sources of a high half of the value.
    fn high_value(self, size: Size, way: HalvesWay) -> Sources
        ensures { named_cells result.items
            ≡ value_made size (way_between way) (halves_taken self) High }
    {
        match size {
            Size::Byte => Sources::new(),
            Size::Word => match way {
                HalvesWay::Straight | HalvesWay::Down => self.high(),
                HalvesWay::Up => self.whole(),
            },
        }
    }

    /// The sources of the value of an operation of a size.
    pub(crate) fn value(self, size: Size, way: HalvesWay) -> HalfSources
        ensures { AreHalves result (value_made size (way_between way) (halves_taken self)) }
    {
        HalfSources {
            low: self.low_value(size, way),
            high: self.high_value(size, way),
        }
    }
}
