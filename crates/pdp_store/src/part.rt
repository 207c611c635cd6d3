//! Where words are: in core, or on a drive.

ghost use Rattle.std.specs.Prelude.{◌≡◌};
ghost use Rattle.pdp_store.specs.Parts.{part_of};

/// A part of the machine that has words.
#[derive(Clone, Copy, Debug, PartialEq, Eq, Hash)]
pub enum Part {
    /// Core memory.
    Core,
    /// The drive of this number, from 0.
    Drive(u8),
}

impl Part {
    /// The drive of this number, from 0; without a number, core.
    pub fn of(drive: Option<u8>) -> Part
        ensures { result ≡ part_of drive }
    {
        match drive {
            None => Part::Core,
            Some(number) => Part::Drive(number),
        }
    }

    /// The number of the drive; `None` for core.
    pub fn drive(self) -> Option<u8>
        ensures { part_of result ≡ self }
    {
        match self {
            Part::Core => None,
            Part::Drive(number) => Some(number),
        }
    }
}

/// A word, by where it is.
#[derive(Clone, Copy, Debug, PartialEq, Eq, Hash)]
pub struct WordAt {
    pub part: Part,
    /// Its number in that part, from 0.
    pub number: usize,
}
