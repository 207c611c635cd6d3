ghost use Rattle.std.specs.Prelude.{◌≡◌, ◌<◌};
ghost use Rattle.pdp_word.specs.Physical.{physical_addresses};
ghost use Rattle.pdp_kt11.specs.Handbook.Apr.{access_bits, access_control_of, address_written};
ghost use Rattle.pdp_kt11.specs.Handbook.Apr.{descriptor_word, descriptor_written, empty_page};
ghost use Rattle.pdp_kt11.specs.Handbook.Apr.{expansion_bit, expansion_of, numbered_page};
ghost use Rattle.pdp_kt11.specs.Handbook.Apr.{page_number};
ghost use Rattle.pdp_kt11.specs.Handbook.Apr.{space_of};
ghost use Rattle.pdp_kt11.specs.Handbook.Translation.{abort_in, block_of, mapped_address, page_of};

use crate::bits::{
    BLOCK_BYTES, BLOCKS_OF_PAGE, PAGE_BYTES, PDR_ACCESS, PDR_DOWNWARD, PDR_LENGTH, PDR_WRITTEN,
    PHYSICAL_ADDRESSES,
};
use crate::mode::Mode;
use crate::place::{Abort, Access};
use pdp_word::{bit_of, field, is_set};

/// One of the two spaces that have pages, each of one processor mode.
///
/// DEC PDP-11/40 Processor Handbook (1972), Memory management.
#[derive(Clone, Copy)]
pub enum Space {
    Kernel,
    User,
}

impl Space {
    /// The space whose pages this mode uses; the modes 01 and 10 have none [6.6].
    #[inline(always)]
    pub fn of(mode: Mode) -> Option<Space>
        ensures { result ≡ space_of mode }
    {
        match mode {
            Mode::Kernel => Some(Space::Kernel),
            Mode::User => Some(Space::User),
            Mode::Bad1 | Mode::Bad2 => None,
        }
    }
}

/// One of the eight pages of a space: bits 15-13 of a virtual address.
///
/// DEC PDP-11/40 Processor Handbook (1972), Memory management.
#[derive(Clone, Copy, PartialEq, Eq)]
pub enum PageNumber {
    P0,
    P1,
    P2,
    P3,
    P4,
    P5,
    P6,
    P7,
}

impl PageNumber {
    /// The page of a number, 0 to 7; a number above 7 names page 7 too.
    #[inline(always)]
    #[tactic(auto, unfolding(crate::specs::Handbook::Apr::numbered_page))]
    pub fn numbered(number: u32) -> PageNumber
        ensures { result ≡ numbered_page number }
    {
        match number {
            0 => PageNumber::P0,
            1 => PageNumber::P1,
            2 => PageNumber::P2,
            3 => PageNumber::P3,
            4 => PageNumber::P4,
            5 => PageNumber::P5,
            6 => PageNumber::P6,
            _ => PageNumber::P7,
        }
    }

    /// The page of a virtual byte address.
    #[inline(always)]
    pub fn of(address: u16) -> PageNumber
        ensures { result ≡ page_of address }
    {
        PageNumber::numbered(u32::from(address / PAGE_BYTES))
    }

    /// The number of the page, 0 to 7.
    #[inline(always)]
    pub fn number(self) -> u16
        ensures number { result ≡ page_number self }
        ensures below { result < 8 }
    {
        self as u16
    }
}

/// The access control field of a page, bits 2-1 of its descriptor register.
///
/// DEC PDP-11/40 Processor Handbook (1972), Memory management.
#[derive(Clone, Copy, PartialEq, Eq)]
pub enum AccessControl {
    /// 00: every access aborts.
    NonResident,
    /// 01: a write aborts.
    ReadOnly,
    /// 10, which the handbook doesn't use: every access aborts as non-resident [6.9] [6.17].
    Unused,
    /// 11
    ReadWrite,
}

impl AccessControl {
    /// The field of two bits, 0 to 3; a number above 3 is 3 too.
    #[tactic(auto, unfolding(crate::specs::Handbook::Apr::access_control_of))]
    fn of_bits(bits: u16) -> AccessControl
        ensures { result ≡ access_control_of bits }
    {
        match bits {
            0 => AccessControl::NonResident,
            1 => AccessControl::ReadOnly,
            2 => AccessControl::Unused,
            _ => AccessControl::ReadWrite,
        }
    }

    /// The two bits of the field: 0 to 3.
    fn bits(self) -> u16
        ensures bits { result ≡ access_bits self }
        ensures below { result < 4 }
    {
        match self {
            AccessControl::NonResident => 0,
            AccessControl::ReadOnly => 1,
            AccessControl::Unused => 2,
            AccessControl::ReadWrite => 3,
        }
    }
}

/// The direction in which a page grows, bit 3 of its descriptor register: from its lowest block up,
/// or from its highest block down.
///
/// DEC PDP-11/40 Processor Handbook (1972), Memory management.
#[derive(Clone, Copy, PartialEq, Eq)]
pub enum Expansion {
    Upward,
    Downward,
}

impl Expansion {
    /// Downward if the bit is set.
    fn of_bit(bit: bool) -> Expansion
        ensures { result ≡ expansion_of bit }
    {
        if bit {
            Expansion::Downward
        } else {
            Expansion::Upward
        }
    }

    /// The bit of the direction.
    fn bit(self) -> u16
        ensures bit { result ≡ expansion_bit self }
        ensures below { result < 2 }
    {
        match self {
            Expansion::Upward => 0,
            Expansion::Downward => 1,
        }
    }
}

/// A page, as its page address register and its page descriptor register have it.
///
/// DEC PDP-11/40 Processor Handbook (1972), Memory management.
#[derive(Clone, Copy, PartialEq, Eq)]
pub struct Apr {
    /// The page address field, bits 11-0 of the page address register: where the page is, in blocks
    /// of 100 (octal) bytes.
    pub frame: u16,
    /// The page length field, bits 14-8 of the descriptor: the last block of the page, or its first
    /// one if it grows downward.
    pub length: u8,
    /// W, bit 6 of the descriptor: a write went through the page since one of its registers was
    /// written.
    pub written: bool,
    /// The direction of growth, bit 3 of the descriptor.
    pub expansion: Expansion,
    /// The access control field, bits 2-1 of the descriptor.
    pub access: AccessControl,
}

impl Apr {
    /// A page as of power-up: every bit of both registers 0 [7.4].
    #[tactic(auto, unfolding(crate::specs::Handbook::Apr::empty_page))]
    pub const fn empty() -> Apr
        ensures { result ≡ empty_page }
    {
        Apr {
            frame: 0,
            length: 0,
            written: false,
            expansion: Expansion::Upward,
            access: AccessControl::NonResident,
        }
    }

    /// The page descriptor register: bits 14-8 length, 6 W, 3 downward, 2-1 access. The others are
    /// 0 [6.33].
    pub fn descriptor(self) -> u16
        ensures { result ≡ descriptor_word self }
    {
        u16::from(self.length) * PDR_LENGTH
            + bit_of(self.written) * PDR_WRITTEN
            + self.expansion.bit() * PDR_DOWNWARD
            + self.access.bits() * PDR_ACCESS
    }

    /// The page after its descriptor register was written: length, direction and access are the
    /// word's, and W is clear.
    #[tactic(auto, unfolding(crate::specs::Handbook::Apr::descriptor_written))]
    pub fn with_descriptor(self, word: u16) -> Apr
        ensures { result ≡ descriptor_written word self }
    {
        Apr {
            length: field(8, 7, word) as u8,
            written: false, // whatever bit 6 of the word is
            expansion: Expansion::of_bit(is_set(PDR_DOWNWARD, word)),
            access: AccessControl::of_bits(field(1, 2, word)),
            ..self
        }
    }

    /// The page after its address register was written: bits 11-0 of the word are its frame, and W
    /// is clear.
    #[tactic(auto, unfolding(crate::specs::Handbook::Apr::address_written))]
    pub fn with_address(mut self, word: u16) -> Apr
        ensures { result ≡ address_written word self }
    {
        self.frame = field(0, 12, word);
        self.written = false;
        self
    }

    /// Why an access to a block of the page aborts, if it does: of the tests of residence, of
    /// length and of access the first that fails [6.17] [6.18] [6.19].
    #[inline(always)]
    pub fn abort(self, access: Access, block: u16) -> Option<Abort>
        ensures { result ≡ abort_in self access block }
    {
        if self.access == AccessControl::NonResident || self.access == AccessControl::Unused {
            return Some(Abort::Resident);
        }
        let length = u16::from(self.length);
        let within = match self.expansion {
            Expansion::Upward => block <= length,
            Expansion::Downward => length <= block,
        };
        if !within {
            return Some(Abort::Length);
        }
        if self.access == AccessControl::ReadOnly && access == Access::Write {
            return Some(Abort::ReadOnly);
        }
        None
    }

    /// The physical address (18 bits) of a virtual address through the page: the frame and the
    /// block are added, and the sum keeps its low 18 bits.
    #[inline(always)]
    pub fn physical(self, address: u16) -> u32
        ensures place { result ≡ mapped_address self address }
        ensures fits { result < physical_addresses }
    {
        let block = u32::from(self.frame) + u32::from(block(address));
        let byte = u32::from(address % BLOCK_BYTES);
        (block * u32::from(BLOCK_BYTES) + byte) % PHYSICAL_ADDRESSES
    }
}

/// The block of a virtual address in its page, bits 12-6: 0 to 177 (octal).
#[inline(always)]
pub fn block(address: u16) -> u16
    ensures { result ≡ block_of address }
{
    address / BLOCK_BYTES % BLOCKS_OF_PAGE
}
