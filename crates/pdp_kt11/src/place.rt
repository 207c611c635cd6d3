ghost use Rattle.std.specs.Prelude.{◌≡◌, ◌<◌};
ghost use Rattle.pdp_word.specs.Physical.{physical_addresses};
ghost use Rattle.pdp_kt11.specs.Handbook.Place.{unmapped_address};

use crate::bits::{IO_PAGE, IO_PAGE_HIGHER};

/// What an access does with the word that it reaches.
#[derive(Clone, Copy, PartialEq, Eq)]
pub enum Access {
    Read,
    Write,
}

/// Why memory management doesn't let an access through.
///
/// DEC PDP-11/40 Processor Handbook (1972), Memory management.
#[derive(Clone, Copy, Debug, PartialEq, Eq)]
pub enum Abort {
    /// The page is not resident.
    Resident,
    /// The address is outside the length of its page.
    Length,
    /// A write to a read-only page.
    ReadOnly,
}

/// The physical byte address (18 bits) of a virtual byte address (16 bits) while mapping is off:
/// the top 4K words 160000-177777 (octal) are the I/O page 760000-777777, and every other address
/// is itself.
///
/// DEC PDP-11/40 Processor Handbook (1972), Memory management.
#[inline(always)]
#[tactic(auto, unfolding(crate::specs::Handbook::Place::unmapped_address))]
pub fn unmapped(address: u16) -> u32
    ensures place { result ≡ unmapped_address address }
    ensures fits { result < physical_addresses }
{
    let address = u32::from(address);
    if address < IO_PAGE {
        address
    } else {
        address + IO_PAGE_HIGHER
    }
}
