ghost use Rattle.std.specs.Prelude.{◌≡◌, ◌↔◌, true};
ghost use Rattle.pdp_kt11.specs.Handbook.Status.{abort_told, clear_status, mapping_status_word};
ghost use Rattle.pdp_kt11.specs.Handbook.Status.{mapping_status_written, tells_abort};

use crate::apr::PageNumber;
use crate::bits::{SR0_ENABLE, SR0_LENGTH, SR0_MODE, SR0_NON_RESIDENT, SR0_PAGE, SR0_READ_ONLY};
use crate::mode::Mode;
use crate::place::Abort;
use pdp_word::{bit_of, is_set};

/// SR0 of memory management.
///
/// DEC PDP-11/40 Processor Handbook (1972), Memory management.
#[derive(Clone, Copy)]
pub struct MappingStatus {
    /// Bit 15: an access to a page that isn't resident was aborted.
    pub resident_abort: bool,
    /// Bit 14: an access outside the length of its page was aborted.
    pub length_abort: bool,
    /// Bit 13: a write to a read-only page was aborted.
    pub read_only_abort: bool,
    /// Bits 6-5: the mode of the access that was aborted.
    pub mode: Mode,
    /// Bits 3-1: its page.
    pub page: PageNumber,
    /// Bit 0: mapping is on.
    pub enabled: bool,
}

impl MappingStatus {
    /// Whether both are the same in all.
    pub fn is_same(&self, other: &MappingStatus) -> bool
        ensures { (result ≡ true) ↔ (self.now ≡ other.now) }
    {
        if self.resident_abort != other.resident_abort || self.length_abort != other.length_abort {
            return false;
        }
        if self.read_only_abort != other.read_only_abort || self.enabled != other.enabled {
            return false;
        }
        is_same_mode(self.mode, other.mode) && is_same_page(self.page, other.page)
    }

    /// All bits 0, as of power-up and after RESET.
    #[tactic(auto, unfolding(crate::specs::Handbook::Status::clear_status))]
    pub const fn clear() -> MappingStatus
        ensures { result ≡ clear_status }
    {
        MappingStatus {
            resident_abort: false,
            length_abort: false,
            read_only_abort: false,
            mode: Mode::Kernel,
            page: PageNumber::P0,
            enabled: false,
        }
    }

    /// Whether one of bits 15-13 is set: then SR0 tells of an abort, or of what was written there,
    /// and neither it nor SR2 follows what comes.
    ///
    /// DEC PDP-11/40 Processor Handbook (1972), Memory management, which has it that an abort stops
    /// SR2; that it stops SR0, and that bits which were written stop both, is [6.23] [6.25].
    #[inline(always)]
    pub fn tells_abort(self) -> bool
        ensures { result ≡ tells_abort self }
    {
        self.resident_abort | self.length_abort | self.read_only_abort
    }

    /// The word of SR0: 15 non-resident, 14 length, 13 read only, 6-5 mode, 3-1 page, 0 enable. The
    /// others are 0 [6.49].
    pub fn word(self) -> u16
        ensures { result ≡ mapping_status_word self }
    {
        let aborts = bit_of(self.resident_abort) * SR0_NON_RESIDENT
            + bit_of(self.length_abort) * SR0_LENGTH
            + bit_of(self.read_only_abort) * SR0_READ_ONLY;
        let place = self.mode.bits() * SR0_MODE + self.page.number() * SR0_PAGE;
        aborts + place + bit_of(self.enabled)
    }

    /// SR0 after a word was written to it: bits 15-13 and 0 are the word's, mode and page stay
    /// [6.25].
    #[tactic(auto, unfolding(crate::specs::Handbook::Status::mapping_status_written))]
    pub fn written(self, word: u16) -> MappingStatus
        ensures { result ≡ mapping_status_written word self }
    {
        MappingStatus {
            resident_abort: is_set(SR0_NON_RESIDENT, word),
            length_abort: is_set(SR0_LENGTH, word),
            read_only_abort: is_set(SR0_READ_ONLY, word),
            enabled: is_set(SR0_ENABLE, word),
            ..self
        }
    }

    /// SR0 after an abort at this page of the mode: its flag, the mode and the page, if it tells of
    /// none yet. Else it stays [6.23].
    #[tactic(auto, unfolding(crate::specs::Handbook::Status::abort_told))]
    pub fn with_abort(self, abort: Abort, mode: Mode, page: PageNumber) -> MappingStatus
        ensures { result ≡ abort_told abort mode page self }
    {
        if self.tells_abort() {
            return self;
        }
        let told = MappingStatus { mode, page, ..self };
        match abort {
            Abort::Resident => MappingStatus {
                resident_abort: true,
                ..told
            },
            Abort::Length => MappingStatus {
                length_abort: true,
                ..told
            },
            Abort::ReadOnly => MappingStatus {
                read_only_abort: true,
                ..told
            },
        }
    }
}

/// Whether these are the same mode.
fn is_same_mode(some: Mode, other: Mode) -> bool
    ensures { (result ≡ true) ↔ (some ≡ other) }
{
    some == other
}

/// Whether these are the same page.
fn is_same_page(some: PageNumber, other: PageNumber) -> bool
    ensures { (result ≡ true) ↔ (some ≡ other) }
{
    some == other
}
