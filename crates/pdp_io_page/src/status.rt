ghost use Rattle.std.specs.Prelude.{◌≡◌, ◌↔◌, true};

use crate::bits::{PS_C, PS_MODE, PS_N, PS_PREVIOUS, PS_PRIORITY, PS_TRACE, PS_V, PS_Z};
use crate::priority::Priority;
use pdp_kt11::Mode;
use pdp_word::{Codes, bit_of, field, is_set};

/// What the program status word says: modes, priority, the trace bit and the condition codes.
///
/// DEC PDP-11/40 Processor Handbook (1972), Processor status word.
#[derive(Clone, Copy, Default)]
pub struct Status {
    pub mode: Mode,
    pub previous: Mode,
    pub priority: Priority,
    pub trace_bit: bool,
    pub codes: Codes,
}

impl Status {
    ghost use Rattle.pdp_io_page.specs.Handbook.Status.{status_of_word, status_word};
    ghost use Rattle.pdp_io_page.specs.Handbook.Status.{status_written};

    /// Whether both are the same in all.
    pub fn is_same(&self, other: &Status) -> bool
        ensures { (result ≡ true) ↔ (self.now ≡ other.now) }
    {
        if !is_same_mode(self.mode, other.mode) || !is_same_mode(self.previous, other.previous) {
            return false;
        }
        if !is_same_priority(self.priority, other.priority) || self.trace_bit != other.trace_bit {
            return false;
        }
        are_same_codes(self.codes, other.codes)
    }

    /// The program status word: bits 15-14 current mode, 13-12 previous mode, 7-5 priority, 4 T, 3
    /// N, 2 Z, 1 V, 0 C. Bits 11-8 are 0 [6.52].
    pub fn word(self) -> u16
        ensures { result ≡ status_word self }
    {
        let Codes { n, z, v, c } = self.codes;
        let modes = self.mode.bits() * PS_MODE + self.previous.bits() * PS_PREVIOUS;
        let codes = bit_of(n) * PS_N + bit_of(z) * PS_Z + bit_of(v) * PS_V + bit_of(c);
        modes + self.priority.bits() * PS_PRIORITY + bit_of(self.trace_bit) * PS_TRACE + codes
    }

    /// What a whole program status word says, T with it. Bits 11-8 count for nothing [4.58] [5.38].
    #[tactic(auto, unfolding(crate::specs::Handbook::Status::status_of_word))]
    pub fn of_word(word: u16) -> Status
        ensures { result ≡ status_of_word word }
    {
        Status {
            mode: Mode::of_bits(field(14, 2, word)),
            previous: Mode::of_bits(field(12, 2, word)),
            priority: Priority::of_bits(field(5, 3, word)),
            trace_bit: is_set(PS_TRACE, word),
            codes: Codes {
                n: is_set(PS_N, word),
                z: is_set(PS_Z, word),
                v: is_set(PS_V, word),
                c: is_set(PS_C, word),
            },
        }
    }

    /// The program status after its word was written: modes, priority and codes as the word has
    /// them. T stays, and bits 11-8 count for nothing [2.9].
    #[tactic(auto, unfolding(crate::specs::Handbook::Status::status_written))]
    pub fn written(self, word: u16) -> Status
        ensures { result ≡ status_written word self }
    {
        Status {
            trace_bit: self.trace_bit,
            ..Status::of_word(word)
        }
    }
}

/// Whether these are the same condition codes.
fn are_same_codes(some: Codes, others: Codes) -> bool
    ensures { (result ≡ true) ↔ (some ≡ others) }
{
    if some.n != others.n || some.z != others.z {
        return false;
    }
    if some.v != others.v {
        return false;
    }
    some.c == others.c
}

/// Whether these are the same mode.
fn is_same_mode(some: Mode, other: Mode) -> bool
    ensures { (result ≡ true) ↔ (some ≡ other) }
{
    some == other
}

/// Whether these are the same priority.
fn is_same_priority(some: Priority, other: Priority) -> bool
    ensures { (result ≡ true) ↔ (some ≡ other) }
{
    some == other
}
