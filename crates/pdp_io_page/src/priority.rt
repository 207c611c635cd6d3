ghost use Rattle.std.specs.Prelude.{◌≡◌, ◌<◌};

/// The priority of the processor, as bits 7-5 of the program status word give it, or the level of a
/// request.
///
/// DEC PDP-11/40 Processor Handbook (1972), Processor status word.
#[derive(Clone, Copy, PartialEq, Eq, Default)]
pub enum Priority {
    #[default]
    Level0,
    Level1,
    Level2,
    Level3,
    Level4,
    Level5,
    Level6,
    Level7,
}

impl Priority {
    ghost use Rattle.pdp_io_page.specs.Handbook.Status.{is_above, priority_bits, priority_of};

    /// The priority of three bits of the program status word, 0 to 7.
    #[tactic(auto, unfolding(crate::specs::Handbook::Status::priority_of))]
    pub fn of_bits(bits: u16) -> Priority
        requires { bits < 8 }
        ensures priority { result ≡ priority_of bits }
        ensures bits { priority_bits result ≡ bits }
    {
        match bits {
            0 => Priority::Level0,
            1 => Priority::Level1,
            2 => Priority::Level2,
            3 => Priority::Level3,
            4 => Priority::Level4,
            5 => Priority::Level5,
            6 => Priority::Level6,
            _ => Priority::Level7,
        }
    }

    /// The level, 0 to 7.
    pub fn bits(self) -> u16
        ensures bits { result ≡ priority_bits self }
        ensures three_bits { result < 8 }
    {
        match self {
            Priority::Level0 => 0,
            Priority::Level1 => 1,
            Priority::Level2 => 2,
            Priority::Level3 => 3,
            Priority::Level4 => 4,
            Priority::Level5 => 5,
            Priority::Level6 => 6,
            Priority::Level7 => 7,
        }
    }

    /// Whether this level is above the other: a request at this level interrupts a processor of the
    /// other's priority.
    pub fn is_above(self, other: Priority) -> bool
        ensures { result ≡ is_above self other }
    {
        self.bits() > other.bits()
    }
}
