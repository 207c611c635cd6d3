ghost use Rattle.std.specs.Prelude.{◌≡◌, ◌<◌};

/// A processor mode, as bits 15-14 (current) and 13-12 (previous) of the program status word give
/// it.
///
/// DEC PDP-11/40 Processor Handbook (1972), Memory management. The bit patterns 01 and 10 name no
/// mode of the handbook: they use the user's stack pointer [2.2].
#[derive(Clone, Copy, PartialEq, Eq, Default)]
pub enum Mode {
    /// 00
    #[default]
    Kernel,
    /// 01, which no handbook mode has
    Bad1,
    /// 10, which no handbook mode has
    Bad2,
    /// 11
    User,
}

impl Mode {
    ghost use Rattle.pdp_kt11.specs.Handbook.Mode.{mode_bits, mode_of};

    /// The mode of two bits of the program status word, 0 to 3.
    #[inline]
    #[tactic(auto, unfolding(crate::specs::Handbook::Mode::mode_of))]
    pub fn of_bits(bits: u16) -> Mode
        requires { bits < 4 }
        ensures mode { result ≡ mode_of bits }
        ensures bits { mode_bits result ≡ bits }
    {
        match bits {
            0 => Mode::Kernel,
            1 => Mode::Bad1,
            2 => Mode::Bad2,
            _ => Mode::User,
        }
    }

    /// The two bits of the mode in the program status word: 0 to 3.
    #[inline(always)]
    pub fn bits(self) -> u16
        ensures bits { result ≡ mode_bits self }
        ensures two_bits { result < 4 }
    {
        self as u16
    }
}
