ghost use Rattle.std.specs.Prelude.{◌≡◌, ◌<◌, ◌≤◌, ◌*◌, ◌^◌};
ghost use Rattle.pdp_alu.specs.ArithmeticShifts.{shifted_left, shifted_right, shifting_from};

/// A number that is being shifted, the bit that was moved out last, and whether the sign has
/// changed.
#[derive(Clone, Copy)]
pub struct Shifting {
    pub number: u32,
    pub out: bool,
    pub sign_changed: bool,
}

impl Shifting {
    /// A number before it is shifted.
    #[inline]
    pub fn unshifted(number: u32) -> Shifting
        ensures { result ≡ shifting_from number }
    {
        Shifting {
            number,
            out: false,
            sign_changed: false,
        }
    }

    /// One place to the left: the sign bit goes out.
    #[inline]
    pub fn left(self, sign: u32) -> Shifting
        requires sign { sign ≤ 2 ^ 31 }
        requires number { self.number < 2 * sign }
        ensures shifted { result ≡ shifted_left sign self }
        ensures fits { result.number < 2 * sign }
    {
        let out = self.number >= sign;
        let rest = if out { self.number - sign } else { self.number };
        let number = rest * 2;
        Shifting {
            number,
            out,
            sign_changed: self.sign_changed || out != (number >= sign),
        }
    }

    /// One place to the right: the lowest bit goes out, the sign bit stays.
    #[inline]
    pub fn right(self, sign: u32) -> Shifting
        requires sign { sign ≤ 2 ^ 31 }
        requires number { self.number < 2 * sign }
        ensures shifted { result ≡ shifted_right sign self }
        ensures fits { result.number < 2 * sign }
    {
        let kept = if self.number >= sign { sign } else { 0 };
        Shifting {
            number: self.number / 2 + kept,
            out: self.number % 2 == 1,
            sign_changed: self.sign_changed,
        }
    }
}
