ghost use Rattle.std.specs.Prelude.{◌≡◌};

use pdp_word::Codes;

/// When a branch is taken.
#[derive(Clone, Copy)]
pub enum Condition {
    /// BR
    Always,
    /// BNE: Z is 0.
    NotEqual,
    /// BEQ: Z is 1.
    Equal,
    /// BGE: N equals V.
    GreaterOrEqual,
    /// BLT: N is not V.
    Less,
    /// BGT: Z is 0 and N equals V.
    Greater,
    /// BLE: Z is 1 or N is not V.
    LessOrEqual,
    /// BPL: N is 0.
    Plus,
    /// BMI: N is 1.
    Minus,
    /// BHI: C and Z are 0.
    Higher,
    /// BLOS: C or Z is 1.
    LowerOrSame,
    /// BVC: V is 0.
    OverflowClear,
    /// BVS: V is 1.
    OverflowSet,
    /// BCC: C is 0.
    CarryClear,
    /// BCS: C is 1.
    CarrySet,
}

impl Condition {
    ghost use Rattle.pdp_action.specs.Condition.{is_taken};

    /// Whether the branch is taken with these codes.
    #[inline(always)]
    pub fn is_taken(self, codes: Codes) -> bool
        ensures { result ≡ is_taken self codes }
    {
        match self {
            Condition::Always => true,
            Condition::NotEqual => !codes.z,
            Condition::Equal => codes.z,
            Condition::GreaterOrEqual => codes.n == codes.v,
            Condition::Less => codes.n != codes.v,
            Condition::Greater => !codes.z && codes.n == codes.v,
            Condition::LessOrEqual => codes.z || codes.n != codes.v,
            Condition::Plus => !codes.n,
            Condition::Minus => codes.n,
            Condition::Higher => !codes.c && !codes.z,
            Condition::LowerOrSame => codes.c || codes.z,
            Condition::OverflowClear => !codes.v,
            Condition::OverflowSet => codes.v,
            Condition::CarryClear => !codes.c,
            Condition::CarrySet => codes.c,
        }
    }
}
