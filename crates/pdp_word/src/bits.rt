ghost use Rattle.std.specs.Prelude.{◌≡◌, ◌<◌};
ghost use Rattle.pdp_word.specs.Bits.{bit_of, field};

/// 1 for a flag that is set, 0 for one that is clear.
#[inline(always)]
pub fn bit_of(flag: bool) -> u16
    ensures value { result ≡ bit_of flag }
    ensures one_bit { result < 2 }
{
    if flag { 1 } else { 0 }
}

/// So many bits of a word, from the lowest of them up: `field(14, 2, word)` is bits 15-14
/// (DEC PDP-11/40 Processor Handbook (1972), Processor status word).
#[inline(always)]
#[tactic(auto, using(std::proofs::lemmas::Nat::one_shl, std::proofs::lemmas::Nat::pow_pos))]
pub fn field(lowest: u32, width: u32, word: u16) -> u16
    requires lowest { lowest < 16 }
    requires width { width < 16 }
    ensures { result ≡ field lowest width word }
{
    (word >> lowest) % (1 << width)
}
