ghost use Rattle.std.specs.Prelude.{◌≡◌, ◌<◌};
ghost use Rattle.pdp_word.specs.Mask.{is_set};

/// Whether a word has the bit of this mask, which is the word that has that bit alone
/// (DEC PDP-11/40 Processor Handbook (1972), Processor status word).
#[inline(always)]
pub fn is_set(mask: u16, word: u16) -> bool
    requires { 0 < mask }
    ensures { result ≡ is_set mask word }
{
    word / mask % 2 == 1
}
