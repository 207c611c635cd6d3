ghost use Rattle.std.specs.Prelude.{◌≡◌};
ghost use Rattle.pdp_operand.specs.declared.processor.Processor.{Processor};
ghost use Rattle.pdp_instruction.specs.Handbook.Extended.{long_in, pair_of, with_long};
ghost use Rattle.pdp_instruction.specs.Handbook.Extended.{pair_with_words};

use pdp_alu::{high_word, join_words, low_word};
use pdp_kt11::Mode;
use pdp_operand::{Processor, RegisterId};

/// The two registers of a number of 32 bits: R, and R or 1. Of an odd R both are R.
#[derive(Clone, Copy)]
pub struct Pair {
    pub high: RegisterId,
    pub low: RegisterId,
}

impl Pair {
    /// The pair of a register in a mode.
    #[inline(always)]
    pub fn of(mode: Mode, register: u8) -> Pair
        ensures { result ≡ pair_of mode register }
    {
        Pair {
            high: RegisterId::of(mode, register),
            low: RegisterId::of(mode, register - register % 2 + 1),
        }
    }

    /// The number of 32 bits in the pair.
    #[inline(always)]
    pub fn long(self, processor: &Processor) -> u32
        ensures { result ≡ long_in processor.now self }
    {
        join_words(processor.register(self.high), processor.register(self.low))
    }

    /// Writes a word into R, and then one into R or 1.
    #[inline(always)]
    pub fn set_words(self, processor: &mut Processor, first: u16, second: u16)
        ensures { processor.new ≡ pair_with_words processor.old self first second }
    {
        processor.set_register(self.high, first);
        processor.set_register(self.low, second);
    }

    /// Writes a number of 32 bits, its high word first.
    #[inline(always)]
    pub fn set_long(self, processor: &mut Processor, long: u32)
        ensures { processor.new ≡ with_long processor.old self long }
    {
        self.set_words(processor, high_word(long), low_word(long));
    }
}
