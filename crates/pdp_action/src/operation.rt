ghost use Rattle.std.specs.Prelude.{◌≡◌, ◌<◌};
ghost use Rattle.pdp_word.specs.Size.{span};
ghost use Rattle.pdp_action.specs.Operation.{size_of_comparison, comparison_effect};
ghost use Rattle.pdp_action.specs.Operation.{size_of_combination, combination_effect};
ghost use Rattle.pdp_action.specs.Operation.{size_of_modification, modification_effect};
ghost use Rattle.pdp_action.specs.Operation.{size_of_replacement, replacement_effect};

use pdp_alu::{
    Effect, adc, add, asl, asr, bic, bis, bit, clr, cmp, com, dec, inc, neg, rol, ror, sbc, sub,
    swab, sxt, xor,
};
use pdp_word::{Codes, Size};

/// What is done with two operands of which neither is written.
#[derive(Clone, Copy)]
pub enum Comparison {
    Cmp(Size),
    Bit(Size),
}

impl Comparison {
    /// The size of its operands.
    #[inline(always)]
    pub fn size(self) -> Size
        ensures { result ≡ size_of_comparison self }
    {
        match self {
            Comparison::Cmp(size) | Comparison::Bit(size) => size,
        }
    }

    /// Its effect on these operands, with these codes from before.
    #[inline(always)]
    pub fn effect(self, source: u16, destination: u16, codes: Codes) -> Effect
        ensures { result ≡ comparison_effect self source destination codes }
    {
        match self {
            Comparison::Cmp(size) => cmp(size, source, destination),
            Comparison::Bit(size) => bit(size, source, destination, codes),
        }
    }
}

/// What is done with two operands of which the destination is read and written.
#[derive(Clone, Copy)]
pub enum Combination {
    Bic(Size),
    Bis(Size),
    Add,
    Sub,
    Xor,
}

impl Combination {
    /// The size of its operands.
    #[inline(always)]
    pub fn size(self) -> Size
        ensures { result ≡ size_of_combination self }
    {
        match self {
            Combination::Bic(size) | Combination::Bis(size) => size,
            Combination::Add | Combination::Sub | Combination::Xor => Size::Word,
        }
    }

    /// Its effect on these operands, with these codes from before.
    #[inline(always)]
    pub fn effect(self, source: u16, destination: u16, codes: Codes) -> Effect
        ensures effect { result ≡ combination_effect self source destination codes }
        ensures fits { result.value < span (size_of_combination self) }
    {
        match self {
            Combination::Bic(size) => bic(size, source, destination, codes),
            Combination::Bis(size) => bis(size, source, destination, codes),
            Combination::Add => add(source, destination),
            Combination::Sub => sub(source, destination),
            Combination::Xor => xor(source, destination, codes),
        }
    }
}

/// What is done with one operand that is read and written.
#[derive(Clone, Copy)]
pub enum Modification {
    Com(Size),
    Inc(Size),
    Dec(Size),
    Neg(Size),
    Adc(Size),
    Sbc(Size),
    Ror(Size),
    Rol(Size),
    Asr(Size),
    Asl(Size),
    Swab,
}

impl Modification {
    /// The size of its operand.
    #[inline(always)]
    pub fn size(self) -> Size
        ensures { result ≡ size_of_modification self }
    {
        match self {
            Modification::Com(size)
            | Modification::Inc(size)
            | Modification::Dec(size)
            | Modification::Neg(size)
            | Modification::Adc(size)
            | Modification::Sbc(size)
            | Modification::Ror(size)
            | Modification::Rol(size)
            | Modification::Asr(size)
            | Modification::Asl(size) => size,
            Modification::Swab => Size::Word,
        }
    }

    /// Its effect on this operand, with these codes from before.
    #[inline(always)]
    pub fn effect(self, operand: u16, codes: Codes) -> Effect
        ensures effect { result ≡ modification_effect self operand codes }
        ensures fits { result.value < span (size_of_modification self) }
    {
        match self {
            Modification::Com(size) => com(size, operand),
            Modification::Inc(size) => inc(size, operand, codes),
            Modification::Dec(size) => dec(size, operand, codes),
            Modification::Neg(size) => neg(size, operand),
            Modification::Adc(size) => adc(size, operand, codes),
            Modification::Sbc(size) => sbc(size, operand, codes),
            Modification::Ror(size) => ror(size, operand, codes),
            Modification::Rol(size) => rol(size, operand, codes),
            Modification::Asr(size) => asr(size, operand),
            Modification::Asl(size) => asl(size, operand),
            Modification::Swab => swab(operand),
        }
    }
}

/// What is put in the place of one operand, which is not read.
#[derive(Clone, Copy)]
pub enum Replacement {
    Clr(Size),
    Sxt,
}

impl Replacement {
    /// The size of its operand.
    #[inline(always)]
    pub fn size(self) -> Size
        ensures { result ≡ size_of_replacement self }
    {
        match self {
            Replacement::Clr(size) => size,
            Replacement::Sxt => Size::Word,
        }
    }

    /// Its effect, with these codes from before.
    #[inline(always)]
    pub fn effect(self, codes: Codes) -> Effect
        ensures effect { result ≡ replacement_effect self codes }
        ensures fits { result.value < span (size_of_replacement self) }
    {
        match self {
            Replacement::Clr(size) => clr(size),
            Replacement::Sxt => sxt(codes),
        }
    }
}
