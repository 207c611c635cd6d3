//! Laws of MUL, DIV, ASH and ASHC, for all operands that fit.

ghost use Rattle.pdp_alu.specs.ExtendedLaws.{QuotientsExist, QuotientsAreUnique, DivisionsAreExact};
ghost use Rattle.pdp_alu.specs.ExtendedLaws.{WordShiftsMultiply, LongShiftsMultiply};
ghost use Rattle.pdp_alu.specs.ExtendedLaws.{OverflowMarksWordMultiples};
ghost use Rattle.pdp_alu.specs.ExtendedLaws.{OverflowMarksLongMultiples};
ghost use Rattle.pdp_alu.specs.ExtendedLaws.{CarryIsBitAboveWord, CarryIsBitAboveLong};
ghost use Rattle.pdp_alu.specs.ExtendedLaws.{CountZeroMovesNothing, CountsHaveSixBits};
ghost use Rattle.pdp_alu.specs.ExtendedLaws.{WordShiftsDivide, LongShiftsDivide};
ghost use Rattle.pdp_alu.specs.ExtendedLaws.{CarryIsBitBelowWord, CarryIsBitBelowLong};
ghost use Rattle.pdp_alu.specs.ExtendedLaws.{RightShiftsNeverOverflow};
ghost use Rattle.pdp_alu.specs.ExtendedLaws.{ProductsAreExact, LowProductsAreExact};
ghost use Rattle.pdp_alu.specs.ExtendedLaws.{CarryMarksLongProducts};

/// A law and no code: each dividend and each divisor but 0 have one quotient and one remainder.
/// They are those of `int_div` and `int_rem`, by which DIV is defined.
///
/// Source: DEC PDP-11/40 Processor Handbook (1972), Extended instruction set, DIV.
#[tactic(auto, using(crate::proofs::Divisions::division_exists))]
pub fn quotients_are_unique()
    ensures exists { QuotientsExist }
    ensures unique { QuotientsAreUnique }
{}

/// A law and no code: DIV divides the signed numbers, with the quotient and the remainder as signed
/// words. It does so unless the divisor is 0 or the quotient is no signed word.
///
/// Source: DEC PDP-11/40 Processor Handbook (1972), Extended instruction set, DIV.
#[tactic(auto, using(crate::proofs::WordDivisions::division_of_words))]
pub fn divisions_are_exact()
    ensures { DivisionsAreExact }
{}

/// A law and no code: if V is clear, ASH and ASHC to the left multiply the signed number by 2 to
/// the count. V is set exactly if that product does not fit, so if the sign changes at any single
/// shift. C is the last bit that was moved out. The count is the low six bits of the source, and 0
/// moves nothing.
///
/// Source: DEC PDP-11/40 Processor Handbook (1972), Extended instruction set, ASH and ASHC.
#[tactic(auto, using(crate::proofs::Rules::left_shifts), unfolding(crate::proofs::Rules::shifts))]
pub fn shifts_to_the_left_multiply()
    ensures word { WordShiftsMultiply }
    ensures long { LongShiftsMultiply }
    ensures word_overflow { OverflowMarksWordMultiples }
    ensures long_overflow { OverflowMarksLongMultiples }
    ensures word_carry { CarryIsBitAboveWord }
    ensures long_carry { CarryIsBitAboveLong }
    ensures zero { CountZeroMovesNothing }
    ensures count { CountsHaveSixBits }
{}

/// A law and no code: ASH and ASHC to the right divide the signed number by 2 to the count, rounded
/// down. C is the last bit that was moved out, and V is clear.
///
/// Source: DEC PDP-11/40 Processor Handbook (1972), Extended instruction set, ASH and ASHC.
#[tactic(auto, using(crate::proofs::Rules::right_shifts))]
pub fn shifts_to_the_right_divide()
    ensures word { WordShiftsDivide }
    ensures long { LongShiftsDivide }
    ensures word_carry { CarryIsBitBelowWord }
    ensures long_carry { CarryIsBitBelowLong }
    ensures overflow { RightShiftsNeverOverflow }
{}

/// A law and no code: the product of MUL is that of the signed words, and if C is clear its low
/// word alone is. C is set exactly if the product is no signed word, and V is clear.
///
/// Source: DEC PDP-11/40 Processor Handbook (1972), Extended instruction set, MUL.
#[tactic(auto, using(crate::proofs::Rules::products), unfolding(crate::specs::mul_effect))]
pub fn products_are_exact()
    ensures long { ProductsAreExact }
    ensures word { LowProductsAreExact }
    ensures carry { CarryMarksLongProducts }
{}
