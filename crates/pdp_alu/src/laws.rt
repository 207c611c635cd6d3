//! Laws of the effects, for all operands that fit.

ghost use Rattle.pdp_alu.specs.Laws.{SumsAreExact, SignedSumsAreExact, OverflowMarksSums};
ghost use Rattle.pdp_alu.specs.Laws.{DifferencesAreExact, SignedDifferencesAreExact};
ghost use Rattle.pdp_alu.specs.Laws.{OverflowMarksDifferences};
ghost use Rattle.pdp_alu.specs.Laws.{ComparisonsTellEqual, ComparisonsTellBelow};
ghost use Rattle.pdp_alu.specs.Laws.{ComparisonsTellLess, OverflowMarksComparisons};
ghost use Rattle.pdp_alu.specs.Laws.{ComplementsUndoThemselves, NegativesUndoThemselves};
ghost use Rattle.pdp_alu.specs.Laws.{NegativesAreComplementsPlusOne};
ghost use Rattle.pdp_alu.specs.Laws.{IncrementsAddOne, OverflowMarksIncrements, DecrementsTakeOne};
ghost use Rattle.pdp_alu.specs.Laws.{OverflowMarksDecrements, NegativesNegate};
ghost use Rattle.pdp_alu.specs.Laws.{OverflowMarksNegatives};
ghost use Rattle.pdp_alu.specs.Laws.{CarriesRunOn, OverflowMarksCarries, BorrowsRunOn};
ghost use Rattle.pdp_alu.specs.Laws.{OverflowMarksBorrows};
ghost use Rattle.pdp_alu.specs.Laws.{RotationsUndoEachOther, RotationsGiveCarryBack, ShiftsHalve};
ghost use Rattle.pdp_alu.specs.Laws.{ShiftsDouble, OverflowMarksDoubles};
ghost use Rattle.pdp_alu.specs.Laws.{BitsAreTested, BitsAreCleared, BitsAreSet, BitsAreFlipped};
ghost use Rattle.pdp_alu.specs.Laws.{LogicTellsOfItsValue};
ghost use Rattle.pdp_alu.specs.Laws.{ClearingLeavesZero, TestsTellOfTheOperand, MovesKeepTheSource};
ghost use Rattle.pdp_alu.specs.Laws.{ExtensionsSpreadTheSign};
ghost use Rattle.pdp_alu.specs.Laws.{SwapsExchangeBytes, SwapsUndoThemselves};

/// A law and no code: with C as the bit above the word, the sum of ADD is that of the operands. If
/// V is clear the signed sum is that of the signed operands, and V is set exactly if that is no
/// signed word.
///
/// Source: DEC PDP-11/40 Processor Handbook (1972), Instruction set, ADD.
#[tactic(auto, unfolding(crate::specs::Arithmetic::add_effect))]
pub fn sums_are_exact()
    ensures unsigned { SumsAreExact }
    ensures signed { SignedSumsAreExact }
    ensures overflow { OverflowMarksSums }
{}

/// A law and no code: with C as a borrow from the bit above the word, the difference of SUB is that
/// of the operands. If V is clear the signed difference is that of the signed operands, and V is
/// set exactly if that is no signed word.
///
/// Source: DEC PDP-11/40 Processor Handbook (1972), Instruction set, SUB.
#[tactic(auto, unfolding(crate::specs::Arithmetic::sub_effect))]
pub fn differences_are_exact()
    ensures unsigned { DifferencesAreExact }
    ensures signed { SignedDifferencesAreExact }
    ensures overflow { OverflowMarksDifferences }
{}

/// A law and no code: after CMP, Z tells whether source equals destination, C whether it is below
/// it, and N exclusive or V whether it is below it as a signed number, as the branches take them. V
/// is set exactly if the signed difference does not fit.
///
/// Source: DEC PDP-11/40 Processor Handbook (1972), Instruction set, CMP.
#[tactic(auto, using(crate::proofs::Rules::signs), unfolding(crate::specs::cmp_effect))]
pub fn comparisons_order_operands()
    ensures equal { ComparisonsTellEqual }
    ensures below { ComparisonsTellBelow }
    ensures less { ComparisonsTellLess }
    ensures overflow { OverflowMarksComparisons }
{}

/// A law and no code: COM and NEG undo themselves, and NEG is COM and then INC.
///
/// Source: DEC PDP-11/40 Processor Handbook (1972), Instruction set, COM, NEG and INC.
#[tactic(auto, using(crate::proofs::Rules::signs), unfolding(crate::specs::com_effect))]
pub fn complements_and_negatives_undo_themselves()
    ensures complement { ComplementsUndoThemselves }
    ensures negative { NegativesUndoThemselves }
    ensures complement_plus_one { NegativesAreComplementsPlusOne }
{}

/// A law and no code: if V is clear, INC, DEC and NEG have the signed result that their names say,
/// and V is set exactly if that result does not fit.
///
/// Source: DEC PDP-11/40 Processor Handbook (1972), Instruction set, INC, DEC and NEG.
#[tactic(auto, unfolding(crate::proofs::Rules::signed_effects))]
pub fn overflow_marks_wrong_signed_results()
    ensures increment { IncrementsAddOne }
    ensures increment_overflow { OverflowMarksIncrements }
    ensures decrement { DecrementsTakeOne }
    ensures decrement_overflow { OverflowMarksDecrements }
    ensures negative { NegativesNegate }
    ensures negative_overflow { OverflowMarksNegatives }
{}

/// A law and no code: with the new C as the bit above the operand, ADC adds the old C to it and SBC
/// takes the old C from it, so that sums and differences of many words can be formed word by word.
/// V is set exactly if the signed result does not fit.
///
/// Source: DEC PDP-11/40 Processor Handbook (1972), Instruction set, ADC and SBC.
#[tactic(auto, unfolding(crate::specs::adc_effect, crate::specs::sbc_effect))]
pub fn carries_run_on()
    ensures carry { CarriesRunOn }
    ensures carry_overflow { OverflowMarksCarries }
    ensures borrow { BorrowsRunOn }
    ensures borrow_overflow { OverflowMarksBorrows }
{}

/// A law and no code: ROR undoes ROL, the carry too.
///
/// Source: DEC PDP-11/40 Processor Handbook (1972), Instruction set, ROR and ROL.
#[tactic(auto, unfolding(crate::specs::Shifts::rol_effect, crate::specs::Shifts::ror_effect))]
pub fn rotations_undo_each_other()
    ensures value { RotationsUndoEachOther }
    ensures carry { RotationsGiveCarryBack }
{}

/// A law and no code: ASR halves a signed number, with C as the rest. ASL doubles it if V is clear,
/// and V is set exactly if the double does not fit.
///
/// Source: DEC PDP-11/40 Processor Handbook (1972), Instruction set, ASR and ASL.
#[tactic(auto, unfolding(crate::specs::Shifts::asl_effect, crate::specs::Shifts::asr_effect))]
pub fn shifts_halve_and_double()
    ensures halves { ShiftsHalve }
    ensures doubles { ShiftsDouble }
    ensures overflow { OverflowMarksDoubles }
{}

/// A law and no code: BIT, BIC, BIS and XOR go bit by bit, of which BIT takes those of both
/// operands, BIC those of the destination alone, BIS those of either, and XOR those of one alone. N
/// and Z tell of the value, V is clear, C is kept.
///
/// Source: DEC PDP-11/40 Processor Handbook (1972), Instruction set, BIT, BIC, BIS and XOR.
#[tactic(auto, using(crate::proofs::Rules::bits))]
pub fn logic_goes_bit_by_bit()
    ensures tested { BitsAreTested }
    ensures cleared { BitsAreCleared }
    ensures set { BitsAreSet }
    ensures flipped { BitsAreFlipped }
    ensures codes { LogicTellsOfItsValue }
{}

/// A law and no code: CLR leaves 0, TST and MOV leave their operand, and SXT the sign in every bit.
/// N and Z tell of the value and V is clear; CLR and TST clear C, MOV and SXT keep it.
///
/// Source: DEC PDP-11/40 Processor Handbook (1972), Instruction set, CLR, TST, MOV and SXT.
#[tactic(auto, using(crate::proofs::Rules::signs), unfolding(crate::proofs::Rules::plain_effects))]
pub fn codes_tell_of_the_value()
    ensures clear { ClearingLeavesZero }
    ensures test { TestsTellOfTheOperand }
    ensures moved { MovesKeepTheSource }
    ensures extended { ExtensionsSpreadTheSign }
{}

/// A law and no code: SWAB exchanges the bytes, with N and Z of the low byte of the result and V
/// and C clear, and undoes itself.
///
/// Source: DEC PDP-11/40 Processor Handbook (1972), Instruction set, SWAB.
#[tactic(auto, unfolding(crate::specs::Bytes::swab_effect))]
pub fn swaps_undo_themselves()
    ensures exchanged { SwapsExchangeBytes }
    ensures undone { SwapsUndoThemselves }
{}
