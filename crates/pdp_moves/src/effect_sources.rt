//! What the value and the codes of each operation are made of.

ghost use Rattle.pdp_action.specs.declared.operation.Modification.TheVariants.{Swab};
ghost use Rattle.pdp_action.specs.declared.operation.Replacement.TheVariants.{Sxt};
ghost use Rattle.pdp_made.specs.EffectRows.{clears_overflow, combination_cells, comparison_cells};
ghost use Rattle.pdp_made.specs.EffectRows.{keeps_carry, modification_cells, mov_cells};
ghost use Rattle.pdp_made.specs.EffectRows.{replacement_cells, sets_codes, sets_signs, tst_cells};
ghost use Rattle.pdp_moves.specs.Built.{AreOfEffect, halves_taken, way_between};

use crate::cell_name::{CellName, CodeName, HalfName};
use crate::operands_taken::{HalvesWay, OperandsTaken};
use crate::sources::{CodeSources, HalfSources, Sources, sources};
use pdp_action::{Combination, Comparison, Modification, Replacement};
use pdp_word::Size;

/// The sources of what an operation does.
#[derive(Drop)]
pub(crate) struct EffectSources {
    pub value: HalfSources,
    pub codes: CodeSources,
}

impl EffectSources {
    /// All codes are made of the operands.
    fn of_codes(size: Size, way: HalvesWay, operands: OperandsTaken) -> EffectSources
        ensures { AreOfEffect result (sets_codes size (way_between way) (halves_taken operands)) }
    {
        EffectSources {
            value: operands.value(size, way),
            codes: CodeSources {
                negative: operands.cells(size),
                zero: operands.cells(size),
                overflow: operands.cells(size),
                carry: operands.cells(size),
            },
        }
    }

    /// C is kept.
    fn with_carry(size: Size, way: HalvesWay, operands: OperandsTaken) -> EffectSources
        ensures { AreOfEffect result (keeps_carry size (way_between way) (halves_taken operands)) }
    {
        EffectSources {
            value: operands.value(size, way),
            codes: CodeSources {
                negative: operands.cells(size),
                zero: operands.cells(size),
                overflow: operands.cells(size),
                carry: sources(&[CellName::CodeNow(CodeName::Carry)]),
            },
        }
    }

    /// C is kept, and V is 0.
    fn without_overflow(size: Size, way: HalvesWay, operands: OperandsTaken) -> EffectSources
        ensures { AreOfEffect result (clears_overflow size (way_between way)
            (halves_taken operands)) }
    {
        EffectSources {
            value: operands.value(size, way),
            codes: CodeSources {
                negative: operands.cells(size),
                zero: operands.cells(size),
                overflow: Sources::new(),
                carry: sources(&[CellName::CodeNow(CodeName::Carry)]),
            },
        }
    }

    /// V is 0, and C is always the same.
    fn of_signs(size: Size, way: HalvesWay, operands: OperandsTaken) -> EffectSources
        ensures { AreOfEffect result (sets_signs size (way_between way) (halves_taken operands)) }
    {
        EffectSources {
            value: operands.value(size, way),
            codes: CodeSources {
                negative: operands.cells(size),
                zero: operands.cells(size),
                overflow: Sources::new(),
                carry: Sources::new(),
            },
        }
    }

    /// MOV.
    pub(crate) fn of_mov(size: Size) -> EffectSources
        ensures { AreOfEffect result (mov_cells size) }
    {
        EffectSources::without_overflow(size, HalvesWay::Straight, OperandsTaken::Source)
    }

    /// TST.
    pub(crate) fn of_tst(size: Size) -> EffectSources
        ensures { AreOfEffect result (tst_cells size) }
    {
        EffectSources::of_signs(size, HalvesWay::Straight, OperandsTaken::Value)
    }

    /// CMP and BIT.
    pub(crate) fn of_comparison(comparison: Comparison) -> EffectSources
        ensures { AreOfEffect result (comparison_cells comparison) }
    {
        match comparison {
            Comparison::Cmp(size) => {
                EffectSources::of_codes(size, HalvesWay::Up, OperandsTaken::Both)
            }
            Comparison::Bit(size) => {
                EffectSources::without_overflow(size, HalvesWay::Straight, OperandsTaken::Both)
            }
        }
    }

    /// BIC, BIS, ADD, SUB and XOR.
    pub(crate) fn of_combination(combination: Combination) -> EffectSources
        ensures { AreOfEffect result (combination_cells combination) }
    {
        let straight = HalvesWay::Straight;
        match combination {
            Combination::Bic(size) => {
                EffectSources::without_overflow(size, straight, OperandsTaken::WithComplement)
            }
            Combination::Bis(size) => {
                EffectSources::without_overflow(size, straight, OperandsTaken::Both)
            }
            Combination::Add | Combination::Sub => {
                EffectSources::of_codes(Size::Word, HalvesWay::Up, OperandsTaken::Both)
            }
            Combination::Xor => {
                EffectSources::without_overflow(Size::Word, straight, OperandsTaken::Both)
            }
        }
    }

    /// COM, INC, DEC, NEG, ADC, SBC, ROR, ROL, ASR, ASL and SWAB.
    pub(crate) fn of_modification(modification: Modification) -> EffectSources
        ensures { AreOfEffect result (modification_cells modification) }
    {
        let value = OperandsTaken::Value;
        let carry = OperandsTaken::ValueAndCarry;
        match modification {
            Modification::Com(size) => EffectSources::of_signs(size, HalvesWay::Straight, value),
            Modification::Inc(size) | Modification::Dec(size) => {
                EffectSources::with_carry(size, HalvesWay::Up, value)
            }
            Modification::Neg(size) | Modification::Asl(size) => {
                EffectSources::of_codes(size, HalvesWay::Up, value)
            }
            Modification::Adc(size) | Modification::Sbc(size) | Modification::Rol(size) => {
                EffectSources::of_codes(size, HalvesWay::Up, carry)
            }
            Modification::Ror(size) => EffectSources::of_codes(size, HalvesWay::Down, carry),
            Modification::Asr(size) => EffectSources::of_codes(size, HalvesWay::Down, value),
            Modification::Swab => EffectSources::of_swab(),
        }
    }

    /// SWAB: N and Z are those of the new low half.
    fn of_swab() -> EffectSources
        ensures { AreOfEffect result (modification_cells Swab) }
    {
        let low = CellName::ValueByte(HalfName::Low);
        let high = CellName::ValueByte(HalfName::High);
        EffectSources {
            value: HalfSources {
                low: sources(&[high]),
                high: sources(&[low, high]),
            },
            codes: CodeSources {
                negative: sources(&[high]),
                zero: sources(&[high]),
                overflow: Sources::new(),
                carry: Sources::new(),
            },
        }
    }

    /// CLR and SXT.
    pub(crate) fn of_replacement(replacement: Replacement) -> EffectSources
        ensures { AreOfEffect result (replacement_cells replacement) }
    {
        match replacement {
            Replacement::Clr(size) => {
                EffectSources::of_signs(size, HalvesWay::Straight, OperandsTaken::Nothing)
            }
            Replacement::Sxt => EffectSources::of_sxt(),
        }
    }

    /// SXT.
    fn of_sxt() -> EffectSources
        ensures { AreOfEffect result (replacement_cells Sxt) }
    {
        let negative = CellName::CodeNow(CodeName::Negative);
        EffectSources {
            value: HalfSources {
                low: sources(&[negative]),
                high: sources(&[negative]),
            },
            codes: CodeSources {
                negative: sources(&[negative]),
                zero: sources(&[negative]),
                overflow: Sources::new(),
                carry: sources(&[CellName::CodeNow(CodeName::Carry)]),
            },
        }
    }
}
