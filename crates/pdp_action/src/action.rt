//! Instructions by the phases that they have.
ghost use Rattle.std.specs.Prelude.{◌≡◌};
ghost use Rattle.pdp_action.specs.Action.{action_of, trap_of};
ghost use Rattle.pdp_action.specs.declared.action.Action.TheVariants.{Branch, Compare, Combine};
ghost use Rattle.pdp_action.specs.declared.action.Action.TheVariants.{Modify, Replace};

use crate::condition::Condition;
use crate::operation::{Combination, Comparison, Modification, Replacement};
use crate::trap::Trap;
use pdp_decode::{Instr, Specifier};
use pdp_word::{Codes, Size};

/// What an instruction does, by the phases that it has.
#[derive(Clone, Copy)]
pub enum Action {
    Halt,
    Wait,
    Reset,
    ReturnFromTrap,
    Jump {
        destination: Specifier,
    },
    JumpToSubroutine {
        register: u8,
        destination: Specifier,
    },
    ReturnFromSubroutine {
        register: u8,
    },
    Mark {
        words: u8,
    },
    SubtractOne {
        register: u8,
        words: u8,
    },
    ClearCodes {
        mask: Codes,
    },
    SetCodes {
        mask: Codes,
    },
    Branch {
        condition: Condition,
        offset: i8,
    },
    Move {
        source: Specifier,
        destination: Specifier,
    },
    MoveByte {
        source: Specifier,
        destination: Specifier,
    },
    Compare {
        comparison: Comparison,
        source: Specifier,
        destination: Specifier,
    },
    Combine {
        combination: Combination,
        source: Specifier,
        destination: Specifier,
    },
    Modify {
        modification: Modification,
        destination: Specifier,
    },
    Replace {
        replacement: Replacement,
        destination: Specifier,
    },
    Test {
        size: Size,
        destination: Specifier,
    },
    MoveFromPrevious {
        source: Specifier,
    },
    MoveToPrevious {
        destination: Specifier,
    },
    Multiply {
        register: u8,
        source: Specifier,
    },
    Divide {
        register: u8,
        source: Specifier,
    },
    Shift {
        register: u8,
        source: Specifier,
    },
    ShiftPair {
        register: u8,
        source: Specifier,
    },
    /// Nothing but a trap.
    Raise {
        trap: Trap,
    },
}

/// What an instruction does.
#[inline(always)]
pub fn action_of(instr: Instr) -> Action
    ensures { result ≡ action_of instr }
{
    match instr {
        Instr::Halt => Action::Halt,
        Instr::Wait => Action::Wait,
        Instr::Reset => Action::Reset,
        Instr::Rti | Instr::Rtt => Action::ReturnFromTrap,
        Instr::Jmp { destination } => Action::Jump { destination },
        Instr::Jsr {
            register,
            destination,
        } => Action::JumpToSubroutine {
            register,
            destination,
        },
        Instr::Rts { register } => Action::ReturnFromSubroutine { register },
        Instr::Mark { words } => Action::Mark { words },
        Instr::Sob { register, words } => Action::SubtractOne { register, words },
        Instr::ClearCodes { codes } => Action::ClearCodes { mask: codes },
        Instr::SetCodes { codes } => Action::SetCodes { mask: codes },
        Instr::Br { offset } => branch_action(Condition::Always, offset),
        Instr::Bne { offset } => branch_action(Condition::NotEqual, offset),
        Instr::Beq { offset } => branch_action(Condition::Equal, offset),
        Instr::Bge { offset } => branch_action(Condition::GreaterOrEqual, offset),
        Instr::Blt { offset } => branch_action(Condition::Less, offset),
        Instr::Bgt { offset } => branch_action(Condition::Greater, offset),
        Instr::Ble { offset } => branch_action(Condition::LessOrEqual, offset),
        Instr::Bpl { offset } => branch_action(Condition::Plus, offset),
        Instr::Bmi { offset } => branch_action(Condition::Minus, offset),
        Instr::Bhi { offset } => branch_action(Condition::Higher, offset),
        Instr::Blos { offset } => branch_action(Condition::LowerOrSame, offset),
        Instr::Bvc { offset } => branch_action(Condition::OverflowClear, offset),
        Instr::Bvs { offset } => branch_action(Condition::OverflowSet, offset),
        Instr::Bcc { offset } => branch_action(Condition::CarryClear, offset),
        Instr::Bcs { offset } => branch_action(Condition::CarrySet, offset),
        Instr::Mov {
            source,
            destination,
        } => Action::Move {
            source,
            destination,
        },
        Instr::Movb {
            source,
            destination,
        } => Action::MoveByte {
            source,
            destination,
        },
        Instr::Cmp {
            source,
            destination,
        } => compare_action(Comparison::Cmp(Size::Word), source, destination),
        Instr::Cmpb {
            source,
            destination,
        } => compare_action(Comparison::Cmp(Size::Byte), source, destination),
        Instr::Bit {
            source,
            destination,
        } => compare_action(Comparison::Bit(Size::Word), source, destination),
        Instr::Bitb {
            source,
            destination,
        } => compare_action(Comparison::Bit(Size::Byte), source, destination),
        Instr::Bic {
            source,
            destination,
        } => combine_action(Combination::Bic(Size::Word), source, destination),
        Instr::Bicb {
            source,
            destination,
        } => combine_action(Combination::Bic(Size::Byte), source, destination),
        Instr::Bis {
            source,
            destination,
        } => combine_action(Combination::Bis(Size::Word), source, destination),
        Instr::Bisb {
            source,
            destination,
        } => combine_action(Combination::Bis(Size::Byte), source, destination),
        Instr::Add {
            source,
            destination,
        } => combine_action(Combination::Add, source, destination),
        Instr::Sub {
            source,
            destination,
        } => combine_action(Combination::Sub, source, destination),
        Instr::Xor {
            register,
            destination,
        } => combine_action(Combination::Xor, Specifier::Register(register), destination),
        Instr::Mul { register, source } => Action::Multiply { register, source },
        Instr::Div { register, source } => Action::Divide { register, source },
        Instr::Ash { register, source } => Action::Shift { register, source },
        Instr::Ashc { register, source } => Action::ShiftPair { register, source },
        Instr::Clr { destination } => replace_action(Replacement::Clr(Size::Word), destination),
        Instr::Clrb { destination } => replace_action(Replacement::Clr(Size::Byte), destination),
        Instr::Sxt { destination } => replace_action(Replacement::Sxt, destination),
        Instr::Com { destination } => modify_action(Modification::Com(Size::Word), destination),
        Instr::Comb { destination } => modify_action(Modification::Com(Size::Byte), destination),
        Instr::Inc { destination } => modify_action(Modification::Inc(Size::Word), destination),
        Instr::Incb { destination } => modify_action(Modification::Inc(Size::Byte), destination),
        Instr::Dec { destination } => modify_action(Modification::Dec(Size::Word), destination),
        Instr::Decb { destination } => modify_action(Modification::Dec(Size::Byte), destination),
        Instr::Neg { destination } => modify_action(Modification::Neg(Size::Word), destination),
        Instr::Negb { destination } => modify_action(Modification::Neg(Size::Byte), destination),
        Instr::Adc { destination } => modify_action(Modification::Adc(Size::Word), destination),
        Instr::Adcb { destination } => modify_action(Modification::Adc(Size::Byte), destination),
        Instr::Sbc { destination } => modify_action(Modification::Sbc(Size::Word), destination),
        Instr::Sbcb { destination } => modify_action(Modification::Sbc(Size::Byte), destination),
        Instr::Ror { destination } => modify_action(Modification::Ror(Size::Word), destination),
        Instr::Rorb { destination } => modify_action(Modification::Ror(Size::Byte), destination),
        Instr::Rol { destination } => modify_action(Modification::Rol(Size::Word), destination),
        Instr::Rolb { destination } => modify_action(Modification::Rol(Size::Byte), destination),
        Instr::Asr { destination } => modify_action(Modification::Asr(Size::Word), destination),
        Instr::Asrb { destination } => modify_action(Modification::Asr(Size::Byte), destination),
        Instr::Asl { destination } => modify_action(Modification::Asl(Size::Word), destination),
        Instr::Aslb { destination } => modify_action(Modification::Asl(Size::Byte), destination),
        Instr::Swab { destination } => modify_action(Modification::Swab, destination),
        Instr::Tst { destination } => Action::Test {
            size: Size::Word,
            destination,
        },
        Instr::Tstb { destination } => Action::Test {
            size: Size::Byte,
            destination,
        },
        Instr::Mfpi { source } => Action::MoveFromPrevious { source },
        Instr::Mtpi { destination } => Action::MoveToPrevious { destination },
        Instr::Bpt | Instr::Iot | Instr::Emt { .. } | Instr::Trap { .. } | Instr::Reserved =>
            Action::Raise {
                trap: trap_of(instr),
            },
    }
}

/// The trap that an instruction asks for which does nothing else; a word that is no instruction
/// asks for that of a reserved word.
#[cold]
#[inline(never)]
fn trap_of(instr: Instr) -> Trap
    ensures { result ≡ trap_of instr }
{
    match instr {
        Instr::Bpt => Trap::Breakpoint,
        Instr::Iot => Trap::InputOutput,
        Instr::Emt { .. } => Trap::Emulator,
        Instr::Trap { .. } => Trap::TrapInstruction,
        _ => Trap::Reserved,
    }
}

#[inline(always)]
fn branch_action(condition: Condition, offset: i8) -> Action
    ensures { result ≡ Branch condition offset }
{
    Action::Branch { condition, offset }
}

#[inline(always)]
fn compare_action(comparison: Comparison, source: Specifier, destination: Specifier) -> Action
    ensures { result ≡ Compare comparison source destination }
{
    Action::Compare {
        comparison,
        source,
        destination,
    }
}

#[inline(always)]
fn combine_action(combination: Combination, source: Specifier, destination: Specifier) -> Action
    ensures { result ≡ Combine combination source destination }
{
    Action::Combine {
        combination,
        source,
        destination,
    }
}

#[inline(always)]
fn modify_action(modification: Modification, destination: Specifier) -> Action
    ensures { result ≡ Modify modification destination }
{
    Action::Modify {
        modification,
        destination,
    }
}

#[inline(always)]
fn replace_action(replacement: Replacement, destination: Specifier) -> Action
    ensures { result ≡ Replace replacement destination }
{
    Action::Replace {
        replacement,
        destination,
    }
}
