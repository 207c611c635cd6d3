// What stands after the mnemonic of an instruction.
ghost use Rattle.std.specs.Prelude.{◌≡◌};
ghost use Rattle.pdp_disassembler.specs.Operands.{is_immediate, operands_of};
ghost use Rattle.pdp_disassembler.specs.Operands.{takes_word, words_of_operand, words_that_follow};

use pdp_decode::{Instr, Specifier};
use pdp_word::Codes;

/// The operands of an instruction, in the order of its text.
///
/// Source: DEC PDP-11/40 Processor Handbook (1972), Instruction set.
#[derive(Clone, Copy)]
pub enum Operands {
    /// None.
    Absent,
    /// A register.
    Register(u8),
    /// A number: the words of MARK, the code of EMT or TRAP.
    Number(u8),
    /// The target of a branch: its offset, in words, from the PC that follows the instruction.
    Branch(i8),
    /// SOB: its register, and how many words its target is before that PC.
    Loop {
        register: u8,
        words: u8,
    },
    /// One operand with a mode.
    Single(Specifier),
    /// A register, and an operand with a mode.
    RegisterFirst {
        register: u8,
        operand: Specifier,
    },
    /// An operand with a mode, and a register.
    RegisterLast {
        operand: Specifier,
        register: u8,
    },
    /// Two operands with modes.
    Double {
        source: Specifier,
        destination: Specifier,
    },
    /// The instruction word itself, for `.WORD`.
    Word,
}

/// The operands of this instruction.
pub fn operands_of(instr: Instr) -> Operands
    ensures { result ≡ operands_of instr }
{
    match instr {
        Instr::Rts { register } => Operands::Register(register),
        Instr::Mark { words } => Operands::Number(words),
        Instr::Emt { code } | Instr::Trap { code } => Operands::Number(code),
        Instr::Sob { register, words } => Operands::Loop { register, words },
        Instr::Br { offset }
        | Instr::Bne { offset }
        | Instr::Beq { offset }
        | Instr::Bge { offset }
        | Instr::Blt { offset }
        | Instr::Bgt { offset }
        | Instr::Ble { offset }
        | Instr::Bpl { offset }
        | Instr::Bmi { offset }
        | Instr::Bhi { offset }
        | Instr::Blos { offset }
        | Instr::Bvc { offset }
        | Instr::Bvs { offset }
        | Instr::Bcc { offset }
        | Instr::Bcs { offset } => Operands::Branch(offset),
        Instr::Jsr {
            register,
            destination,
        }
        | Instr::Xor {
            register,
            destination,
        } => Operands::RegisterFirst {
            register,
            operand: destination,
        },
        Instr::Mul { register, source }
        | Instr::Div { register, source }
        | Instr::Ash { register, source }
        | Instr::Ashc { register, source } => Operands::RegisterLast {
            operand: source,
            register,
        },
        Instr::Mov {
            source,
            destination,
        }
        | Instr::Movb {
            source,
            destination,
        }
        | Instr::Cmp {
            source,
            destination,
        }
        | Instr::Cmpb {
            source,
            destination,
        }
        | Instr::Bit {
            source,
            destination,
        }
        | Instr::Bitb {
            source,
            destination,
        }
        | Instr::Bic {
            source,
            destination,
        }
        | Instr::Bicb {
            source,
            destination,
        }
        | Instr::Bis {
            source,
            destination,
        }
        | Instr::Bisb {
            source,
            destination,
        }
        | Instr::Add {
            source,
            destination,
        }
        | Instr::Sub {
            source,
            destination,
        } => Operands::Double {
            source,
            destination,
        },
        Instr::Jmp { destination }
        | Instr::Swab { destination }
        | Instr::Clr { destination }
        | Instr::Clrb { destination }
        | Instr::Com { destination }
        | Instr::Comb { destination }
        | Instr::Inc { destination }
        | Instr::Incb { destination }
        | Instr::Dec { destination }
        | Instr::Decb { destination }
        | Instr::Neg { destination }
        | Instr::Negb { destination }
        | Instr::Adc { destination }
        | Instr::Adcb { destination }
        | Instr::Sbc { destination }
        | Instr::Sbcb { destination }
        | Instr::Ror { destination }
        | Instr::Rorb { destination }
        | Instr::Rol { destination }
        | Instr::Rolb { destination }
        | Instr::Asr { destination }
        | Instr::Asrb { destination }
        | Instr::Asl { destination }
        | Instr::Aslb { destination }
        | Instr::Sxt { destination }
        | Instr::Tst { destination }
        | Instr::Tstb { destination }
        | Instr::Mtpi { destination } => Operands::Single(destination),
        Instr::Mfpi { source } => Operands::Single(source),
        Instr::SetCodes {
            codes: Codes {
                n: false,
                z: false,
                v: false,
                c: false,
            },
        }
        | Instr::Reserved => Operands::Word,
        Instr::Halt
        | Instr::Wait
        | Instr::Rti
        | Instr::Bpt
        | Instr::Iot
        | Instr::Reset
        | Instr::Rtt
        | Instr::ClearCodes { .. }
        | Instr::SetCodes { .. } => Operands::Absent,
    }
}

impl Operands {
    /// How many words follow the instruction word.
    pub fn words_that_follow(self) -> usize
        ensures { result ≡ words_that_follow self }
    {
        match self {
            Operands::Single(operand)
            | Operands::RegisterFirst { operand, .. }
            | Operands::RegisterLast { operand, .. } => words_of(operand),
            Operands::Double {
                source,
                destination,
            } => words_of(source) + words_of(destination),
            _ => 0,
        }
    }
}

/// How many words an operand has of its own.
pub fn words_of(operand: Specifier) -> usize
    ensures { result ≡ words_of_operand operand }
{
    if takes_word(operand) { 1 } else { 0 }
}

/// Whether an operand has a word of its own. The index modes do, of which the relative ones are a
/// case, and so do immediate and absolute operands.
pub fn takes_word(operand: Specifier) -> bool
    ensures { result ≡ takes_word operand }
{
    match operand {
        Specifier::Index(_) | Specifier::IndexDeferred(_) => true,
        _ => is_immediate(operand),
    }
}

/// Whether an operand is immediate or absolute: autoincrement of PC.
fn is_immediate(operand: Specifier) -> bool
    ensures { result ≡ is_immediate operand }
{
    match operand {
        Specifier::Autoincrement(register) | Specifier::AutoincrementDeferred(register) => {
            register == 7
        }
        _ => false,
    }
}
