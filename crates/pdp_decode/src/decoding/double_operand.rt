// Instructions with two operands, one of them maybe a register.
ghost use Rattle.std.specs.Prelude.{◌≡◌};
ghost use Rattle.pdp_decode.specs.Table.{decoded_by, double_operands, register_operands};
ghost use Rattle.pdp_decode.specs.Table.{high_double_operands};

use crate::decoding::fields::{operand, register, source, words};
use crate::instruction::Instr;

// Words 010000 to 067777: words with two operands.
#[inline(always)]
#[tactic(auto, unfolding(crate::specs::Table::double_operands))]
pub(crate) const fn double_operand_instr(word: u16) -> Instr
    ensures { result ≡ decoded_by double_operands word }
{
    let source = source(word);
    let destination = operand(word);
    match word {
        0o010000..=0o017777 => Instr::Mov {
            source,
            destination,
        },
        0o020000..=0o027777 => Instr::Cmp {
            source,
            destination,
        },
        0o030000..=0o037777 => Instr::Bit {
            source,
            destination,
        },
        0o040000..=0o047777 => Instr::Bic {
            source,
            destination,
        },
        0o050000..=0o057777 => Instr::Bis {
            source,
            destination,
        },
        0o060000..=0o067777 => Instr::Add {
            source,
            destination,
        },
        _ => Instr::Reserved,
    }
}

// Words 070000 to 077777: a register and an operand, and SOB.
#[inline(always)]
#[tactic(auto, unfolding(crate::specs::Table::register_operands))]
pub(crate) const fn register_operand_instr(word: u16) -> Instr
    ensures { result ≡ decoded_by register_operands word }
{
    let source = operand(word);
    let register = register(word);
    match word {
        0o070000..=0o070777 => Instr::Mul { register, source },
        0o071000..=0o071777 => Instr::Div { register, source },
        0o072000..=0o072777 => Instr::Ash { register, source },
        0o073000..=0o073777 => Instr::Ashc { register, source },
        0o074000..=0o074777 => Instr::Xor {
            register,
            destination: operand(word),
        },
        0o077000..=0o077777 => Instr::Sob {
            register,
            words: words(word),
        },
        _ => Instr::Reserved,
    }
}

// Words 110000 to 167777: bytes with two operands, and SUB.
#[inline(always)]
#[tactic(auto, unfolding(crate::specs::Table::high_double_operands))]
pub(crate) const fn high_double_operand_instr(word: u16) -> Instr
    ensures { result ≡ decoded_by high_double_operands word }
{
    let source = source(word);
    let destination = operand(word);
    match word {
        0o110000..=0o117777 => Instr::Movb {
            source,
            destination,
        },
        0o120000..=0o127777 => Instr::Cmpb {
            source,
            destination,
        },
        0o130000..=0o137777 => Instr::Bitb {
            source,
            destination,
        },
        0o140000..=0o147777 => Instr::Bicb {
            source,
            destination,
        },
        0o150000..=0o157777 => Instr::Bisb {
            source,
            destination,
        },
        0o160000..=0o167777 => Instr::Sub {
            source,
            destination,
        },
        _ => Instr::Reserved,
    }
}
