// Decoding, a function for each section of the opcode table.
ghost use Rattle.std.specs.Prelude.{◌≡◌};
ghost use Rattle.pdp_decode.specs.Table.{instr_of_word};

mod branches;
mod control;
mod double_operand;
mod fields;
mod single_operand;

use crate::instruction::Instr;
use branches::{branch_instr, high_branch_instr};
use control::{control_instr, trap_instr};
use double_operand::{double_operand_instr, high_double_operand_instr, register_operand_instr};
use single_operand::{byte_single_operand_instr, single_operand_instr};

/// The instruction that a word means; `Reserved` if no row of the opcode table takes the word.
///
/// Every register in the result is below 8, and the words of MARK and SOB are below 100 (octal):
/// [`crate::decoded_instructions_have_a_word`].
///
/// Source: DEC PDP-11/40 Processor Handbook (1972), Instruction set; what is reserved: [4.66].
#[inline(always)]
#[tactic(auto, unfolding(crate::specs::Table::instr_of_word))]
pub const fn decode(word: u16) -> Instr
    ensures { result ≡ instr_of_word word }
{
    match word {
        0o000000..=0o000377 => control_instr(word),
        0o000400..=0o003777 => branch_instr(word),
        0o004000..=0o006777 => single_operand_instr(word),
        0o010000..=0o067777 => double_operand_instr(word),
        0o070000..=0o077777 => register_operand_instr(word),
        0o100000..=0o103777 => high_branch_instr(word),
        0o104000..=0o104777 => trap_instr(word),
        0o105000..=0o106377 => byte_single_operand_instr(word),
        0o110000..=0o167777 => high_double_operand_instr(word),
        _ => Instr::Reserved,
    }
}
