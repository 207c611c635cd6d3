// Instructions with one operand.
ghost use Rattle.std.specs.Prelude.{◌≡◌};
ghost use Rattle.pdp_decode.specs.Table.{decoded_by, single_operands, byte_single_operands};

use crate::decoding::fields::{operand, register, words};
use crate::instruction::Instr;

// Words 004000 to 006777: JSR, MARK, and words with one operand.
#[inline(always)]
#[tactic(auto, unfolding(crate::specs::Table::single_operands))]
pub(crate) const fn single_operand_instr(word: u16) -> Instr
    ensures { result ≡ decoded_by single_operands word }
{
    let destination = operand(word);
    match word {
        0o004000..=0o004777 => Instr::Jsr {
            register: register(word),
            destination,
        },
        0o005000..=0o005077 => Instr::Clr { destination },
        0o005100..=0o005177 => Instr::Com { destination },
        0o005200..=0o005277 => Instr::Inc { destination },
        0o005300..=0o005377 => Instr::Dec { destination },
        0o005400..=0o005477 => Instr::Neg { destination },
        0o005500..=0o005577 => Instr::Adc { destination },
        0o005600..=0o005677 => Instr::Sbc { destination },
        0o005700..=0o005777 => Instr::Tst { destination },
        0o006000..=0o006077 => Instr::Ror { destination },
        0o006100..=0o006177 => Instr::Rol { destination },
        0o006200..=0o006277 => Instr::Asr { destination },
        0o006300..=0o006377 => Instr::Asl { destination },
        0o006400..=0o006477 => Instr::Mark { words: words(word) },
        0o006500..=0o006577 => Instr::Mfpi {
            source: operand(word),
        },
        0o006600..=0o006677 => Instr::Mtpi { destination },
        0o006700..=0o006777 => Instr::Sxt { destination },
        _ => Instr::Reserved,
    }
}

// Words 105000 to 106377: bytes with one operand.
#[inline(always)]
#[tactic(auto, unfolding(crate::specs::Table::byte_single_operands))]
pub(crate) const fn byte_single_operand_instr(word: u16) -> Instr
    ensures { result ≡ decoded_by byte_single_operands word }
{
    let destination = operand(word);
    match word {
        0o105000..=0o105077 => Instr::Clrb { destination },
        0o105100..=0o105177 => Instr::Comb { destination },
        0o105200..=0o105277 => Instr::Incb { destination },
        0o105300..=0o105377 => Instr::Decb { destination },
        0o105400..=0o105477 => Instr::Negb { destination },
        0o105500..=0o105577 => Instr::Adcb { destination },
        0o105600..=0o105677 => Instr::Sbcb { destination },
        0o105700..=0o105777 => Instr::Tstb { destination },
        0o106000..=0o106077 => Instr::Rorb { destination },
        0o106100..=0o106177 => Instr::Rolb { destination },
        0o106200..=0o106277 => Instr::Asrb { destination },
        0o106300..=0o106377 => Instr::Aslb { destination },
        _ => Instr::Reserved,
    }
}
