// Branches.
ghost use Rattle.std.specs.Prelude.{◌≡◌};
ghost use Rattle.pdp_decode.specs.Table.{decoded_by, branches, high_branches};

use crate::decoding::fields::offset;
use crate::instruction::Instr;

// Words 000400 to 003777: branches by the signed tests.
#[inline(always)]
#[tactic(auto, unfolding(crate::specs::Table::branches))]
pub(crate) const fn branch_instr(word: u16) -> Instr
    ensures { result ≡ decoded_by branches word }
{
    let offset = offset(word);
    match word {
        0o000400..=0o000777 => Instr::Br { offset },
        0o001000..=0o001377 => Instr::Bne { offset },
        0o001400..=0o001777 => Instr::Beq { offset },
        0o002000..=0o002377 => Instr::Bge { offset },
        0o002400..=0o002777 => Instr::Blt { offset },
        0o003000..=0o003377 => Instr::Bgt { offset },
        0o003400..=0o003777 => Instr::Ble { offset },
        _ => Instr::Reserved,
    }
}

// Words 100000 to 103777: branches by single codes, and by the unsigned tests.
#[inline(always)]
#[tactic(auto, unfolding(crate::specs::Table::high_branches))]
pub(crate) const fn high_branch_instr(word: u16) -> Instr
    ensures { result ≡ decoded_by high_branches word }
{
    let offset = offset(word);
    match word {
        0o100000..=0o100377 => Instr::Bpl { offset },
        0o100400..=0o100777 => Instr::Bmi { offset },
        0o101000..=0o101377 => Instr::Bhi { offset },
        0o101400..=0o101777 => Instr::Blos { offset },
        0o102000..=0o102377 => Instr::Bvc { offset },
        0o102400..=0o102777 => Instr::Bvs { offset },
        0o103000..=0o103377 => Instr::Bcc { offset },
        0o103400..=0o103777 => Instr::Bcs { offset },
        _ => Instr::Reserved,
    }
}
