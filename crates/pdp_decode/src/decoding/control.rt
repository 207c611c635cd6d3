// Control, condition codes and traps.
ghost use Rattle.std.specs.Prelude.{◌≡◌};
ghost use Rattle.pdp_decode.specs.Table.{decoded_by, control, traps};

use crate::decoding::fields::{code, codes, last_register, operand};
use crate::instruction::Instr;

// Words 000000 to 000377: control, the condition code operators and SWAB.
#[inline(always)]
#[tactic(auto, unfolding(crate::specs::Table::control))]
pub(crate) const fn control_instr(word: u16) -> Instr
    ensures { result ≡ decoded_by control word }
{
    let destination = operand(word);
    let codes = codes(word);
    match word {
        0o000000 => Instr::Halt,
        0o000001 => Instr::Wait,
        0o000002 => Instr::Rti,
        0o000003 => Instr::Bpt,
        0o000004 => Instr::Iot,
        0o000005 => Instr::Reset,
        0o000006 => Instr::Rtt,
        0o000100..=0o000177 => Instr::Jmp { destination },
        0o000200..=0o000207 => Instr::Rts {
            register: last_register(word),
        },
        0o000240..=0o000257 => Instr::ClearCodes { codes },
        0o000260..=0o000277 => Instr::SetCodes { codes },
        0o000300..=0o000377 => Instr::Swab { destination },
        _ => Instr::Reserved,
    }
}

// Words 104000 to 104777: EMT and TRAP.
#[inline(always)]
#[tactic(auto, unfolding(crate::specs::Table::traps))]
pub(crate) const fn trap_instr(word: u16) -> Instr
    ensures { result ≡ decoded_by traps word }
{
    let code = code(word);
    match word {
        0o104000..=0o104377 => Instr::Emt { code },
        0o104400..=0o104777 => Instr::Trap { code },
        _ => Instr::Reserved,
    }
}
