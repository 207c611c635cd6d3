// What the text of an instruction begins with.
ghost use Rattle.std.specs.Prelude.{◌≡◌, ◌≤◌, length};
ghost use Rattle.pdp_disassembler.specs.Text.{clear_text, operator_text, set_text};

use pdp_decode::{Instr, name_of};
use pdp_word::Codes;

/// What the text begins with: a mnemonic, the operators of condition codes, or `.WORD`.
#[tactic(auto, unfolding(crate::specs::Text::operator_text))]
pub fn operator_of(instr: Instr) -> &'static str
    ensures value { result.now ≡ operator_text instr }
    ensures length { length result.now ≤ 11 }
{
    match instr {
        Instr::ClearCodes { codes } => clear_operator(codes),
        Instr::SetCodes { codes } => set_operator(codes),
        Instr::Reserved => ".WORD",
        _ => name_of(&instr),
    }
}

fn clear_operator(codes: Codes) -> &'static str
    ensures value { result.now ≡ clear_text codes }
    ensures length { length result.now ≤ 11 }
{
    match (codes.n, codes.z, codes.v, codes.c) {
        (false, false, false, false) => "NOP",
        (false, false, false, true) => "CLC",
        (false, false, true, false) => "CLV",
        (false, false, true, true) => "CLV CLC",
        (false, true, false, false) => "CLZ",
        (false, true, false, true) => "CLZ CLC",
        (false, true, true, false) => "CLZ CLV",
        (false, true, true, true) => "CLZ CLV CLC",
        (true, false, false, false) => "CLN",
        (true, false, false, true) => "CLN CLC",
        (true, false, true, false) => "CLN CLV",
        (true, false, true, true) => "CLN CLV CLC",
        (true, true, false, false) => "CLN CLZ",
        (true, true, false, true) => "CLN CLZ CLC",
        (true, true, true, false) => "CLN CLZ CLV",
        (true, true, true, true) => "CCC",
    }
}

fn set_operator(codes: Codes) -> &'static str
    ensures value { result.now ≡ set_text codes }
    ensures length { length result.now ≤ 11 }
{
    match (codes.n, codes.z, codes.v, codes.c) {
        (false, false, false, false) => ".WORD",
        (false, false, false, true) => "SEC",
        (false, false, true, false) => "SEV",
        (false, false, true, true) => "SEV SEC",
        (false, true, false, false) => "SEZ",
        (false, true, false, true) => "SEZ SEC",
        (false, true, true, false) => "SEZ SEV",
        (false, true, true, true) => "SEZ SEV SEC",
        (true, false, false, false) => "SEN",
        (true, false, false, true) => "SEN SEC",
        (true, false, true, false) => "SEN SEV",
        (true, false, true, true) => "SEN SEV SEC",
        (true, true, false, false) => "SEN SEZ",
        (true, true, false, true) => "SEN SEZ SEC",
        (true, true, true, false) => "SEN SEZ SEV",
        (true, true, true, true) => "SCC",
    }
}
