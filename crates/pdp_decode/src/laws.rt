// Laws of the opcode table, as contracts of functions with an empty body.
ghost use Rattle.std.specs.Prelude.{◌≡◌, ℕ, IsTrue};
ghost use Rattle.pdp_decode.specs.declared.instruction.Instr.{Instr};
ghost use Rattle.pdp_decode.specs.Format.{IsEncodable, IsOfWord, encode};
ghost use Rattle.pdp_decode.specs.Table.{are_ascending, instr_of_word, decoded_by, rows_of, table};

/// A law and no code: a word that isn't reserved is the word of the instruction that it decodes
/// to, so decoding loses nothing.
///
/// `encode` is written from the handbook's formats and not from the table.
///
/// Source: DEC PDP-11/40 Processor Handbook (1972), Instruction set.
#[tactic(auto, using(crate::proofs::Meanings::decoded_has_word))]
pub fn decoded_instructions_have_their_word()
    ensures { (word : ℕ) → IsOfWord (instr_of_word word) word }
{}

/// A law and no code: the fields of each instruction that a word decodes to fit their bits, so it
/// has a word.
///
/// Source: DEC PDP-11/40 Processor Handbook (1972), Instruction set.
#[tactic(auto, using(crate::proofs::FittingFields::decoded_fits))]
pub fn decoded_instructions_have_a_word()
    ensures { (word : ℕ) → IsEncodable (instr_of_word word) }
{}

/// A law and no code: the word of each instruction whose fields fit decodes to that instruction.
///
/// Source: DEC PDP-11/40 Processor Handbook (1972), Instruction set.
#[tactic(auto, using(crate::proofs::Instructions::decoded_encode))]
pub fn encoded_instructions_decode_back()
    ensures { (instr : Instr) → IsEncodable instr → instr_of_word (encode instr) ≡ instr }
{}

/// A law and no code: the rows of the opcode table ascend over all words, so no word has two rows.
///
/// Source: DEC PDP-11/40 Processor Handbook (1972), Instruction set.
#[tactic(auto, using(crate::proofs::Sections::table_ascends))]
pub fn rows_never_meet()
    ensures { IsTrue (are_ascending 0o000000 0o200000 table) }
{}

/// A law and no code: the sections only cut one table, whose first row that takes a word decides.
///
/// Source: DEC PDP-11/40 Processor Handbook (1972), Instruction set.
#[tactic(auto, using(crate::proofs::Sections::decoded_by_table))]
pub fn sections_are_one_table()
    ensures { (word : ℕ) → instr_of_word word ≡ decoded_by (rows_of table) word }
{}
