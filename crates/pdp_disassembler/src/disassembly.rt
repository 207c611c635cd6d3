// The instruction at an address.
ghost use Rattle.std.specs.Prelude.{◌≡◌, ◌+◌, ◌≤◌, ◌++◌, length, slice_index};
ghost use Rattle.pdp_disassembler.specs.Text.{branch_target, instruction_text, loop_target};
ghost use Rattle.pdp_disassembler.specs.Text.{operands_text, second_text, word_count};

use crate::operands::{Operands, operands_of, takes_word};
use crate::operators::operator_of;
use crate::texts::{InstructionText, LONGEST_TEXT, add, add_octal, add_operand, add_register};
use pdp_decode::{Specifier, decode};
use pdp_word::write_octal6;

/// An instruction as text.
#[derive(Drop)]
pub struct Disassembly {
    /// The text, in ASCII.
    pub text: InstructionText,
    /// How many words the instruction takes, 1 to 3.
    pub word_count: usize,
}

/// The text of the instruction at an address, from its word and the two that follow it. It is in
/// the syntax of MACRO-11: `MOV #5,R0`.
///
/// Numbers are octal. A relative operand and a branch show the address that they name, modulo
/// 200000. What has no text in that syntax is a directive, with six digits: a reserved word as
/// `.WORD 075000`, and `.WORD 000260`, which sets no condition code. Condition codes that are
/// cleared or set together have a space between them, as `CLV CLC`. Words past those that the
/// instruction takes are ignored.
///
/// Source: DEC PDP-11/40 Processor Handbook (1972), Instruction set and Addressing modes; the
/// directives and the joined operators are [P].
#[tactic(auto, unfolding(crate::specs::Text::instruction_text))]
pub fn disassemble(address: u16, words: [u16; 3]) -> Disassembly
    ensures text { result.text.items ≡ instruction_text address words }
    ensures word_count { result.word_count ≡ word_count words }
    ensures most { result.word_count ≤ 3 }
{
    let [word, _, _] = words;
    let instr = decode(word);
    let operands = operands_of(instr);
    let mut text = InstructionText::new();
    add(&mut text, operator_of(instr).as_bytes());
    add_operands(&mut text, address, words, operands);
    Disassembly {
        text,
        word_count: 1 + operands.words_that_follow(),
    }
}

/// Adds the operands of the instruction at `address`, and the space before them.
#[tactic(auto, unfolding(crate::specs::Text::operands_text))]
fn add_operands(text: &mut InstructionText, address: u16, words: [u16; 3], operands: Operands)
    requires { length text.old.items ≤ 11 }
    ensures { text.new.items ≡ text.old.items ++ operands_text address
        (slice_index words 0) (slice_index words 1) (slice_index words 2) operands }
{
    let [word, next, last] = words;
    if matches!(operands, Operands::Absent) {
        return;
    }
    add(text, b" ");
    let own = address.wrapping_add(2);
    match operands {
        Operands::Absent => {}
        Operands::Register(register) => add_register(text, register),
        Operands::Number(number) => add_octal(text, u16::from(number)),
        Operands::Branch(offset) => add_octal(text, branch_target(address, offset)),
        Operands::Loop { register, words } => {
            add_register(text, register);
            add(text, b",");
            add_octal(text, loop_target(address, words));
        }
        Operands::Single(operand) => add_operand(text, own, next, operand),
        Operands::RegisterFirst { register, operand } => {
            add_register(text, register);
            add(text, b",");
            add_operand(text, own, next, operand);
        }
        Operands::RegisterLast { operand, register } => {
            add_operand(text, own, next, operand);
            add(text, b",");
            add_register(text, register);
        }
        Operands::Double {
            source,
            destination,
        } => {
            add_operand(text, own, next, source);
            add(text, b",");
            add_second(text, address, [next, last], source, destination);
        }
        Operands::Word => add(text, &write_octal6(u32::from(word))),
    }
}

/// Adds the second operand. The words are the two that follow the instruction word.
fn add_second(
    text: &mut InstructionText,
    address: u16,
    words: [u16; 2],
    first: Specifier,
    second: Specifier,
)
    requires { length text.old.items + 11 ≤ LONGEST_TEXT }
    ensures { text.new.items ≡ text.old.items
        ++ second_text address (slice_index words 0) (slice_index words 1) first second }
{
    let [next, last] = words;
    if takes_word(first) {
        add_operand(text, address.wrapping_add(4), last, second);
    } else {
        add_operand(text, address.wrapping_add(2), next, second);
    }
}

/// Where the branch at `address` goes.
fn branch_target(address: u16, offset: i8) -> u16
    ensures { result ≡ branch_target address offset }
{
    let twice = i16::from(offset).cast_unsigned().wrapping_mul(2);
    address.wrapping_add(2).wrapping_add(twice)
}

/// Where the SOB at `address` goes.
fn loop_target(address: u16, words: u8) -> u16
    ensures { result ≡ loop_target address words }
{
    address.wrapping_add(2).wrapping_sub(u16::from(words) * 2)
}
