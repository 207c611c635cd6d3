// The pieces of a text.
ghost use Rattle.std.specs.Prelude.{◌≡◌, ◌+◌, ◌≤◌, ◌<◌, ◌++◌, length};
ghost use Rattle.pdp_disassembler.specs.Text.{index_text, octal_text, operand_text, register_name};
ghost use Rattle.pdp_disassembler.specs.Text.{relative_target};

use arrayvec::ArrayVec;
use pdp_decode::Specifier;
use pdp_word::write_octal6;

/// The most bytes that a text has room for.
pub const LONGEST_TEXT: usize = 40;

/// The text of an instruction, in ASCII. It takes no memory.
pub type InstructionText = ArrayVec<u8, LONGEST_TEXT>;

/// Adds `bytes` at the end.
pub fn add(text: &mut InstructionText, bytes: &[u8])
    requires { length text.old.items + length bytes.now ≤ LONGEST_TEXT }
    ensures { text.new.items ≡ text.old.items ++ bytes.now }
{
    // it never fails: there is room, as the contract requires
    let _ = text.try_extend_from_slice(bytes);
}

/// Adds a number in octal, without leading zeros.
#[tactic(auto, unfolding(pdp_word::specs::Number::octal_digits, crate::specs::Text::octal_text))]
pub fn add_octal(text: &mut InstructionText, number: u16)
    requires { length text.old.items + 6 ≤ LONGEST_TEXT }
    ensures octal_text { text.new.items ≡ text.old.items ++ octal_text number }
    ensures length { length text.new.items ≤ length text.old.items + 6 }
{
    let [sixth, fifth, fourth, third, second, first] = write_octal6(u32::from(number));
    match number {
        0..=7 => add(text, &[first]),
        0o10..=0o77 => add(text, &[second, first]),
        0o100..=0o777 => add(text, &[third, second, first]),
        0o1000..=0o7777 => add(text, &[fourth, third, second, first]),
        0o10000..=0o77777 => add(text, &[fifth, fourth, third, second, first]),
        _ => add(text, &[sixth, fifth, fourth, third, second, first]),
    }
}

/// Adds the name of the register of this number, 0 to 7; a number above 7 names PC like 7.
#[tactic(auto, unfolding(crate::specs::Text::register_name))]
pub fn add_register(text: &mut InstructionText, register: u8)
    requires { length text.old.items + 2 ≤ LONGEST_TEXT }
    ensures register_name { text.new.items ≡ text.old.items ++ register_name register }
    ensures length { length text.new.items ≤ length text.old.items + 2 }
{
    match register {
        0 => add(text, b"R0"),
        1 => add(text, b"R1"),
        2 => add(text, b"R2"),
        3 => add(text, b"R3"),
        4 => add(text, b"R4"),
        5 => add(text, b"R5"),
        6 => add(text, b"SP"),
        _ => add(text, b"PC"),
    }
}

/// Adds an operand, whose own word, if it has one, is `word` at `address`.
#[tactic(auto, unfolding(crate::specs::Text::operand_text))]
pub fn add_operand(text: &mut InstructionText, address: u16, word: u16, operand: Specifier)
    requires { length text.old.items + 11 ≤ LONGEST_TEXT }
    ensures operand_text { text.new.items ≡ text.old.items ++ operand_text address word operand }
    ensures length { length text.new.items ≤ length text.old.items + 11 }
{
    match operand {
        Specifier::Register(register) => add_register(text, register),
        Specifier::Deferred(register) => add_within(text, b"(", register, b")"),
        Specifier::Autoincrement(7) => {
            add(text, b"#");
            add_octal(text, word);
        }
        Specifier::Autoincrement(register) => add_within(text, b"(", register, b")+"),
        Specifier::AutoincrementDeferred(7) => {
            add(text, b"@#");
            add_octal(text, word);
        }
        Specifier::AutoincrementDeferred(register) => add_within(text, b"@(", register, b")+"),
        Specifier::Autodecrement(register) => add_within(text, b"-(", register, b")"),
        Specifier::AutodecrementDeferred(register) => add_within(text, b"@-(", register, b")"),
        Specifier::Index(register) => add_index(text, address, word, register),
        Specifier::IndexDeferred(register) => {
            add(text, b"@");
            add_index(text, address, word, register);
        }
    }
}

/// Adds a register between what stands before and after it.
fn add_within(text: &mut InstructionText, before: &[u8], register: u8, after: &[u8])
    requires { length text.old.items + length before.now + 2 + length after.now ≤ LONGEST_TEXT }
    ensures texts { text.new.items
        ≡ text.old.items ++ (before.now ++ register_name register ++ after.now) }
    ensures length { length text.new.items
        ≤ length text.old.items + length before.now + 2 + length after.now }
{
    add(text, before);
    add_register(text, register);
    add(text, after);
}

/// Adds an index, whose word is at `address`, and its register; by PC, the address that they name.
fn add_index(text: &mut InstructionText, address: u16, word: u16, register: u8)
    requires { length text.old.items + 10 ≤ LONGEST_TEXT }
    ensures index_text { text.new.items ≡ text.old.items ++ index_text address word register }
    ensures length { length text.new.items ≤ length text.old.items + 10 }
{
    if register == 7 {
        add_octal(text, relative_target(address, word));
    } else {
        add_octal(text, word);
        add_within(text, b"(", register, b")");
    }
}

/// The address that a relative operand names, whose word is at `address`.
fn relative_target(address: u16, word: u16) -> u16
    ensures { result ≡ relative_target address word }
{
    address.wrapping_add(2).wrapping_add(word)
}
