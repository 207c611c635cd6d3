ghost use Rattle.std.specs.Prelude.{◌≡◌, ◌+◌, ◌*◌, ◌≤◌, ◌++◌, length, codes, decimal};
ghost use Rattle.pdp_word.specs.Number.{octal_digits};
ghost use Rattle.pdp_unibus.specs.Handbook.Shown.{shown_names};
ghost use Rattle.pdp_session.specs.Reply.{register_text, regs_line, state_name, refusal_text};
ghost use Rattle.pdp_session.specs.Reply.{address_text, count_line, drive_text, patch_line};
ghost use Rattle.pdp_session.specs.Reply.{named_word_text, named_word_texts, word_text};
ghost use Rattle.pdp_session.specs.Reply.{devices_line, page_words_text, pages_line, word_texts};

use crate::version::Version;
use arrayvec::ArrayVec;
use itoa::Buffer;
use pdp_replay::{DeviceRegisters, Fault, PageRegisters, Patch, Regs, RunState};
use pdp_unibus::SHOWN_REGISTERS;
use pdp_word::write_octal6;

/// The most bytes that a text has: the reply to the question `pages`, with its LF. That is 34
/// words, each of six digits after a space, and the names pages, SR0, SR2, KPDR, KPAR, UPDR and
/// UPAR, a space before each but the first.
pub const LONGEST_TEXT: usize = 272;

/// A line of a reply, with its LF, or a piece of one. It takes no memory.
pub type Text = ArrayVec<u8, LONGEST_TEXT>;

/// How many words there are whose addresses have six octal digits.
const ADDRESSED_WORDS: u32 = 0o400000;

/// The last three octal digits of a number: all of those of a byte or of a vector.
#[tactic(auto, unfolding(pdp_word::specs::Number::octal_digits))]
pub fn octal3(number: u16) -> [u8; 3]
    ensures { result ≡ octal_digits 3 number }
{
    let [_, _, _, sixty_fours, eights, ones] = write_octal6(u32::from(number));
    [sixty_fours, eights, ones]
}

/// Adds `bytes` at the end.
pub fn add(text: &mut Text, bytes: &[u8])
    requires { length text.old.items + length bytes.now ≤ LONGEST_TEXT }
    ensures { text.new.items ≡ text.old.items ++ bytes.now }
{
    // it never fails: there is room, as the contract requires
    let _ = text.try_extend_from_slice(bytes);
}

/// A name, the word in six octal digits, and the space after it.
fn add_register(text: &mut Text, name: &str, word: u16)
    requires { length text.old.items + length name.now + 8 ≤ LONGEST_TEXT }
    ensures register_text { text.new.items ≡ text.old.items ++ register_text name.now word }
    ensures length { length text.new.items ≡ length text.old.items + length name.now + 8 }
{
    add(text, name.as_bytes());
    add(text, b" ");
    add(text, &write_octal6(u32::from(word)));
    add(text, b" ");
}

/// The reply to an edit that was made.
pub fn done_text() -> Text
    ensures { result.items ≡ codes "ok" ++ codes "\n" }
{
    let mut text = Text::new();
    add(&mut text, b"ok\n");
    text
}

/// The reply if there is no edit to take back, or to make again.
pub fn no_such_edit_text() -> Text
    ensures { result.items ≡ codes "refused 17 NoSuchEdit" ++ codes "\n" }
{
    let mut text = Text::new();
    add(&mut text, b"refused 17 NoSuchEdit\n");
    text
}

/// The reply to an insertion that was made.
pub fn insertion_text(number: u32) -> Text
    ensures { result.items ≡ codes "event " ++ decimal number ++ codes "\n" }
{
    let mut text = Text::new();
    let mut buffer = Buffer::new();
    add(&mut text, b"event ");
    add(&mut text, buffer.format(number).as_bytes());
    add(&mut text, b"\n");
    text
}

/// The first line of a list: its name, and how many lines follow.
pub fn count_text(name: &str, count: usize) -> Text
    requires { length name.now ≤ 7 }
    ensures { result.items ≡ count_line name.now count }
{
    let mut text = Text::new();
    let mut buffer = Buffer::new();
    add(&mut text, name.as_bytes());
    add(&mut text, b" ");
    add(&mut text, buffer.format(count).as_bytes());
    add(&mut text, b"\n");
    text
}

/// A patch as the line that makes it in this version.
pub fn patch_text(version: Version, patch: Patch) -> Text
    ensures { result.items ≡ patch_line version patch }
{
    let mut text = Text::new();
    let word = match patch {
        Patch::Core(address, word) => {
            add(&mut text, b"core ");
            add(&mut text, &write_octal6(address));
            word
        }
        Patch::Disk(drive, number, word) => {
            add(&mut text, b"disk ");
            add_drive(&mut text, version, drive);
            add_octal7(&mut text, number);
            word
        }
    };
    add_word(&mut text, word);
    add(&mut text, b"\n");
    text
}

/// The number of a drive, one octal digit, and the space after it; nothing in version 1.
#[tactic(auto, unfolding(pdp_word::specs::Number::octal_digits))]
fn add_drive(text: &mut Text, version: Version, drive: u8)
    requires { length text.old.items + 2 ≤ LONGEST_TEXT }
    ensures drive_text { text.new.items ≡ text.old.items ++ drive_text version drive }
    ensures length { length text.new.items ≤ length text.old.items + 2 }
{
    match version {
        Version::One => {}
        Version::Two => {
            text.push(b'0' + drive % 8);
            text.push(b' ');
        }
    }
}

/// The last seven octal digits of a number: all of those of the number of a word of the drive.
#[tactic(auto, unfolding(pdp_word::specs::Number::octal_digits))]
pub fn add_octal7(text: &mut Text, number: u32)
    requires { length text.old.items + 7 ≤ LONGEST_TEXT }
    ensures octal_digits { text.new.items ≡ text.old.items ++ octal_digits 7 number }
    ensures length { length text.new.items ≡ length text.old.items + 7 }
{
    text.push(b'0' + (number / 0o1000000 % 8) as u8);
    add(text, &write_octal6(number));
}

/// The address of a word of core by its number: the digits are those of its last 18 bits.
#[tactic(auto, unfolding(pdp_word::specs::Number::octal_digits))]
pub fn add_address(text: &mut Text, word: u32)
    requires { length text.old.items + 6 ≤ LONGEST_TEXT }
    ensures address_text { text.new.items ≡ text.old.items ++ address_text word }
    ensures length { length text.new.items ≡ length text.old.items + 6 }
{
    add(text, &write_octal6(word % ADDRESSED_WORDS * 2));
}

/// A word in six octal digits, after a space.
pub fn word_text(word: u16) -> Text
    ensures { result.items ≡ word_text word }
{
    let mut text = Text::new();
    add_word(&mut text, word);
    text
}

/// Adds a word in six octal digits, after a space.
pub fn add_word(text: &mut Text, word: u16)
    requires { length text.old.items + 7 ≤ LONGEST_TEXT }
    ensures word_text { text.new.items ≡ text.old.items ++ word_text word }
    ensures length { length text.new.items ≡ length text.old.items + 7 }
{
    add(text, b" ");
    add(text, &write_octal6(u32::from(word)));
}

/// A name and a word in six octal digits, each after a space.
fn add_named_word(text: &mut Text, name: &str, word: u16)
    requires { length text.old.items + length name.now + 8 ≤ LONGEST_TEXT }
    ensures named_word_text { text.new.items ≡ text.old.items ++ named_word_text name.now word }
    ensures length { length text.new.items ≡ length text.old.items + length name.now + 8 }
{
    add(text, b" ");
    add(text, name.as_bytes());
    add_word(text, word);
}

/// The registers of the devices.
#[tactic(auto, unfolding(crate::specs::Reply::devices_line))]
pub fn devices_text(devices: DeviceRegisters) -> Text
    ensures { result.items ≡ devices_line devices }
{
    let mut text = Text::new();
    add(&mut text, b"devices");
    add_registers(&mut text, devices);
    add(&mut text, b"\n");
    text
}

/// The names and the words of the registers of the devices.
#[tactic(auto, using(crate::proofs::NamedWords::one_more_named_word))]
fn add_registers(text: &mut Text, devices: DeviceRegisters)
    requires { length text.old.items + 12 * SHOWN_REGISTERS ≤ LONGEST_TEXT }
    ensures named_word_texts { text.new.items
        ≡ text.old.items ++ named_word_texts shown_names devices.words }
    ensures length { length text.new.items ≤ length text.old.items + 12 * SHOWN_REGISTERS }
{
    for (index, word) in devices.words.iter().enumerate() {
        add_named_word(text, DeviceRegisters::name(index), *word);
    }
}

/// Words in six octal digits, each after a space.
#[tactic(auto, using(crate::proofs::WordLines::one_more_word))]
fn add_words(text: &mut Text, words: &[u16])
    requires { length text.old.items + 7 * length words.now ≤ LONGEST_TEXT }
    ensures word_texts { text.new.items ≡ text.old.items ++ word_texts words.now }
    ensures length { length text.new.items ≡ length text.old.items + 7 * length words.now }
{
    for word in words {
        add_word(text, *word);
    }
}

/// A name and the words of the eight pages, each after a space.
fn add_page_words(text: &mut Text, name: &str, words: [u16; 8])
    requires { length text.old.items + length name.now + 57 ≤ LONGEST_TEXT }
    ensures page_words_text { text.new.items ≡ text.old.items ++ page_words_text name.now words }
    ensures length { length text.new.items ≡ length text.old.items + length name.now + 57 }
{
    add(text, b" ");
    add(text, name.as_bytes());
    add_words(text, &words);
}

/// The registers of memory management.
#[tactic(auto, unfolding(crate::specs::Reply::pages_line))]
pub fn pages_text(pages: PageRegisters) -> Text
    ensures { result.items ≡ pages_line pages }
{
    let mut text = Text::new();
    add(&mut text, b"pages");
    add_named_word(&mut text, "SR0", pages.status0);
    add_named_word(&mut text, "SR2", pages.status2);
    add_page_words(&mut text, "KPDR", pages.kernel_descriptors);
    add_page_words(&mut text, "KPAR", pages.kernel_addresses);
    add_page_words(&mut text, "UPDR", pages.user_descriptors);
    add_page_words(&mut text, "UPAR", pages.user_addresses);
    add(&mut text, b"\n");
    text
}

/// The registers and the run state.
pub fn regs_text(regs: Regs) -> Text
    ensures { result.items ≡ regs_line regs ++ codes "\n" }
{
    let mut text = Text::new();
    add_register(&mut text, "R0", regs.r[0]);
    add_register(&mut text, "R1", regs.r[1]);
    add_register(&mut text, "R2", regs.r[2]);
    add_register(&mut text, "R3", regs.r[3]);
    add_register(&mut text, "R4", regs.r[4]);
    add_register(&mut text, "R5", regs.r[5]);
    add_register(&mut text, "KSP", regs.ksp);
    add_register(&mut text, "USP", regs.usp);
    add_register(&mut text, "PC", regs.pc);
    add_register(&mut text, "PS", regs.ps);
    add(&mut text, state_name(regs.state).as_bytes());
    add(&mut text, b"\n");
    text
}

fn state_name(state: RunState) -> &'static str
    ensures name { result.now ≡ state_name state }
    ensures length { length result.now ≤ 6 }
{
    match state {
        RunState::Run => "run",
        RunState::Wait => "wait",
        RunState::Halted => "halted",
    }
}

/// The number and the name of a refusal.
pub fn refusal_text(fault: Fault) -> Text
    ensures { result.items ≡ refusal_text fault }
{
    let mut text = Text::new();
    let mut buffer = Buffer::new();
    add(&mut text, b"refused ");
    add(&mut text, buffer.format(fault.number()).as_bytes());
    add(&mut text, b" ");
    add(&mut text, fault.name().as_bytes());
    add(&mut text, b"\n");
    text
}
