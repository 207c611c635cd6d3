ghost use Rattle.std.specs.Prelude.{◌≡◌, ◌*◌, ◌/◌, ◌<◌, ◌≤◌, length, IfOk, OnOk};
ghost use Rattle.pdp_replay.specs.Past.Setup.{SetupData};
ghost use Rattle.pdp_replay.specs.Run.States.{disk_of};
ghost use Rattle.pdp_replay.specs.Ask.WordsFound.{core_search_checked, disk_search_checked};
ghost use Rattle.pdp_replay.specs.Ask.WordsFound.{fits_pattern, words_found};

use crate::ask::items::{Items, MOST_WORDS};
use crate::past::{DRIVE_WORDS, UNIT_WORDS};
use pdp_cpu::PagedMachine;
use pdp_script::Fault;
use pdp_word::NoMemory;
use std::alloc::Global;

/// What words are looked for: those that equal `word` in the bits of `mask`, whatever their other
/// bits [P].
#[derive(Clone, Copy)]
pub struct WordPattern {
    pub word: u16,
    pub mask: u16,
}

impl WordPattern {
    /// Whether a word fits the pattern.
    #[inline]
    fn fits(self, word: u16) -> bool
        ensures { result ≡ fits_pattern self word }
    {
        word & self.mask == self.word & self.mask
    }
}

/// The words from one to another, both included, that fit a pattern [P].
#[derive(Clone, Copy)]
pub struct WantedWords {
    /// The first that is looked at: of core its address (octal, bytes, even), of a drive its number
    /// (from 0).
    pub first: u32,
    /// The last that is looked at, in the same way.
    pub last: u32,
    pub pattern: WordPattern,
}

/// Numbers of words, in their order.
pub type Numbers = Items<u32>;

/// What was found among the words of core or of a drive [P].
#[derive(Drop)]
pub struct FoundWords {
    /// The numbers of the words that were found (from 0; of core half the byte address), in their
    /// order: the first 256 of them.
    pub numbers: Numbers,
    /// Whether there are more than these 256.
    pub more: bool,
}

/// Whether these words can be looked for in a core of `units` units.
///
/// Err(CountOutOfRange) if the first is above the last; else Err(OutsideCore) if one of the two is
/// not in core; else Err(OddAddress) if the address of one of the two is odd.
#[tactic(auto, unfolding(crate::specs::Ask::WordsFound::core_search_checked))]
pub(crate) fn check_core_search(units: u8, wanted: WantedWords) -> Result<(), Fault>
    ensures refusal { (s : SetupData) → s.units ≡ units → core_search_checked wanted s ≡ result }
    ensures order { OnOk result (wanted.first ≤ wanted.last) }
    ensures within { OnOk result (wanted.last / 2 < units * UNIT_WORDS) }
{
    if wanted.first > wanted.last {
        return Err(Fault::CountOutOfRange);
    }
    if wanted.last as usize / 2 >= usize::from(units) * UNIT_WORDS {
        return Err(Fault::OutsideCore);
    }
    if wanted.first % 2 != 0 || wanted.last % 2 != 0 {
        return Err(Fault::OddAddress);
    }
    Ok(())
}

/// Whether these words can be looked for on a drive of a run with `drives` drives.
///
/// Err(CountOutOfRange) if the first is above the last; else Err(NoSuchDrive) if there is no drive
/// of this number; else Err(OutsideDisk) if the last is past the drive's last.
#[tactic(auto, unfolding(crate::specs::Ask::WordsFound::disk_search_checked))]
pub(crate) fn check_disk_search(drives: usize, drive: u8, wanted: WantedWords) -> Result<(), Fault>
    ensures refusal { (s : SetupData) → s.drives ≡ drives
        → disk_search_checked drive wanted s ≡ result }
    ensures there { OnOk result (drive < drives) }
    ensures order { OnOk result (wanted.first ≤ wanted.last) }
    ensures within { OnOk result (wanted.last < DRIVE_WORDS) }
{
    if wanted.first > wanted.last {
        return Err(Fault::CountOutOfRange);
    }
    if usize::from(drive) >= drives {
        return Err(Fault::NoSuchDrive);
    }
    if wanted.last as usize >= DRIVE_WORDS {
        return Err(Fault::OutsideDisk);
    }
    Ok(())
}

/// The words of the machine's core that are wanted.
///
/// Err if there is no memory for their numbers.
#[tactic(auto, using(crate::proofs::ask::WordsFound::none_met))]
pub(crate) fn find_core(
    alloc: Global,
    machine: &PagedMachine,
    wanted: WantedWords,
) -> Result<FoundWords, NoMemory>
    requires order { wanted.first ≤ wanted.last }
    requires inside { wanted.last / 2 < length machine.now.state.world.bus.core }
    ensures { IfOk result (λ found. found ≡ words_found wanted.pattern (wanted.first / 2)
        (wanted.last / 2) machine.now.state.world.bus.core) }
{
    let first = wanted.first / 2;
    let count = wanted.last / 2 + 1 - first;
    let mut numbers = Vec::new(alloc);
    for index in 0..count {
        let number = first + index;
        if wanted.pattern.fits(machine.word(number as usize)) {
            if numbers.len() >= MOST_WORDS as usize {
                return Ok(FoundWords {
                    numbers: Items::of(numbers),
                    more: true,
                });
            }
            numbers.push(number)?;
        }
    }
    Ok(FoundWords {
        numbers: Items::of(numbers),
        more: false,
    })
}

/// The words of a drive of the machine that are wanted.
///
/// Err if there is no memory for their numbers.
#[tactic(auto, using(crate::proofs::ask::WordsFound::none_met))]
pub(crate) fn find_disk(
    alloc: Global,
    machine: &PagedMachine,
    drive: u8,
    wanted: WantedWords,
) -> Result<FoundWords, NoMemory>
    requires order { wanted.first ≤ wanted.last }
    requires within { wanted.last < DRIVE_WORDS }
    requires whole { length (disk_of machine.now.state.world drive) ≡ DRIVE_WORDS }
    ensures { IfOk result (λ found. found ≡ words_found wanted.pattern wanted.first wanted.last
        (disk_of machine.now.state.world drive)) }
{
    let drive = usize::from(drive);
    let first = wanted.first;
    let count = wanted.last + 1 - first;
    let mut numbers = Vec::new(alloc);
    for index in 0..count {
        let number = first + index;
        let word = machine.disk_word(drive, number as usize);
        if wanted.pattern.fits(word) {
            if numbers.len() >= MOST_WORDS as usize {
                return Ok(FoundWords {
                    numbers: Items::of(numbers),
                    more: true,
                });
            }
            numbers.push(number)?;
        }
    }
    Ok(FoundWords {
        numbers: Items::of(numbers),
        more: false,
    })
}
