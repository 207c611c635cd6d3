ghost use Rattle.std.specs.Prelude.{◌≡◌, ◌+◌, ◌*◌, ◌/◌, ◌<◌, ◌≤◌, min, IfOk, OnOk};
ghost use Rattle.pdp_replay.specs.Run.KeptRuns.{resumed_turn, Advances, ArrivesAt, IsKeptRun};
ghost use Rattle.pdp_replay.specs.Run.KeptRuns.{KeepsRun, LeavesKept};
ghost use Rattle.pdp_replay.specs.Ask.Known.{CanAnswer, CanRead};
ghost use Rattle.pdp_replay.specs.Past.{Past};
ghost use Rattle.pdp_replay.specs.Past.Setup.{SetupData};
ghost use Rattle.pdp_replay.specs.Ask.Answer.{answer, question_checked, range_checked};
ghost use Rattle.pdp_replay.specs.Ask.Answer.{disk_range_checked, trail_checked, first_turn_needed};
ghost use Rattle.pdp_replay.specs.Ask.Answer.{turn_asked, IsWithin, IsAnswerIn};

use crate::ask::find_words::{check_core_search, check_disk_search, find_core, find_disk};
use crate::ask::items::{MOST_WORDS, read_bytes, read_core, read_disk};
use crate::ask::virtual_words::{check_virtual, place_of_read, read_virtual};
use crate::ask::{
    Bytes, FoundWords, LastWrite, Trail, Unreadable, VirtualWords, WantedWords, Words,
};
use crate::past::{DRIVE_WORDS, UNIT_WORDS, core_word};
use crate::run::KeptRun;
use pdp_cpu::{DeviceRegisters, PageRegisters, Regs};
use pdp_kt11::{Abort, Mode};
use pdp_script::{Fault, Script};
use pdp_unibus::LAST_TURN;
use pdp_word::NoMemory;
use std::alloc::Global;

/// The most turns that a trail lists.
const MOST_TURNS_LISTED: u32 = 64;

/// What can be asked of a run [P]; each question names the turn before which the machine is looked
/// at.
#[derive(Clone, Copy)]
pub enum Question {
    /// The registers before this turn, counted from 0 at power-up.
    Regs(u32),
    /// Words of core before this turn: the address of the first (octal, bytes, even), and how many
    /// words (1 to 256).
    Core(u32, u32, u32),
    /// Words of a drive before this turn: the drive and its first word that is asked for (both
    /// counted from 0), and how many words (1 to 256).
    Disk(u32, u8, u32, u32),
    /// The bytes printed on the console before this turn.
    Text(u32),
    /// The bytes punched before this turn.
    Punched(u32),
    /// The registers of the devices before this turn.
    Devices(u32),
    /// The registers of memory management before this turn.
    Pages(u32),
    /// The last write before this turn to the word of core at this address (octal, bytes, even).
    Last(u32, u32),
    /// The last turns before this turn, and how many (1 to 64, and no more than there were).
    Trail(u32, u32),
    /// The physical address of a virtual address (octal, bytes) in a mode, for a read, by the
    /// mapping registers before this turn. The read itself doesn't take place.
    Translate {
        turn: u32,
        mode: Mode,
        address: u16,
    },
    /// The words that an instruction of a mode would read at virtual addresses before this turn.
    /// The reads themselves don't take place.
    Virtual {
        turn: u32,
        words: VirtualWords,
    },
    /// The words of core before this turn that are wanted.
    FindCore {
        turn: u32,
        wanted: WantedWords,
    },
    /// The words of a drive (counted from 0) before this turn that are wanted.
    FindDisk {
        turn: u32,
        drive: u8,
        wanted: WantedWords,
    },
}

impl Question {
    /// The turn that the question is about.
    pub fn turn(self) -> u32
        ensures { result ≡ turn_asked self }
    {
        match self {
            Question::Regs(turn)
            | Question::Core(turn, _, _)
            | Question::Disk(turn, _, _, _)
            | Question::Text(turn)
            | Question::Punched(turn)
            | Question::Devices(turn)
            | Question::Pages(turn)
            | Question::Last(turn, _)
            | Question::Trail(turn, _)
            | Question::Translate { turn, .. }
            | Question::Virtual { turn, .. }
            | Question::FindCore { turn, .. }
            | Question::FindDisk { turn, .. } => turn,
        }
    }

    /// The first turn whose state the answer needs: that of the first turn listed for a trail, else
    /// the one asked about.
    pub(crate) fn first_turn(self) -> u32
        ensures first { result ≡ first_turn_needed self }
        ensures most { result ≤ turn_asked self }
    {
        match self {
            Question::Trail(turn, count) => turn.saturating_sub(count),
            _ => self.turn(),
        }
    }

    /// Whether the question can be asked of a run with `units` units of core and `drives` drives.
    ///
    /// Err(TurnTooLarge) if its turn is above 1,000,000,000; else of words of core what
    /// `check_range` refuses, of words of a drive what `check_disk_range` does, of a last write
    /// what `core_word` does, of a trail what `check_trail` does, of words at virtual addresses
    /// what `check_virtual` does, and of wanted words what `check_core_search` and
    /// `check_disk_search` do.
    #[tactic(auto, unfolding(crate::specs::Ask::Answer::question_checked))]
    pub(crate) fn check(self, units: u8, drives: usize) -> Result<(), Fault>
        ensures refusal { (p : Past) → p.setup.units ≡ units → p.setup.drives ≡ drives
            → question_checked self p ≡ result }
        ensures turn { OnOk result (turn_asked self ≤ LAST_TURN) }
        ensures within { OnOk result (IsWithin self (units * UNIT_WORDS) drives) }
    {
        if self.turn() > LAST_TURN {
            return Err(Fault::TurnTooLarge);
        }
        match self {
            Question::Core(_, address, count) => check_range(units, address, count),
            Question::Disk(_, drive, first, count) => check_disk_range(drives, drive, first, count),
            Question::Last(_, address) => {
                core_word(units, address)?;
                Ok(())
            }
            Question::Trail(turn, count) => check_trail(turn, count),
            Question::Virtual { words, .. } => check_virtual(words),
            Question::FindCore { wanted, .. } => check_core_search(units, wanted),
            Question::FindDisk { drive, wanted, .. } => check_disk_search(drives, drive, wanted),
            Question::Regs(_)
            | Question::Text(_)
            | Question::Punched(_)
            | Question::Devices(_)
            | Question::Pages(_)
            | Question::Translate { .. } => Ok(()),
        }
    }

    /// The answer about the run with this script, of which there are checkpoints: the machine is
    /// taken to the first turn that is needed, and from there through the turns that a trail lists.
    ///
    /// Err if memory was refused; what was kept until then stays.
    pub(crate) fn answer(
        self,
        alloc: Global,
        run: &mut KeptRun,
        script: &Script,
    ) -> Result<Value, NoMemory>
        requires can { CanAnswer self script.now run.old }
        ensures value { IfOk result
            (λ value. (p : Past) → p.script ≡ script.now → IsKeptRun p run.old
            → value ≡ answer self p) }
        ensures kept { KeepsRun script.now run.old run.new }
        ensures arrives { OnOk result (ArrivesAt (turn_asked self) run.old run.new) }
        ensures advances { Advances (resumed_turn run.old (first_turn_needed self))
            (turn_asked self)
            run.old run.new }
        ensures bound { run.new.meter + min (first_turn_needed self) run.old.known + 1
            ≤ run.old.meter + turn_asked self + run.old.ladder.stride }
    {
        run.reach(alloc, script, self.first_turn())?;
        self.read(alloc, run, script)
    }

    /// The answer, read off the machine before the first turn that is needed; a trail's turns are
    /// run, and what is to be kept of them is kept.
    ///
    /// Err if memory was refused; what was kept until then stays.
    #[tactic(auto, unfolding(crate::specs::Ask::Answer::answer))]
    fn read(self, alloc: Global, run: &mut KeptRun, script: &Script) -> Result<Value, NoMemory>
        requires can { CanRead self run.old }
        ensures value { IfOk result (IsAnswerIn run.old.machine.state script.now self) }
        ensures kept { LeavesKept script.now run.old run.new }
        ensures arrives { OnOk result (ArrivesAt (turn_asked self) run.old run.new) }
        ensures advances { Advances run.old.machine.state.turn (turn_asked self) run.old run.new }
    {
        let machine = &run.machine;
        match self {
            Question::Regs(_) => Ok(Value::Regs(machine.regs())),
            Question::Core(_, address, count) => {
                let words = read_core(alloc, machine, address / 2, count)?;
                Ok(Value::Core(words))
            }
            Question::Disk(_, drive, first, count) => {
                let words = read_disk(alloc, machine, drive, first, count)?;
                Ok(Value::Disk(words))
            }
            Question::Text(_) => Ok(Value::Text(read_bytes(alloc, machine.text())?)),
            Question::Punched(_) => Ok(Value::Punched(read_bytes(alloc, machine.punched())?)),
            Question::Devices(_) => Ok(Value::Devices(machine.devices())),
            Question::Pages(_) => Ok(Value::Pages(machine.pages())),
            Question::Last(_, address) => {
                let number = address as usize / 2;
                Ok(Value::Last(LastWrite::read(machine, number)))
            }
            Question::Trail(_, count) => {
                let trail = Trail::record(alloc, run, script, count)?;
                Ok(Value::Trail(trail))
            }
            Question::Translate { mode, address, .. } => {
                Ok(Value::Translation(place_of_read(machine, mode, address)))
            }
            Question::Virtual { words, .. } => {
                Ok(Value::Virtual(read_virtual(alloc, machine, words)?))
            }
            Question::FindCore { wanted, .. } => {
                Ok(Value::FoundCore(find_core(alloc, machine, wanted)?))
            }
            Question::FindDisk { drive, wanted, .. } => {
                Ok(Value::FoundDisk(find_disk(alloc, machine, drive, wanted)?))
            }
        }
    }
}

/// Whether `count` words from this address (octal, bytes) on can be asked for, of a core of `units`
/// units.
///
/// Err(CountOutOfRange) if the count is not 1 to 256; else Err(OutsideCore) if a word of the range
/// is not in core; else Err(OddAddress) if the address is odd.
#[tactic(auto, unfolding(crate::specs::Ask::Answer::range_checked))]
fn check_range(units: u8, address: u32, count: u32) -> Result<(), Fault>
    ensures refusal { (s : SetupData) → s.units ≡ units → range_checked address count s ≡ result }
    ensures within { OnOk result (address / 2 + count ≤ units * UNIT_WORDS) }
{
    if count < 1 || count > MOST_WORDS {
        return Err(Fault::CountOutOfRange);
    }
    let end = address / 2 + count;
    if end as usize > usize::from(units) * UNIT_WORDS {
        return Err(Fault::OutsideCore);
    }
    if address % 2 != 0 {
        return Err(Fault::OddAddress);
    }
    Ok(())
}

/// Whether `count` words of a drive, from its word `first` on, can be asked for of a run with
/// `drives` drives.
///
/// Err(CountOutOfRange) if the count is not 1 to 256; else Err(NoSuchDrive) if there is no drive of
/// this number; else Err(OutsideDisk) if a word of the range is past the drive's last.
#[tactic(auto, unfolding(crate::specs::Ask::Answer::disk_range_checked))]
fn check_disk_range(drives: usize, drive: u8, first: u32, count: u32) -> Result<(), Fault>
    ensures refusal { (s : SetupData) → s.drives ≡ drives
        → disk_range_checked drive first count s ≡ result }
    ensures there { OnOk result (drive < drives) }
    ensures within { OnOk result (first + count ≤ DRIVE_WORDS) }
{
    if count < 1 || count > MOST_WORDS {
        return Err(Fault::CountOutOfRange);
    }
    if usize::from(drive) >= drives {
        return Err(Fault::NoSuchDrive);
    }
    let end = first as usize + count as usize;
    if end > DRIVE_WORDS {
        return Err(Fault::OutsideDisk);
    }
    Ok(())
}

/// Whether the last `count` turns before this turn can be listed.
///
/// Err(CountOutOfRange) if the count is not 1 to 64, or is above the turn.
fn check_trail(turn: u32, count: u32) -> Result<(), Fault>
    ensures refusal { trail_checked turn count ≡ result }
    ensures within { OnOk result (count ≤ turn) }
{
    if count < 1 || count > MOST_TURNS_LISTED || count > turn {
        return Err(Fault::CountOutOfRange);
    }
    Ok(())
}

/// What a question is answered.
#[derive(Drop)]
pub enum Value {
    /// The registers, and whether the processor runs.
    Regs(Regs),
    /// The words of core that were asked for.
    Core(Words),
    /// The words of a drive that were asked for.
    Disk(Words),
    /// The bytes printed on the console since power-up, in their order.
    Text(Bytes),
    /// The bytes punched since power-up, in their order.
    Punched(Bytes),
    /// The registers of the devices, as reads would give them without the effect of a read.
    Devices(DeviceRegisters),
    /// The registers of memory management, as reads would give them.
    Pages(PageRegisters),
    /// The last write to a word of core; None if there was none since power-up.
    Last(Option<LastWrite>),
    /// The turns that were asked for, each with PC before it and its act.
    Trail(Trail),
    /// The physical address (bytes, 18 bits), or why memory management doesn't let a read through.
    Translation(Result<u32, Abort>),
    /// The words at virtual addresses, or the first of them that can't be read.
    Virtual(Result<Words, Unreadable>),
    /// The words of core that are wanted.
    FoundCore(FoundWords),
    /// The words of a drive that are wanted.
    FoundDisk(FoundWords),
}
