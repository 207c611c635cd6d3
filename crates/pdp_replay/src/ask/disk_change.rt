ghost use Rattle.std.specs.Prelude.{◌≡◌, ◌+◌, ◌-◌, ◌<◌, ◌≤◌, max, min};
ghost use Rattle.std.specs.Prelude.{false, IfOk, IsErr, Ok, OnOk};
ghost use Rattle.pdp_script.specs.Refusal.{for_memory, question_answer, result_map};
ghost use Rattle.pdp_replay.specs.Past.{Past};
ghost use Rattle.pdp_replay.specs.Past.Setup.{SetupData};
ghost use Rattle.pdp_replay.specs.Run.KeptRuns.{resumed_turn, Advances, ArrivesAt};
ghost use Rattle.pdp_replay.specs.Run.KeptRuns.{IsKeptRun, KeepsRun};
ghost use Rattle.pdp_replay.specs.Ask.Known.{LeavesPast, RunsFrom};
ghost use Rattle.pdp_replay.specs.Ask.Searches.{first_turn_of, turn_reached, IsFirst};
ghost use Rattle.pdp_replay.specs.Ask.Searches.{IsWithinSearch};
ghost use Rattle.pdp_replay.specs.Ask.Told.{IsAtTurn, IsToldOf};
ghost use Rattle.pdp_replay.specs.Ask.DiskChanges.{change_checked, word_changes, CanWatch};

use crate::ask::Told;
use crate::ask::search::{check_search, search};
use crate::ask::watch::Watchpoint;
use crate::engine::Engine;
use crate::past::{DRIVE_WORDS, disk_word};
use crate::run::KeptRun;
use pdp_script::{Fault, Script};
use pdp_unibus::LAST_TURN;
use pdp_word::NoMemory;
use std::alloc::Global;

impl Engine {
    /// The first turn from turn `from` on and before turn `to` that changes the word of this number
    /// of a drive (drive and word counted from 0), of the run from power-up of the past as it is
    /// now: after the turn the word isn't what it was before the turn. A transfer that writes the
    /// word that is there changes nothing. The machine runs up to the end of the turn that is
    /// found, or to `to`.
    ///
    /// Err(TurnTooLarge) if a turn is above 1,000,000,000; otherwise Err(CountOutOfRange) if `from`
    /// is above `to`; otherwise Err(NoSuchDrive) if the drive is not below the number of drives;
    /// otherwise Err(OutsideDisk) if the word's number is 4604000 (octal; 1,247,232) or above;
    /// otherwise Err(NoMemory) if memory was refused. No refusal changes the past, and one for
    /// another cause than memory changes nothing. [P]
    pub fn next_change(
        &mut self,
        alloc: Global,
        drive: u8,
        number: u32,
        from: u32,
        to: u32,
    ) -> Result<Told<Option<u32>>, Fault>
        ensures refusal { result_map (λ _. tt) result ≡ question_answer
            (change_checked drive number from to self.old.past.setup) (for_memory result) }
        ensures turn { IfOk result
            (λ found. IsFirst (word_changes drive number self.old.past) from to found.value) }
        ensures value { IfOk result (λ found. found.value
            ≡ first_turn_of (word_changes drive number self.old.past) from (to - from)) }
        ensures bound { IsWithinSearch from self.old self.new }
        ensures leaves { LeavesPast to self.old self.new }
        ensures runs { change_checked drive number from to self.old.past.setup ≡ Ok tt
            → RunsFrom from self.old self.new }
        ensures told { IfOk result (λ found. IsToldOf found self.old self.new) }
        ensures ends { IfOk result
            (λ found. IsAtTurn (turn_reached found.value to) self.old self.new) }
        ensures refused { IsErr result → for_memory result ≡ false → self.new ≡ self.old }
    {
        let before = self.run.meter.count();
        check_change(self.base_setup.drives.count(), drive, number, from, to)?;
        let found = find_change(
            alloc,
            &mut self.run,
            &self.script,
            usize::from(drive),
            number as usize,
            from,
            to,
        );
        self.highest = self.highest.max(self.run.known);
        let turn = found?;
        Ok(Told::of(turn, &self.run, before))
    }
}

/// Whether the turns from one on and before another can be searched for a change of this word, of a
/// run with `drives` drives.
fn check_change(drives: usize, drive: u8, number: u32, from: u32, to: u32) -> Result<(), Fault>
    ensures refusal { (s : SetupData) → s.drives ≡ drives
        → change_checked drive number from to s ≡ result }
    ensures limit { OnOk result (to ≤ LAST_TURN) }
    ensures order { OnOk result (from ≤ to) }
    ensures there { OnOk result (drive < drives) }
    ensures below { OnOk result (number < DRIVE_WORDS) }
{
    check_search(from, to)?;
    disk_word(drives, drive, number)?;
    Ok(())
}

/// Takes the machine to turn `from`, and from there on until a turn changed the word of this number
/// of the drive, or to turn `to`. Returns that turn.
///
/// Err if memory was refused; what was kept until then stays.
fn find_change(
    alloc: Global,
    run: &mut KeptRun,
    script: &Script,
    drive: usize,
    number: usize,
    from: u32,
    to: u32,
) -> Result<Option<u32>, NoMemory>
    requires can { CanWatch drive number script.now run.old }
    requires order { from ≤ to }
    requires limit { to ≤ LAST_TURN }
    ensures found { IfOk result (λ found. (p : Past) → p.script ≡ script.now → IsKeptRun p run.old
        → IsFirst (word_changes drive number p) from to found) }
    ensures kept { KeepsRun script.now run.old run.new }
    ensures arrives { IfOk result (λ found. ArrivesAt (turn_reached found to) run.old run.new) }
    ensures advances { Advances (resumed_turn run.old from) to run.old run.new }
    ensures bound { run.new.meter + min from run.old.known + 1
        ≤ run.old.meter + max from run.new.machine.state.turn + run.old.ladder.stride }
{
    run.reach(alloc, script, from)?;
    let word = run.machine.disk_word(drive, number);
    let watch = Watchpoint::Change {
        drive,
        number,
        word,
    };
    search(alloc, run, script, watch, to)
}
