ghost use Rattle.std.specs.Prelude.{◌≡◌, ◌<◌, IfOk, OnErr, OnOk};
ghost use Rattle.pdp_script.specs.Refusal.{for_memory, edit_answer, result_map};
ghost use Rattle.pdp_replay.specs.Past.Edit.{disk_word_at, disk_edit, drives_edit, tape_edit};
ghost use Rattle.pdp_replay.specs.Past.Edit.{delay_edit};
ghost use Rattle.pdp_replay.specs.Past.Setup.{SetupData};
ghost use Rattle.pdp_replay.specs.Timeline.{disk_edited, drives_given, timeline_restarted};
ghost use Rattle.pdp_replay.specs.Timeline.{tape_replaced, delay_set};

use crate::engine::Engine;
use crate::past::{DRIVE_WORDS, DriveCount, TAPE_BYTES, more_drives};
use pdp_io_page::DelayedDevice;
use pdp_script::Fault;
use pdp_store::{Part, WordAt};
use pdp_unibus::LAST_TURN;

impl Engine {
    /// Makes the word of this number on the drive of this number (both counted from 0) equal to
    /// `word` as of power-up. A word that has a patch keeps its place among the patches. No edit
    /// takes a patch of a drive back: the word of the drive's image, 0 past its end, undoes what it
    /// does, and it stays among the patches. The known turn becomes the first turn below it that
    /// accesses the word's page of 256 words in any way, and stays if there is none. No turn is
    /// run.
    ///
    /// Err(NoSuchDrive) if the drive is not below the number of drives; else Err(OutsideDisk) if
    /// the word's number is 4604000 (octal; 1,247,232) or above; else Err(NoMemory) if memory was
    /// refused. A refused edit changes nothing. [P]
    #[tactic(auto, unfolding(crate::specs::Past::Edit::disk_edit))]
    pub fn set_disk(&mut self, drive: u8, number: u32, word: u16) -> Result<(), Fault>
        ensures answer { result ≡ edit_answer (disk_edit drive number word self.old.past)
            (for_memory result) tt }
        ensures after { self.new ≡ disk_edited drive number word (for_memory result) self.old }
        ensures refused { OnErr result (self.new ≡ self.old) }
    {
        let number = disk_word(self.base_setup.drives.count(), drive, number)?;
        let at = WordAt {
            part: Part::Drive(drive),
            number: number as usize,
        };
        self.set_patch(at, word)?;
        Ok(())
    }

    /// Gives the run eight drives as of power-up. Drive 0 stays as it is; each other drive has the
    /// words of its image, and is 0 past them. If there are eight drives already, they stay. The
    /// known turn becomes 0, and the machine goes back to the state of turn 0; no turn is run.
    ///
    /// Err(NoMemory) if memory was refused. The past, the known turn and all that is kept of the
    /// run then stay; the next question goes on from a checkpoint, and not from the turn of the
    /// last one. [P]
    pub fn use_eight_drives(&mut self) -> Result<(), Fault>
        ensures answer { result ≡ edit_answer (drives_edit self.old.past) (for_memory result) tt }
        ensures after { self.new ≡ drives_given (for_memory result) self.old }
        ensures refused { OnErr result (self.new ≡ timeline_restarted self.old) }
    {
        self.run.resume(0);
        match self.base_setup.drives {
            DriveCount::One => {
                let alloc = *self.patches.allocator();
                let drives = more_drives(alloc, &self.base_setup)?;
                self.run.add_drives(alloc, drives)?;
                self.base_setup.drives = DriveCount::Eight;
            }
            DriveCount::Eight => {
                let alloc = *self.patches.allocator();
                self.run.lower(alloc, 0, 0);
            }
        }
        Ok(())
    }

    /// Puts this paper tape into the reader as of power-up, in place of the one that is there. The
    /// known turn becomes 0; no turn is run. Takes no memory.
    ///
    /// Err(BadImage) if the tape is longer than 1,048,576 bytes; nothing changes then. [P]
    #[tactic(auto, unfolding(crate::specs::Past::Edit::tape_edit))]
    pub fn set_tape(&mut self, tape: Vec<u8>) -> Result<(), Fault>
        ensures answer { result ≡ result_map (λ _. tt) (tape_edit tape.items self.old.past) }
        ensures after { self.new ≡ tape_replaced tape.items self.old }
        ensures refused { OnErr result (self.new ≡ self.old) }
    {
        if tape.len() > TAPE_BYTES {
            return Err(Fault::BadImage);
        }
        let alloc = *self.patches.allocator();
        self.run.set_tape(alloc, tape);
        Ok(())
    }

    /// Sets the delay of a device as of power-up, in turns: how many turns after it began an
    /// operation of its device completes, and of the clock its period; with 0 by events alone. The
    /// delays of the other lines stay. The known turn becomes 0; no turn is run. Takes no memory.
    ///
    /// Err(TurnTooLarge) if the delay is above 1,000,000,000; nothing changes then. [P]
    #[tactic(auto, unfolding(crate::specs::Past::Edit::delay_edit))]
    pub fn set_delay(&mut self, device: DelayedDevice, delay: u32) -> Result<(), Fault>
        ensures answer { result ≡ result_map (λ _. tt) (delay_edit device delay self.old.past) }
        ensures after { self.new ≡ delay_set device delay self.old }
        ensures refused { OnErr result (self.new ≡ self.old) }
    {
        if delay > LAST_TURN {
            return Err(Fault::TurnTooLarge);
        }
        self.delays = self.delays.with(device, delay);
        self.run.set_delays(self.delays);
        Ok(())
    }
}

/// The number of a word of a drive, of a run with `drives` drives.
///
/// Err(NoSuchDrive) if there is no drive of this number; else Err(OutsideDisk) if the drive has no
/// word of this number.
#[tactic(auto, unfolding(crate::specs::Past::Edit::disk_word_at))]
pub(crate) fn disk_word(drives: usize, drive: u8, number: u32) -> Result<u32, Fault>
    ensures word { (s : SetupData) → s.drives ≡ drives → disk_word_at drive number s ≡ result }
    ensures same { IfOk result (λ word. word ≡ number) }
    ensures there { OnOk result (drive < drives) }
    ensures below { IfOk result (λ word. word < DRIVE_WORDS) }
{
    if usize::from(drive) >= drives {
        return Err(Fault::NoSuchDrive);
    }
    if number as usize >= DRIVE_WORDS {
        return Err(Fault::OutsideDisk);
    }
    Ok(number)
}
