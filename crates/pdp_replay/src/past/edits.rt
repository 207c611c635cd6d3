ghost use Rattle.std.specs.Prelude.{◌≡◌, ◌*◌, ◌/◌, ◌<◌, is_err, is_some, None, Ok, IfOk, OnErr};
ghost use Rattle.std.specs.Prelude.{OnOk, false, true};
ghost use Rattle.indexmap.specs.IndexMap.{spare};
ghost use Rattle.pdp_script.specs.Refusal.{for_memory, edit_answer, result_map};
ghost use Rattle.pdp_replay.specs.Past.FirstWords.{IsThere};
ghost use Rattle.pdp_replay.specs.Past.PatchedWords.{patch_of};
ghost use Rattle.pdp_replay.specs.Past.Setup.{SetupData};
ghost use Rattle.pdp_replay.specs.Past.Edit.{core_word_at, core_edit, revert_edit};
ghost use Rattle.pdp_replay.specs.Past.Edit.{insertion_answer, event_alteration, event_drop};
ghost use Rattle.pdp_replay.specs.Past.Edit.{patch_at, patch_count};
ghost use Rattle.pdp_replay.specs.Timeline.{core_edited, core_reverted, event_inserted};
ghost use Rattle.pdp_replay.specs.Timeline.{event_altered, event_dropped, word_patched};

use crate::engine::Engine;
use crate::past::{Patch, UNIT_WORDS};
use indexmap::IndexMap;
use pdp_script::Fault;
use pdp_store::{Part, WordAt};
use pdp_unibus::Event;
use pdp_word::NoMemory;

impl Engine {
    /// Makes the core word at this address (octal, bytes) equal to `word` as of power-up. A word
    /// that has a patch keeps its place among the patches. The known turn becomes the first turn
    /// below it that accesses the word's page of 256 words in any way, and stays if there is none.
    /// No turn is run.
    ///
    /// Err(OutsideCore) if the address is not in core; else Err(OddAddress) if it is odd; else
    /// Err(NoMemory) if memory was refused. A refused edit changes nothing. [P]
    #[tactic(auto, unfolding(crate::specs::Past::Edit::core_edit))]
    pub fn set_core(&mut self, address: u32, word: u16) -> Result<(), Fault>
        ensures answer { result ≡ edit_answer (core_edit address word self.old.past)
            (for_memory result) tt }
        ensures after { self.new ≡ core_edited address word (for_memory result) self.old }
        ensures refused { OnErr result (self.new ≡ self.old) }
    {
        let number = core_word(self.base_setup.units, address)?;
        let at = WordAt {
            part: Part::Core,
            number: number as usize,
        };
        self.set_patch(at, word)?;
        Ok(())
    }

    /// Makes a word equal to `word` as of power-up, in the checkpoints too. A word that has a patch
    /// keeps its place among the patches.
    ///
    /// Err if memory was refused; nothing changes then.
    pub(crate) fn set_patch(&mut self, at: WordAt, word: u16) -> Result<(), NoMemory>
        requires there { IsThere self.old.past.setup at }
        ensures after { self.new ≡ word_patched at word (is_err result) self.old }
        ensures refused { OnErr result (self.new ≡ self.old) }
    {
        let alloc = *self.patches.allocator();
        make_room(&mut self.patches, at)?;
        self.run.set_word(alloc, at, word)?;
        self.patches.insert(at, word)?;
        Ok(())
    }

    /// Takes back the patch of the core word at this address (octal, bytes): as of power-up it is
    /// its image's word again, or 0. The other patches keep their order. The known turn becomes the
    /// first turn below it that accesses the word's page of 256 words in any way, and stays if
    /// there is none. No turn is run.
    ///
    /// Err(OutsideCore) if the address is not in core; else Err(OddAddress) if it is odd; else
    /// Err(NoSuchPatch) if the word has no patch; else Err(NoMemory) if memory was refused. A
    /// refused edit changes nothing. [P]
    #[tactic(auto, unfolding(crate::specs::Past::Edit::revert_edit))]
    pub fn revert_core(&mut self, address: u32) -> Result<(), Fault>
        ensures answer { result ≡ edit_answer (revert_edit address self.old.past)
            (for_memory result) tt }
        ensures after { self.new ≡ core_reverted address (for_memory result) self.old }
        ensures refused { OnErr result (self.new ≡ self.old) }
    {
        let number = core_word(self.base_setup.units, address)?;
        let at = WordAt {
            part: Part::Core,
            number: number as usize,
        };
        if !self.patches.contains_key(&at) {
            return Err(Fault::NoSuchPatch);
        }
        let alloc = *self.patches.allocator();
        let word = self.base_setup.core_word(number);
        self.run.set_word(alloc, at, word)?;
        self.patches.shift_remove(&at);
        Ok(())
    }

    /// Puts an event into the script at a turn, last among those of the turn, and answers its
    /// number: one more than the last that was given, 1 at first. The known turn becomes at most
    /// that turn; no turn is run.
    ///
    /// Err(TurnTooLarge) at a turn above 1,000,000,000; else Err(ScriptFull) if 65,536 events are
    /// there, or 4,294,967,295 numbers were given; else Err(NoMemory) if memory was refused. A
    /// refused edit changes nothing, and uses up no number. [P]
    #[tactic(auto, unfolding(crate::specs::Past::Edit::event_insertion))]
    pub fn insert(&mut self, turn: u32, event: Event) -> Result<u32, Fault>
        ensures answer { result ≡ insertion_answer turn event (for_memory result) self.old.past }
        ensures after { self.new ≡ event_inserted turn event (for_memory result) self.old }
        ensures refused { OnErr result (self.new ≡ self.old) }
    {
        let alloc = *self.patches.allocator();
        let number = self.script.insert(turn, event)?;
        self.run.lower(alloc, turn, turn);
        Ok(number)
    }

    /// Gives the event of this number another turn and event: at the same turn it keeps its place,
    /// at another it goes last among those of the turn. The known turn becomes at most the lesser
    /// of both turns; no turn is run. It asks memory only for what it sets aside of later turns: if
    /// that is refused it goes on without, and isn't refused.
    ///
    /// Err(TurnTooLarge) at a turn above 1,000,000,000; else Err(NoSuchEvent) if no event has this
    /// number. A refused edit changes nothing. [P]
    #[tactic(auto, unfolding(crate::specs::Past::Edit::event_alteration))]
    pub fn alter(&mut self, number: u32, turn: u32, event: Event) -> Result<(), Fault>
        ensures answer { result ≡ result_map (λ _. tt)
            (event_alteration number turn event self.old.past) }
        ensures after { self.new ≡ event_altered number turn event self.old }
        ensures refused { OnErr result (self.new ≡ self.old) }
    {
        let alloc = *self.patches.allocator();
        let before = self.script.turn_of(number).unwrap_or(turn);
        self.script.alter(number, turn, event)?;
        self.run.lower(alloc, before.min(turn), before.max(turn));
        Ok(())
    }

    /// Takes the event of this number out of the script. Its number is never given again. The known
    /// turn becomes at most its turn; no turn is run. It asks memory only for what it sets aside of
    /// later turns: if that is refused it goes on without, and isn't refused.
    ///
    /// Err(NoSuchEvent) if no event has this number; nothing changes then. [P]
    #[tactic(auto, unfolding(crate::specs::Past::Edit::event_drop))]
    pub fn drop_event(&mut self, number: u32) -> Result<(), Fault>
        ensures answer { result ≡ result_map (λ _. tt) (event_drop number self.old.past) }
        ensures after { self.new ≡ event_dropped number self.old }
        ensures refused { OnErr result (self.new ≡ self.old) }
    {
        let alloc = *self.patches.allocator();
        let before = self.script.turn_of(number).unwrap_or(0);
        self.script.drop_event(number)?;
        self.run.lower(alloc, before, before);
        Ok(())
    }

    /// How many words have a patch.
    pub fn patch_count(&self) -> usize
        ensures { result ≡ patch_count self.now.past }
    {
        self.patches.len()
    }

    /// The patch of this index, counted from 0 in the order in which the words were first given
    /// one; None past the last. Takes no memory.
    pub fn patch(&self, index: usize) -> Option<Patch>
        ensures { result ≡ patch_at self.now.past index }
    {
        let (at, word) = self.patches.get_index(index)?;
        let number = at.number as u32;
        Some(match at.part {
            Part::Core => Patch::Core(number * 2, *word),
            Part::Drive(drive) => Patch::Disk(drive, number, *word),
        })
    }
}

/// Makes room for the patch of a word that has none.
///
/// Err if the memory was refused. Takes no memory for a word that has a patch.
fn make_room(patches: &mut IndexMap<WordAt, u16>, at: WordAt) -> Result<(), NoMemory>
    ensures same { patches.new.entries ≡ patches.old.entries }
    ensures room { OnOk result (patch_of patches.new.entries at ≡ None → 0 < spare patches.new) }
    ensures patched { is_some (patch_of patches.old.entries at) ≡ true → result ≡ Ok tt }
{
    if patches.contains_key(&at) {
        return Ok(());
    }
    patches.reserve(1)?;
    Ok(())
}

/// The number of the core word at this address (octal, bytes), of a core of `units` units.
///
/// Err(OutsideCore) if the address is not in core; else Err(OddAddress) if it is odd.
#[tactic(auto, unfolding(crate::specs::Past::Edit::core_word_at))]
pub(crate) fn core_word(units: u8, address: u32) -> Result<u32, Fault>
    ensures number { (s : SetupData) → s.units ≡ units → core_word_at address s ≡ result }
    ensures half { IfOk result (λ number. number ≡ address / 2) }
    ensures below { IfOk result (λ number. number < units * UNIT_WORDS) }
{
    let number = address / 2;
    if number as usize >= usize::from(units) * UNIT_WORDS {
        return Err(Fault::OutsideCore);
    }
    if address % 2 != 0 {
        return Err(Fault::OddAddress);
    }
    Ok(number)
}
