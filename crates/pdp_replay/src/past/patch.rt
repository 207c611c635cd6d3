ghost use Rattle.std.specs.Option.{option_map};
ghost use Rattle.std.specs.Prelude.{◌≡◌, ◌<◌, IfOk, None};
ghost use Rattle.indexmap.specs.IndexMap.{spare};
ghost use Rattle.pdp_script.specs.Refusal.{result_map};
ghost use Rattle.pdp_replay.specs.Past.{Past};
ghost use Rattle.pdp_replay.specs.Past.Edit.{past_with_patch, patch_edit};
ghost use Rattle.pdp_replay.specs.Past.FirstWords.{IsThere};
ghost use Rattle.pdp_replay.specs.Past.PatchedWords.{patch_of};
ghost use Rattle.pdp_replay.specs.Past.Restored.{ArePatchedOnce, patch_before, patches_restored};
ghost use Rattle.pdp_replay.specs.Past.Restored.{with_patch_back};
ghost use Rattle.pdp_replay.specs.Past.Setup.{IsOfSize};

use crate::past::{BaseSetup, core_word, disk_word};
use indexmap::IndexMap;
use pdp_script::Fault;
use pdp_store::{Part, WordAt};

/// A word that differs as of power-up [P].
#[derive(Clone, Copy)]
pub enum Patch {
    /// The core word at this address (octal, bytes, even) is this word.
    Core(u32, u16),
    /// Of the drive of this number, the word of this number (both counted from 0) is this word.
    Disk(u8, u32, u16),
}

impl Patch {
    /// Which word of a run of this size it patches, and to which value.
    ///
    /// Err as of `set_core` and `set_disk`. It takes no memory.
    pub(crate) fn place(self, base_setup: &BaseSetup) -> Result<(WordAt, u16), Fault>
        ensures past { (p : Past) → IsOfSize base_setup.now p.setup
            → patch_edit self p ≡ result_map (λ place. past_with_patch place.0 place.1 p) result }
        ensures there { IfOk result (λ place. (p : Past) → IsOfSize base_setup.now p.setup
            → IsThere p.setup place.0) }
    {
        match self {
            Patch::Core(address, word) => {
                let number = core_word(base_setup.units, address)? as usize;
                let part = Part::Core;
                Ok((WordAt { part, number }, word))
            }
            Patch::Disk(drive, number, word) => {
                let number = disk_word(base_setup.drives.count(), drive, number)? as usize;
                let part = Part::Drive(drive);
                Ok((WordAt { part, number }, word))
            }
        }
    }
}

/// What a past has of the patch of a word: its place among all patches, with its value, if the word
/// has one. From before an edit of the word it takes the edit back, and from after the edit it makes
/// the edit again [P].
#[derive(Clone, Copy)]
pub struct WordBefore {
    /// The word.
    pub at: WordAt,
    /// The place of its patch among all, counted from 0, with the value.
    pub was: Option<(usize, u16)>,
}

/// The place of the patch of a word among all, with its value. None if the word has none.
pub(crate) fn find_patch(patches: &IndexMap<WordAt, u16>, at: WordAt) -> Option<(usize, u16)>
    ensures place { result ≡ patch_before at patches.now.entries }
    ensures once { ArePatchedOnce patches.now.entries }
{
    if patches.len() == 0 {
        return None;
    }
    match patches.get_full(&at) {
        Some((place, _, word)) => Some((place, *word)),
        None => None,
    }
}

/// Gives the patches back what they had of a word, in the room that is there.
pub(crate) fn restore_patch(
    patches: &mut IndexMap<WordAt, u16>,
    at: WordAt,
    was: Option<(usize, u16)>,
)
    requires room { 0 < spare patches.old }
    ensures entries { patches.new.entries ≡ patches_restored at was patches.old.entries }
    ensures word { patch_of patches.new.entries at ≡ option_map (λ p. p.1) was }
{
    patches.shift_remove(&at);
    put_patch(patches, at, was);
}

/// Puts the patch of a word at its place again, if it had one, in the room that is there.
fn put_patch(patches: &mut IndexMap<WordAt, u16>, at: WordAt, was: Option<(usize, u16)>)
    requires none { patch_of patches.old.entries at ≡ None }
    requires room { 0 < spare patches.old }
    ensures entries { patches.new.entries ≡ with_patch_back at was patches.old.entries }
    ensures word { patch_of patches.new.entries at ≡ option_map (λ p. p.1) was }
{
    let Some((place, word)) = was else {
        return;
    };
    let place = place.min(patches.len());
    patches.shift_insert(place, at, word).unwrap();
}
