ghost use Rattle.std.specs.Prelude.{◌≡◌};
ghost use Rattle.pdp_script.specs.Refusal.{result_map};
ghost use Rattle.pdp_replay.specs.Past.Edit.{past_edit, revert_edit};

use crate::engine::Engine;
use crate::past::{Patch, core_word};
use pdp_script::{Fault, ScriptEdit};
use pdp_store::{Part, WordAt};

/// An edit of the past, as something that could be done [P].
#[derive(Clone, Copy)]
pub enum PastEdit {
    /// The script is edited.
    Script(ScriptEdit),
    /// A word gets a value as of power-up, as by `set_core` or `set_disk`.
    Word(Patch),
}

impl Engine {
    /// Whether an edit could be made, memory allowing. It takes no memory.
    ///
    /// Err as that of `insert`, `alter`, `drop_event`, `set_core` or `set_disk`, except for
    /// NoMemory. [P]
    pub fn check_edit(&self, edit: PastEdit) -> Result<(), Fault>
        ensures { result ≡ result_map (λ _. tt) (past_edit edit self.now.past) }
    {
        match edit {
            PastEdit::Script(edit) => self.script.check(edit),
            PastEdit::Word(patch) => match patch.place(&self.base_setup) {
                Ok(_) => Ok(()),
                Err(fault) => Err(fault),
            },
        }
    }

    /// Whether the patch of the core word at this address (octal, bytes) could be taken back, memory
    /// allowing. It takes no memory.
    ///
    /// Err as that of `revert_core`, except for NoMemory. [P]
    #[tactic(auto, unfolding(crate::specs::Past::Edit::revert_edit))]
    pub fn check_reversion(&self, address: u32) -> Result<(), Fault>
        ensures { result ≡ result_map (λ _. tt) (revert_edit address self.now.past) }
    {
        let number = core_word(self.base_setup.units, address)?;
        let at = WordAt {
            part: Part::Core,
            number: number as usize,
        };
        if !self.patches.contains_key(&at) {
            return Err(Fault::NoSuchPatch);
        }
        Ok(())
    }
}
