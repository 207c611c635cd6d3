ghost use Rattle.std.specs.Prelude.{◌≡◌, OnErr, is_err};
ghost use Rattle.pdp_script.specs.Restore.{event_before, script_restored};
ghost use Rattle.pdp_script.specs.Script.{IsScript};
ghost use Rattle.pdp_replay.specs.Past.FirstWords.{IsThere};
ghost use Rattle.pdp_replay.specs.Past.Restored.{ArePatchedOnce, word_before};
ghost use Rattle.pdp_replay.specs.Timeline.{delays_restored, event_restored, tape_restored};
ghost use Rattle.pdp_replay.specs.Timeline.{word_restored};

use crate::engine::Engine;
use crate::past::{WordBefore, find_patch, restore_patch};
use pdp_io_page::Delays;
use pdp_script::EventBefore;
use pdp_store::WordAt;
use pdp_unibus::LAST_TURN;
use pdp_word::NoMemory;

impl Engine {
    /// What the script has of the number of an event. It takes no memory. [P]
    pub fn event_before(&self, number: u32) -> EventBefore
        ensures before { result ≡ event_before number self.now.past.script }
        ensures script { IsScript self.now.past.script }
    {
        self.script.before(number)
    }

    /// What the patches have of a word. It takes no memory. [P]
    pub fn word_before(&self, at: WordAt) -> WordBefore
        ensures before { result ≡ word_before at self.now.past.setup.patches }
        ensures once { ArePatchedOnce self.now.past.setup.patches }
    {
        WordBefore {
            at,
            was: find_patch(&self.patches, at),
        }
    }

    /// The paper tape that is in the reader as of power-up. [P]
    pub fn tape(&self) -> &[u8]
        ensures { result.now ≡ self.now.past.setup.tape }
    {
        self.run.machine.tape()
    }

    /// Gives the script back what it had of an event: the event at its place, or none, and how many
    /// numbers were given. The known turn becomes at most the lesser of the turns of the event as it
    /// is and as it was; no turn is run.
    ///
    /// Err if memory was refused; nothing changes then. [P]
    pub fn restore_event(&mut self, before: EventBefore) -> Result<(), NoMemory>
        requires script { IsScript (script_restored before self.old.past.script) }
        ensures after { self.new ≡ event_restored before (is_err result) self.old }
        ensures refused { OnErr result (self.new ≡ self.old) }
    {
        let alloc = *self.patches.allocator();
        let now = self.script.turn_of(before.number);
        let was = before.turn();
        self.script.restore(before)?;
        let first = now.unwrap_or(LAST_TURN).min(was.unwrap_or(LAST_TURN));
        let last = now.unwrap_or(0).max(was.unwrap_or(0));
        self.run.lower(alloc, first, last);
        Ok(())
    }

    /// Gives the patches back what they had of a word, in the checkpoints too: its patch at its
    /// place, or none. The known turn becomes the first turn below it that accesses the word's page
    /// of 256 words in any way, and stays if there is none. No turn is run.
    ///
    /// Err if memory was refused; nothing changes then. [P]
    pub fn restore_word(&mut self, before: WordBefore) -> Result<(), NoMemory>
        requires there { IsThere self.old.past.setup before.at }
        ensures after { self.new ≡ word_restored before (is_err result) self.old }
        ensures refused { OnErr result (self.new ≡ self.old) }
    {
        let alloc = *self.patches.allocator();
        let word = self.base_setup.first_word(before.at, before.was);
        self.patches.reserve(1)?;
        self.run.set_word(alloc, before.at, word)?;
        restore_patch(&mut self.patches, before.at, before.was);
        Ok(())
    }

    /// Puts this paper tape, which the reader had, into the reader as of power-up. The known turn
    /// becomes 0; no turn is run. It takes no memory, and doesn't test the tape's length. [P]
    pub fn restore_tape(&mut self, tape: Vec<u8>)
        ensures { self.new ≡ tape_restored tape.items self.old }
    {
        let alloc = *self.patches.allocator();
        self.run.set_tape(alloc, tape);
    }

    /// Gives all devices the delays that they had as of power-up, in turns. The known turn becomes
    /// 0; no turn is run. It takes no memory. [P]
    pub fn restore_delays(&mut self, delays: Delays)
        ensures { self.new ≡ delays_restored delays self.old }
    {
        self.delays = delays;
        self.run.set_delays(delays);
    }
}
