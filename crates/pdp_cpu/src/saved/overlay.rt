//! A machine that goes on from saved machines of another run.

ghost use Rattle.std.specs.Prelude.{◌≡◌, ◌↔◌, ◌++◌, OnErr, OnOk, true, IfOk};
ghost use Rattle.pdp_store.specs.FirstTouches.{all_first_touches_before};
ghost use Rattle.pdp_store.specs.Overlays.{first_touches_over};
ghost use Rattle.pdp_unibus.specs.SavedBusData.{HasSizesOf};
ghost use Rattle.pdp_unibus.specs.SavedTouches.{HasPagesOf};
ghost use Rattle.pdp_cpu.specs.Saved.{CanHold, SavedMeet, saved_machine, saved_over, state_on};
ghost use Rattle.pdp_cpu.specs.SavedOutput.{TakesOutput, bytes_between, output_from};

use super::Saved;
use crate::kept_text::{KeptByte, KeptText};
use crate::machine::Machine;
use pdp_store::{Paged, PagedDrive};
use pdp_unibus::SavedTouches;
use pdp_word::NoMemory;
use std::alloc::Global;
use std::marker::Model;

/// What came out of a machine from some turn on, and the first touches of its pages: copied, so
/// that the machine of another run can take them.
#[derive(Drop)]
pub struct SavedOutput {
    text: Vec<KeptByte>,

    /// How many bytes were printed, and punched, before the first of these.
    text_from: usize,
    punched: Vec<KeptByte>,
    punched_from: usize,
    touches: SavedTouches,
}

impl Model for SavedOutput {
    ghost use Rattle.pdp_cpu.specs.SavedOutput.{OutputData};

    ghost Value = { OutputData };

    ghost view = { λ o. record {
      text = o.text.items;
      text_from = o.text_from;
      punched = o.punched.items;
      punched_from = o.punched_from;
      first_touches = o.touches;
    } };
}

impl Machine<Paged, PagedDrive> {
    /// The bytes that came out in this turn and later, also of those that are kept of later turns,
    /// and all first touches.
    ///
    /// Err(NoMemory) if memory was refused.
    pub fn save_output(&self, alloc: Global, turn: u32) -> Result<SavedOutput, NoMemory>
        ensures { IfOk result (λ output. output ≡ output_from turn self.now) }
    {
        let (printed, punched) = (self.text.all(), self.punched.all());
        let text_from = self.text.count_before(turn);
        let punched_from = self.punched.count_before(turn);
        let text = printed[text_from..].to_vec(alloc)?;
        let punched = punched[punched_from..].to_vec(alloc)?;
        let touches = self.computer.bus.save_touches(alloc)?;
        Ok(SavedOutput {
            text,
            text_from,
            punched,
            punched_from,
            touches,
        })
    }

    /// Whether the machine and a saved machine of another run meet: they are of the same turn and
    /// equal, except for the last stamps of core and how many bytes were printed and punched. It
    /// doesn't compare the bytes of the tape, nor first touches.
    pub fn meets(&self, saved: &Saved) -> bool
        requires { HasSizesOf saved.now.bus self.now.state.world.bus }
        ensures { (result ≡ true) ↔ SavedMeet (saved_machine self.now.state) saved.now }
    {
        if self.turn != saved.turn || !self.computer.processor.is_same(&saved.processor) {
            return false;
        }
        self.computer.bus.is_same_as(&saved.bus)
    }

    /// Whether each page that the other run touched before the turn of this machine was touched
    /// before it in the run of this machine too.
    pub fn has_touches_of(&self, output: &SavedOutput) -> bool
        requires { HasPagesOf output.now.first_touches self.now.first_touches }
        ensures { (result ≡ true) ↔ (first_touches_over self.now.state.turn self.now.first_touches
            (all_first_touches_before self.now.state.turn output.now.first_touches)
            ≡ self.now.first_touches) }
    {
        self.computer.bus.has_touches_of(&output.touches, self.turn)
    }

    /// Takes of the other run, which this machine meets in the saved machine `there`, the bytes
    /// that come out from there to the later saved machine `next`, and the first touches of these
    /// turns. The bytes come after all that the machine keeps.
    ///
    /// Err(NoMemory) if memory was refused. The machine stays as it is then, except for its room.
    pub fn take_output(
        &mut self,
        output: &SavedOutput,
        there: &Saved,
        next: &Saved,
    ) -> Result<(), NoMemory>
        requires { HasPagesOf output.now.first_touches self.old.first_touches }
        ensures taken { OnOk result
            (TakesOutput there.now next.now output.now self.old self.new) }
        ensures state { self.new.state ≡ self.old.state }
        ensures text { OnErr result (self.new.kept_text ≡ self.old.kept_text) }
        ensures punched { OnErr result (self.new.kept_punched ≡ self.old.kept_punched) }
        ensures first_touches { OnErr result (self.new.first_touches ≡ self.old.first_touches) }
    {
        let text = between(
            &output.text,
            output.text_from,
            there.text_length,
            next.text_length,
        );
        let punched = between(
            &output.punched,
            output.punched_from,
            there.punched_length,
            next.punched_length,
        );
        add_both(&mut self.text, text, &mut self.punched, punched)?;
        let from = self.turn;
        self.computer
            .bus
            .lay_touches(&output.touches, from, next.turn);
        Ok(())
    }

    /// Makes the machine the later saved machine `next` of the other run, which it meets in the
    /// saved machine `there`: its last stamps from there on are laid over those of the machine, and
    /// as many bytes more came out of it as between the two. Takes no memory.
    pub fn load_over(&mut self, there: &Saved, next: &Saved)
        requires sizes { HasSizesOf next.now.bus self.old.state.world.bus }
        requires held { CanHold self.old (saved_over self.old.state.turn
            (saved_machine self.old.state) there.now next.now) }
        ensures state { self.new.state ≡ state_on self.old (saved_over self.old.state.turn
            (saved_machine self.old.state) there.now next.now) }
        ensures kept_text { self.new.kept_text ≡ self.old.kept_text }
        ensures kept_punched { self.new.kept_punched ≡ self.old.kept_punched }
        ensures first_touches { self.new.first_touches ≡ self.old.first_touches }
    {
        let turn = self.turn;
        self.computer.bus.load_over(&next.bus, turn);
        self.turn = next.turn;
        self.computer.processor = next.processor;
        self.text
            .show_more(next.text_length.saturating_sub(there.text_length));
        self.punched
            .show_more(next.punched_length.saturating_sub(there.punched_length));
    }
}

/// Of bytes that come after the first `from` ones, those after the first `first` and up to the
/// first `last`.
fn between(bytes: &[KeptByte], from: usize, first: usize, last: usize) -> &[KeptByte]
    ensures { result.now ≡ bytes_between from first last bytes.now }
{
    let end = last.saturating_sub(from).min(bytes.len());
    let to_last = &bytes[..end];
    let start = first.saturating_sub(from).min(to_last.len());
    &to_last[start..]
}

/// Adds these bytes to both texts.
///
/// Err(NoMemory) if memory was refused. Both stay as they are then.
fn add_both(
    text: &mut KeptText,
    printed: &[KeptByte],
    punched: &mut KeptText,
    more: &[KeptByte],
) -> Result<(), NoMemory>
    ensures text { OnOk result (text.new.bytes ≡ text.old.bytes ++ printed.now) }
    ensures punched { OnOk result (punched.new.bytes ≡ punched.old.bytes ++ more.now) }
    ensures same_text { text.new.text ≡ text.old.text }
    ensures same_punched { punched.new.text ≡ punched.old.text }
    ensures no_text { OnErr result (text.new.bytes ≡ text.old.bytes) }
    ensures no_punched { OnErr result (punched.new.bytes ≡ punched.old.bytes) }
{
    let kept = text.all().len();
    text.add(printed)?;
    if let Err(refused) = punched.add(more) {
        text.keep_first(kept);
        return Err(refused);
    }
    Ok(())
}
