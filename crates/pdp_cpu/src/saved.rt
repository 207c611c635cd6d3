//! What is saved of a machine, so that it can be looked at again as it was.

ghost use Rattle.std.specs.Prelude.{◌≡◌, ◌≤◌, length, IfOk};
ghost use Rattle.pdp_cpu.specs.KeptTexts.{kept_before};
ghost use Rattle.pdp_cpu.specs.Saved.{CanHold, saved_machine_with_delays, saved_machine, state_cut};
ghost use Rattle.pdp_cpu.specs.Saved.{state_on};
ghost use Rattle.pdp_cpu.specs.Handbook.MachineState.{state_with_tape};

use crate::machine::Machine;
use pdp_io_page::Delays;
use pdp_operand::Processor;
use pdp_store::{Paged, PagedDrive};
use pdp_unibus::SavedBus;
use pdp_word::NoMemory;
use std::alloc::Global;
use std::marker::Model;

mod overlay;
mod patched_page;

pub use overlay::SavedOutput;

/// The machine whose core and drives can be taken as shared pages.
pub type PagedMachine = Machine<Paged, PagedDrive>;

/// A machine as it was: all of it that turns change. Its words are pages that it shares with the
/// machine, and of what was printed and punched it has the lengths: the bytes are the machine's.
///
/// A contract sees it as a `SavedMachineData`.
#[derive(Drop)]
pub struct Saved {
    turn: u32,
    processor: Processor,
    bus: SavedBus,

    /// How many bytes were printed and punched.
    text_length: usize,
    punched_length: usize,
}

impl Model for Saved {
    ghost use Rattle.pdp_cpu.specs.Saved.{SavedMachineData};

    ghost Value = { SavedMachineData };

    ghost view = { λ s. record {
      turn = s.turn;
      processor = s.processor;
      bus = s.bus;
      text_length = s.text_length;
      punched_length = s.punched_length;
    } };
}

impl Saved {
    /// Makes these the delays (turns) of its devices.
    pub fn set_delays(&mut self, delays: Delays)
        ensures { self.new ≡ saved_machine_with_delays delays self.old }
    {
        self.bus.set_delays(delays);
    }
}

impl Machine<Paged, PagedDrive> {
    /// The machine as it is now. Words that are shared already are shared again, and only others
    /// copied.
    ///
    /// Err(NoMemory) if memory was refused. The machine stays as it is in any case.
    pub fn save(&mut self, alloc: Global) -> Result<Saved, NoMemory>
        ensures same { self.new ≡ self.old }
        ensures saved { IfOk result (λ saved. saved ≡ saved_machine self.old.state) }
    {
        let bus = self.computer.bus.save(alloc)?;
        Ok(Saved {
            turn: self.turn,
            processor: self.computer.processor,
            bus,
            text_length: self.text.count(),
            punched_length: self.punched.count(),
        })
    }

    /// Makes the machine the one that was saved, on its own tape, its texts the first of the bytes
    /// that it keeps: none of these goes, and first touches stay. It asks for a core and drives of
    /// the same sizes, and for as many kept bytes. Takes no memory.
    pub fn load(&mut self, saved: &Saved)
        requires { CanHold self.old saved.now }
        ensures state { self.new.state ≡ state_on self.old saved.now }
        ensures kept_text { self.new.kept_text ≡ self.old.kept_text }
        ensures kept_punched { self.new.kept_punched ≡ self.old.kept_punched }
        ensures first_touches { self.new.first_touches ≡ self.old.first_touches }
    {
        self.turn = saved.turn;
        self.computer.processor = saved.processor;
        self.computer.bus.load(&saved.bus);
        self.text.show(saved.text_length);
        self.punched.show(saved.punched_length);
    }

    /// Drops the bytes at the end of the kept texts that were printed or punched in this turn or
    /// later, also of the texts of the machine as it is now. Takes no memory.
    pub fn keep_text(&mut self, turn: u32)
        ensures kept_text { self.new.kept_text ≡ kept_before turn self.old.kept_text }
        ensures kept_punched { self.new.kept_punched ≡ kept_before turn self.old.kept_punched }
        ensures first_touches { self.new.first_touches ≡ self.old.first_touches }
        ensures state { self.new.state ≡ state_cut (length self.new.kept_text)
            (length self.new.kept_punched) self.old.state }
    {
        self.text.keep_before(turn);
        self.punched.keep_before(turn);
    }

    /// Puts another tape into the reader, of which as many bytes count as read. Takes no memory.
    pub fn set_tape(&mut self, tape: Vec<u8>)
        ensures state { self.new.state ≡ state_with_tape tape.items self.old.state }
        ensures kept_text { self.new.kept_text ≡ self.old.kept_text }
        ensures kept_punched { self.new.kept_punched ≡ self.old.kept_punched }
        ensures first_touches { self.new.first_touches ≡ self.old.first_touches }
    {
        self.computer.bus.set_tape(tape);
    }
}
