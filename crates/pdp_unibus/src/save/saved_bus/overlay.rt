ghost use Rattle.std.specs.Prelude.{◌≡◌, ◌↔◌, map, length, true};
ghost use Rattle.pdp_unibus.specs.Handbook.BusWorld.{with_first_touches};
ghost use Rattle.pdp_unibus.specs.SavedBusData.{HasSizesOf, bus_of, saved_bus, saved_bus_over};
ghost use Rattle.pdp_unibus.specs.SavedBusData.{saved_bus_with_stamps, with_core_over};

use super::SavedBus;
use crate::bus::Bus;
use crate::known::shut_all;
use crate::save::saved_drives::each_has_words;
use pdp_store::{Paged, PagedDrive, Store};

impl Bus<Paged, PagedDrive> {
    /// Whether the bus is the one that was saved, except for the last stamps of core, the bytes of
    /// the tape and the first touches. It asks for a core and drives of the same sizes.
    pub fn is_same_as(&self, saved: &SavedBus) -> bool
        requires { HasSizesOf saved.now self.now }
        ensures { (result ≡ true)
            ↔ (saved_bus self.now ≡ saved_bus_with_stamps self.now.stamps saved.now) }
    {
        if self.turn != saved.turn || self.tape.taken() != saved.bytes_read {
            return false;
        }
        if !self.io_page.is_same(&saved.io_page) {
            return false;
        }
        if !self.core.has_words(&saved.core) {
            return false;
        }
        each_has_words(&self.drives, &saved.drives)
    }

    /// Makes the bus the one that was saved, with the tape and the first touches that it has now.
    /// Of the last stamps of core those of turn `turn` and of later turns are laid over those that
    /// the bus has. Takes no memory.
    pub fn load_over(&mut self, saved: &SavedBus, turn: u32)
        requires { HasSizesOf saved.now self.old }
        ensures { self.new ≡ with_first_touches
            (bus_of self.old.tape (saved_bus_over turn self.old.stamps saved.now))
            self.old.first_touches }
    {
        self.load_core_over(saved, turn);
        self.load_devices(saved);
    }

    // Makes the words of core the saved ones, and lays their last stamps over those of the bus.
    fn load_core_over(&mut self, saved: &SavedBus, turn: u32)
        requires { HasSizesOf saved.now self.old }
        ensures { self.new ≡ with_core_over turn saved.now self.old }
    {
        shut_all(&mut self.known);
        self.core.load_pages_over(&saved.core, turn);
        self.lines.clear();
    }
}
