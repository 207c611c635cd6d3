//! What is saved of a bus, so that it can be looked at again as it was.

ghost use Rattle.std.specs.Prelude.{◌≡◌, length, map, IfOk};
ghost use Rattle.pdp_unibus.specs.Handbook.BusWorld.{with_first_touches};
ghost use Rattle.pdp_unibus.specs.SavedBusData.{HasSizesOf, saved_bus, bus_of};
ghost use Rattle.pdp_unibus.specs.SavedBusData.{IsCoreOf, IsCoreOfSize, with_core_of};
ghost use Rattle.pdp_unibus.specs.SavedBusData.{saved_bus_with_core, saved_bus_with_delays};
ghost use Rattle.pdp_unibus.specs.SavedBusData.{bus_with_tape};

use crate::bus::Bus;
use crate::known::shut_all;
use crate::save::saved_drives::{load_each, take_each};
use pdp_io_page::{Delays, IoPage, Watch};
use pdp_store::{Page, Paged, PagedDrive, Pages, Store};
use pdp_word::NoMemory;
use std::alloc::Global;
use std::marker::Model;
use std::rc::Rc;

mod overlay;
mod patched_page;

pub use patched_page::{NewPages, PatchedPage};

/// A bus as it was: all of it except the bytes of its tape, which no turn changes, and the first
/// touches of pages. Words are kept as pages that it shares with the stores of the bus. The list of
/// core's pages is its own, and a drive's list is shared.
///
/// A contract sees it as a `SavedBusData`.
#[derive(Drop)]
pub struct SavedBus {
    io_page: IoPage,
    core: Vec<Rc<Page>>,
    drives: Vec<Pages>,

    // How many bytes of the tape had been read.
    bytes_read: usize,
    turn: u32,
}

impl Model for SavedBus {
    ghost use Rattle.std.specs.Prelude.{◌≡◌, [], map};
    ghost use Rattle.std.specs.List.{All};
    ghost use Rattle.pdp_store.specs.Pages.{stamps_of, words_of};
    ghost use Rattle.pdp_store.specs.Stored.{HasLastOfEachOrNone};
    ghost use Rattle.pdp_unibus.specs.SavedBusData.{SavedBusData};
    ghost use Rattle.pdp_unibus.specs.SavedDrives.{AreUnstamped, pages_words};

    ghost Value = { SavedBusData };

    ghost view = { λ s. record {
      io_page = s.io_page;
      core = words_of s.core.items;
      stamps = stamps_of s.core.items;
      drives = map pages_words s.drives.items;
      bytes_read = s.bytes_read;
      turn = s.turn;
    } };

    ghost invariant = { λ s. AreUnstamped s.drives.items × HasLastOfEachOrNone
        (words_of s.core.items) (stamps_of s.core.items) };
}

impl SavedBus {
    /// The saved bus with other delays, and the same in all else.
    pub fn set_delays(&mut self, delays: Delays)
        ensures { self.new ≡ saved_bus_with_delays delays self.old }
    {
        self.io_page.delays = delays;
    }
}

impl Bus<Paged, PagedDrive> {
    /// Core as it is now. Pages that are shared already are shared again, and only others copied.
    ///
    /// Err(NoMemory) if memory was refused. The bus stays as it is in any case.
    pub fn take_core(&mut self, alloc: Global) -> Result<Vec<Rc<Page>>, NoMemory>
        ensures same { self.new ≡ self.old }
        ensures taken { IfOk result (λ pages. IsCoreOf pages.items self.old) }
    {
        // This read gives the prover how many words core has.
        let _words = self.core.len();
        self.core.take_pages(alloc)
    }

    /// Makes core the one of these pages, with their last stamps. Takes no memory.
    pub fn load_core(&mut self, pages: &[Rc<Page>])
        requires { IsCoreOfSize pages.now self.old }
        ensures { self.new ≡ with_core_of pages.now self.old }
    {
        shut_all(&mut self.known);
        self.core.load_pages(pages);
        self.lines.clear();
    }

    /// The bus as it is now. Words that are shared already are shared again, and only others
    /// copied.
    ///
    /// Err(NoMemory) if memory was refused. The bus stays as it is in any case.
    pub fn save(&mut self, alloc: Global) -> Result<SavedBus, NoMemory>
        ensures same { self.new ≡ self.old }
        ensures saved { IfOk result (λ saved. saved ≡ saved_bus self.old) }
    {
        let core = self.take_core(alloc)?;
        let drives = take_each(alloc, &mut self.drives)?;
        Ok(SavedBus {
            io_page: self.io_page.copy(),
            core,
            drives,
            bytes_read: self.tape.taken(),
            turn: self.turn,
        })
    }

    /// Makes the bus the one that was saved, with the tape and the first touches that it has now.
    /// Takes no memory.
    pub fn load(&mut self, saved: &SavedBus)
        requires { HasSizesOf saved.now self.old }
        ensures { self.new
            ≡ with_first_touches (bus_of self.old.tape saved.now) self.old.first_touches }
    {
        self.load_core(&saved.core);
        self.load_devices(saved);
    }

    // Makes all but core and the first touches the saved ones.
    fn load_devices(&mut self, saved: &SavedBus)
        requires { map length saved.now.drives ≡ map length self.old.drives }
        ensures { self.new ≡ with_first_touches (bus_of self.old.tape
            (saved_bus_with_core self.old.core self.old.stamps saved.now))
            self.old.first_touches }
    {
        load_each(&mut self.drives, &saved.drives);
        self.watch = Watch::unknown();
        shut_all(&mut self.known);
        self.io_page = saved.io_page.copy();
        self.tape.go_to(saved.bytes_read);
        self.turn = saved.turn;
        self.refresh();
    }

    /// Puts another tape into the reader, of which as many bytes count as read. Takes no memory.
    pub fn set_tape(&mut self, tape: Vec<u8>)
        ensures { self.new ≡ bus_with_tape self.old tape.items }
    {
        self.tape.replace(tape);
    }
}
