//! Stores whose words can be taken as shared pages, and loaded from them.

ghost use Rattle.std.specs.Prelude.{◌≡◌, ◌<◌, ◌↔◌, Some, length, map, true, IfOk, IsErr, is_ok};
ghost use Rattle.std.specs.Prelude.{if◌then◌else◌};
ghost use Rattle.pdp_store.specs.FirstTouches.{first_touches_before};
ghost use Rattle.pdp_store.specs.Overlays.{touches_over};
ghost use Rattle.pdp_store.specs.Pages.{IsPatched, given_after, stamps_of, next_given, serials};
ghost use Rattle.pdp_store.specs.Pages.{serials_taken, words_of};
ghost use Rattle.pdp_store.specs.Unchanged.{SameStored};

use crate::Store;
use crate::page::{Page, Pages};
use pdp_word::NoMemory;
use std::alloc::Global;

/// A store of a whole number of pages of 256 words, which can be taken as shared pages and loaded
/// from them.
///
/// At each place of 256 words it has a base, the page last taken or loaded there, until a word
/// there is written or set. It numbers the pages that are made of it.
pub trait Paging: Store {
    ghost use Rattle.std.specs.Prelude.{List, ℕ, Option};

    // The serial of the base of each place, if it has one.
    ghost bases: { Self → List (Option ℕ) };

    // How many serials were given.
    ghost given: { Self → ℕ };

    /// This page with its word `i` (0 to 255) changed to `w` and its stamps kept, under the next
    /// serial.
    ///
    /// Err(NoMemory) if memory was refused; no serial is given then. The words and bases of the
    /// store stay.
    fn patched(&mut self, alloc: Global, page: &Page, i: usize, w: u16) -> Result<Page, NoMemory>
        requires { i < 256 }
        ensures page { IfOk result (λ patched. IsPatched page.now patched i w (given self.old)) }
        ensures words { Self.words self.new ≡ Self.words self.old }
        ensures stamps { Self.stamps self.new ≡ Self.stamps self.old }
        ensures bases { bases self.new ≡ bases self.old }
        ensures first_touches { Self.first_touches self.new ≡ Self.first_touches self.old }
        ensures log { Self.log self.new ≡ Self.log self.old }
        ensures given { given self.new ≡ (if is_ok result then next_given
            (given self.old) else given self.old) };

    /// Returns the first touch of each page, in the order of the pages; `u32::MAX` for a page that
    /// has none.
    fn touches(&self) -> &[u32]
        ensures { result.now ≡ Self.first_touches self.now };

    /// Lays first touches of another run over those of the store: a page that was touched before
    /// turn `from` keeps its own first touch, and each other page gets the one that is given for
    /// it, if that is before turn `to`, and otherwise none. Takes no memory.
    fn lay_touches(&mut self, over: &[u32], from: u32, to: u32)
        requires { length over.now ≡ length (Self.first_touches self.old) }
        ensures words { Self.words self.new ≡ Self.words self.old }
        ensures stamps { Self.stamps self.new ≡ Self.stamps self.old }
        ensures bases { bases self.new ≡ bases self.old }
        ensures given { given self.new ≡ given self.old }
        ensures first_touches { Self.first_touches self.new
            ≡ touches_over from (Self.first_touches self.old) (first_touches_before to over.now) }
        ensures log { Self.log self.new ≡ Self.log self.old };

    /// Whether each page that has a first touch before turn `turn` in this list has one before it
    /// in the store too.
    fn has_touches_of(&self, over: &[u32], turn: u32) -> bool
        requires { length over.now ≡ length (Self.first_touches self.now) }
        ensures { (result ≡ true)
            ↔ (touches_over turn (Self.first_touches self.now) (first_touches_before turn over.now)
            ≡ Self.first_touches self.now) };
}

/// A [`Paging`] store whose pages are taken as one list, which is itself shared. So a store that
/// was not written since gives the same list again, and a load shares it.
pub trait SharedPaging: Paging {
    /// The words with their last stamps, as pages: each base is given again, and each other place
    /// as a new page under the next serial, which becomes its base. So only the words of places
    /// without a base are copied.
    ///
    /// Err(NoMemory) if memory was refused, or a page has as many owners as can be counted; the
    /// store is then as before.
    fn take_pages(&mut self, alloc: Global) -> Result<Pages, NoMemory>
        ensures same { SameStored (Self.words self.new) (Self.words self.old)
            (Self.stamps self.new) (Self.stamps self.old) (Self.first_touches self.new)
            (Self.first_touches self.old) }
        ensures log { Self.log self.new ≡ Self.log self.old }
        ensures pages_words { IfOk result (λ pages. words_of pages.value.items
            ≡ Self.words self.old) }
        ensures pages_stamps { IfOk result (λ pages. stamps_of pages.value.items
            ≡ Self.stamps self.old) }
        ensures serials { IfOk result (λ pages. serials pages.value.items ≡ serials_taken
            (Self.bases self.old) (Self.given self.old)) }
        ensures bases { IfOk result (λ pages. Self.bases self.new ≡ map Some
            (serials pages.value.items)) }
        ensures given { IfOk result (λ _. Self.given self.new ≡ given_after (Self.bases self.old)
            (Self.given self.old)) }
        ensures same_bases { IsErr result → Self.bases self.new ≡ Self.bases self.old }
        ensures same_given { IsErr result → Self.given self.new ≡ Self.given self.old };

    /// Makes the store equal to these pages, which were taken of a store of as many words, with
    /// stamps or without as this one; each becomes the base of its place. Takes no memory.
    ///
    /// Serials tell pages of one store apart: pages of another store may have the same.
    fn load_pages(&mut self, pages: &Pages)
        requires words { length (words_of pages.now.value.items) ≡ length (Self.words self.old) }
        requires stamps { length (stamps_of pages.now.value.items) ≡ length (Self.stamps self.old) }
        ensures words { Self.words self.new ≡ words_of pages.now.value.items }
        ensures stamps { Self.stamps self.new ≡ stamps_of pages.now.value.items }
        ensures bases { Self.bases self.new ≡ map Some (serials pages.now.value.items) }
        ensures given { Self.given self.new ≡ Self.given self.old }
        ensures first_touches { Self.first_touches self.new ≡ Self.first_touches self.old }
        ensures log { Self.log self.new ≡ Self.log self.old };

    /// Whether the words are those of these pages, which were taken of a store of as many words.
    /// It doesn't compare their stamps.
    fn has_words(&self, pages: &Pages) -> bool
        requires { length (words_of pages.now.value.items) ≡ length (Self.words self.now) }
        ensures { (result ≡ true) ↔ (Self.words self.now ≡ words_of pages.now.value.items) };
}
