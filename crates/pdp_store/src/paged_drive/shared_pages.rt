//! The pages of a drive: taken of it, loaded into it, and compared with its words.

ghost use Rattle.std.specs.Prelude.{◌≡◌, ◌<◌, ◌≤◌, ◌+◌, ◌*◌, ◌/◌, [], Some, None, length, map};
ghost use Rattle.std.specs.Prelude.{slice_index_or, replicate, IfOk, IfSome, false};
ghost use Rattle.pdp_store.specs.Pages.{next_given, next_serial, stamps_of, words_of};
ghost use Rattle.pdp_store.specs.declared.paged_drive.Backing.TheVariants.{Shared};
ghost use Rattle.pdp_store.specs.DriveBackings.{AreTaken, base_from, copied_from, drive_from_pages};
ghost use Rattle.pdp_store.specs.Bases.{IsPageOf, given_there, serial_there};
ghost use Rattle.pdp_store.specs.Pieces.{piece};

use super::{Backing, PagedDrive, next_given, next_serial, put_part};
use crate::base::new_page;
use crate::page_runs::{are_same_words, words_in};
use crate::{PAGE_WORDS, Page, Pages, SharedPaging};
use pdp_word::NoMemory;
use std::alloc::Global;
use std::rc::Rc;

impl SharedPaging for PagedDrive {
    fn take_pages(&mut self, alloc: Global) -> Result<Pages, NoMemory> {
        if let Some(pages) = self.kept() {
            return Ok(pages);
        }
        let (list, given) = self.listed(alloc)?;
        let pages = Rc::new(alloc, list)?;
        let kept = pages.clone()?;
        self.renew(kept, given);
        Ok(pages)
    }

    fn load_pages(&mut self, pages: &Pages) {
        let given = self.given;
        match pages.clone() {
            Ok(pages) => self.renew(pages, given),
            Err(_) => self.copy_all(pages),
        }
    }

    fn has_words(&self, pages: &Pages) -> bool {
        for place in 0..self.count() {
            if !are_same_words(self.words_at(place), words_in(&pages[place])) {
                return false;
            }
        }
        true
    }
}

impl PagedDrive {
    /// How many places there are.
    fn count(&self) -> usize
        ensures bases { result ≡ length self.now.bases }
        ensures words { result * 256 ≡ length self.now.words }
    {
        // This read gives the prover the length of the words of its own.
        let _own = self.own.len();
        self.backings.len()
    }

    /// The list of the pages, if each place is read from it; None too if it has as many owners as
    /// can be counted.
    fn kept(&self) -> Option<Pages>
        ensures kept { IfSome result (λ pages. self.now ≡ drive_from_pages pages.value.items
            self.now.given self.now.first_touches) }
        ensures stamps { IfSome result (λ pages. stamps_of pages.value.items ≡ []) }
    {
        if self.changed {
            return None;
        }
        match self.pages.clone() {
            Ok(pages) => Some(pages),
            Err(_) => None,
        }
    }

    /// The places as pages, and how many serials are given then.
    ///
    /// Err(NoMemory) if memory was refused.
    fn listed(&self, alloc: Global) -> Result<(Vec<Rc<Page>>, u64), NoMemory>
        ensures { IfOk result (λ taken. AreTaken taken.0.items taken.1 self.now.words self.now.bases
            self.now.given) }
    {
        let mut list = Vec::new(alloc);
        let mut given = self.given;
        for place in 0..self.count() {
            let page = self.page_of(alloc, place, given)?;
            given = self.given_past(place, given);
            list.push(page)?;
        }
        Ok((list, given))
    }

    /// A place as a page: its own if it is shared, else a new one.
    ///
    /// Err(NoMemory) if memory was refused.
    fn page_of(&self, alloc: Global, place: usize, given: u64) -> Result<Rc<Page>, NoMemory>
        requires { place < length self.now.bases }
        ensures { IfOk result (λ page. IsPageOf page (piece place self.now.words) [] (serial_there
            (slice_index_or self.now.bases place None) given)) }
    {
        let held = self.backings[place];
        if let Backing::Shared = held {
            let page = self.pages[place].clone()?;
            return Ok(page);
        }
        new_page(alloc, serial_for(held, given), part(&self.own, place), &[])
    }

    /// The words of this place.
    fn words_at(&self, place: usize) -> &[u16]
        requires { place < length self.now.bases }
        ensures { result.now ≡ piece place self.now.words }
    {
        if let Backing::Shared = self.backings[place] {
            return &self.pages[place].words;
        }
        part(&self.own, place)
    }

    /// How many serials are given after this place, with `given` serials given before it.
    fn given_past(&self, place: usize, given: u64) -> u64
        requires { place < length self.now.bases }
        ensures { result ≡ given_there (slice_index_or self.now.bases place None) given }
    {
        match self.backings[place] {
            Backing::Written => next_given(given),
            _ => given,
        }
    }

    /// Reads each place from this list from now on.
    fn renew(&mut self, pages: Pages, given: u64)
        requires words { length (words_of pages.value.items) ≡ length self.old.words }
        requires stamps { stamps_of pages.value.items ≡ [] }
        ensures { self.new ≡ drive_from_pages pages.value.items given self.old.first_touches }
    {
        share_all(&mut self.backings, self.changed);
        self.pages = pages;
        self.given = given;
        self.changed = false;
    }
}

/// The words of this place.
fn part(words: &[u16], place: usize) -> &[u16]
    requires { place * 256 + 256 ≤ length words.now }
    ensures { result.now ≡ piece place words.now }
{
    let start = place * PAGE_WORDS;
    &words[start..start + PAGE_WORDS]
}

/// Makes each place shared, if some may not be.
fn share_all(backings: &mut Vec<Backing>, changed: bool)
    requires { changed ≡ false → backings.old.items ≡ replicate (length backings.old.items) Shared }
    ensures { backings.new.items ≡ replicate (length backings.old.items) Shared }
{
    if changed {
        backings.fill(Backing::Shared);
    }
}

/// The serial of the page that is made of a place that isn't shared.
fn serial_for(held: Backing, given: u64) -> u64
    ensures { result ≡ serial_there (base_from held None) given }
{
    match held {
        Backing::Copied(serial) => serial,
        _ => next_serial(given),
    }
}

impl PagedDrive {
    /// Makes the words equal to those of these pages, in words of the drive's own.
    #[cold]
    fn copy_all(&mut self, pages: &[Rc<Page>])
        requires words { length (words_of pages.now) ≡ length self.old.words }
        requires stamps { stamps_of pages.now ≡ [] }
        ensures { self.new ≡ drive_from_pages pages.now self.old.given self.old.first_touches }
    {
        // This read gives the prover the range of the field.
        let _given = self.given;
        self.changed = true;
        copy_each(&mut self.own, &mut self.backings, pages);
    }
}

/// Copies the words and the serials of these pages.
fn copy_each(own: &mut Vec<u16>, backings: &mut Vec<Backing>, pages: &[Rc<Page>])
    requires own { length own.old.items ≡ length pages.now * 256 }
    requires backings { length backings.old.items ≡ length pages.now }
    ensures own { own.new.items ≡ words_of pages.now }
    ensures backings { backings.new.items ≡ map copied_from pages.now }
{
    for place in 0..pages.len() {
        let page = &pages[place];
        put_part(own, place, &page.words);
        backings[place] = Backing::Copied(page.serial);
    }
}
