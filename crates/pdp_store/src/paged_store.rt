//! A store in flat arrays, with the base of each place of 256 words beside them.

ghost use Rattle.std.specs.Prelude.{◌≡◌, ◌<◌, ◌≤◌, ◌*◌, ◌/◌, ◌+◌, ◌↔◌, Some, None, length, map};
ghost use Rattle.std.specs.Prelude.{min, replicate, slice_get, slice_set, slice_index_or, true, []};
ghost use Rattle.std.specs.Prelude.{IfOk, OnErr, is_ok, if◌then◌else◌};
ghost use Rattle.pdp_store.specs.CycleLogs.{no_log};
ghost use Rattle.pdp_store.specs.Stored.{HasLastOfEachOrNone};
ghost use Rattle.pdp_store.specs.FirstTouches.{first_touches_before, touch_page};
ghost use Rattle.pdp_store.specs.Pages.{blank_paged, stamps_of, next_given, next_serial, serials};
ghost use Rattle.pdp_store.specs.Pages.{without_base, words_of};
ghost use Rattle.pdp_store.specs.Bases.{AreAllTaken, IsPageOf, given_there, serial_there};
ghost use Rattle.pdp_store.specs.Overlays.{stamps_over};
ghost use Rattle.pdp_store.specs.Pieces.{piece};

use crate::base::{Base, new_page};
use crate::overlay::{lay_over, put_places_over};
use crate::page::{PAGE_WORDS, Page};
use crate::page_runs::{have_words, piece_at, put_bases, put_stamps, put_words};
use crate::touches::StoreTouches;
use crate::{BusCycle, LastStamp, Paging, Stamp, Store};
use pdp_word::NoMemory;
use std::alloc::Global;
use std::marker::Model;
use std::rc::Rc;

/// A store of pages that keeps its words in one array and their stamps in another, so that a read
/// costs what it costs in [`Flat`](crate::Flat), and a write the mark of its place more. Taking
/// copies the places that were written since they were last taken or loaded; loading copies every
/// place.
#[derive(Drop)]
pub struct Paged {
    words: Vec<u16>,

    /// One stamp for each word; empty in a store without stamps.
    stamps: Vec<LastStamp>,

    /// The base of each place, which counts only if the place isn't marked as written since.
    bases: Vec<Base>,
    written: Vec<bool>,

    /// How many serials were given.
    given: u64,

    /// The first touch of each place.
    touches: StoreTouches,
}

impl Model for Paged {
    ghost use Rattle.std.specs.Prelude.{◌≡◌, length};
    ghost use Rattle.pdp_store.specs.Pages.{PagedStored};
    ghost use Rattle.pdp_store.specs.Bases.{AreFields, bases_of};

    ghost Value = { PagedStored };

    ghost view = { λ s. record {
      words = s.words.items;
      stamps = s.stamps.items;
      bases = bases_of s.written.items s.bases.items;
      given = s.given;
      first_touches = s.touches;
    } };

    ghost invariant = { λ s.
        AreFields s.words.items s.stamps.items s.bases.items s.written.items
        × (length s.touches ≡ length s.bases.items) };
}

impl Paged {
    /// A store of `len` words, a multiple of 256, each of them zero and none written yet; with
    /// stamps if `stamped`.
    ///
    /// Err(NoMemory) if memory was refused.
    pub fn new(alloc: Global, len: usize, stamped: bool) -> Result<Paged, NoMemory>
        requires { (len / 256) * 256 ≡ len }
        ensures { IfOk result (λ store. store ≡ blank_paged len stamped) }
    {
        let places = len / PAGE_WORDS;
        let words = vec![in alloc; 0; len]?;
        let stamps = no_stamps(alloc, len, stamped)?;
        let bases = no_bases(alloc, places)?;
        let written = vec![in alloc; true; places]?;
        let touches = StoreTouches::new(alloc, len)?;
        Ok(Paged {
            words,
            stamps,
            bases,
            written,
            given: 0,
            touches,
        })
    }
}

/// The stamps of a number of words that weren't written yet; none if not `stamped`.
///
/// Err(NoMemory) if memory was refused.
fn no_stamps(alloc: Global, len: usize, stamped: bool) -> Result<Vec<LastStamp>, NoMemory>
    ensures { IfOk result (λ stamps. stamps.items ≡ (if stamped then replicate len None else [])) }
{
    if stamped {
        Ok(vec![in alloc; LastStamp::none(); len]?)
    } else {
        Ok(Vec::new(alloc))
    }
}

/// So many bases, each to be marked, since there is no page of it.
///
/// Err(NoMemory) if memory was refused.
fn no_bases(alloc: Global, places: usize) -> Result<Vec<Base>, NoMemory>
    ensures { IfOk result (λ bases. length bases.items ≡ places) }
{
    let mut bases = Vec::with_capacity(alloc, places)?;
    for _ in 0..places {
        bases.push(Base::Numbered(0))?;
    }
    Ok(bases)
}

/// Makes the last stamp of word `i`, if there are stamps, equal to `last`.
#[inline(always)]
fn put_last(stamps: &mut Vec<LastStamp>, i: usize, last: LastStamp)
    ensures { stamps.new.items ≡ slice_set stamps.old.items i last }
{
    if let Some(stamp) = stamps.get_mut(i) {
        *stamp = last;
    }
}

impl Paged {
    /// Makes word `i` equal to `w`, and its last stamp, if the store has stamps, equal to `last`.
    #[inline(always)]
    fn replace(&mut self, i: usize, w: u16, last: LastStamp)
        requires { i < length self.old.words }
        ensures words { self.new.words ≡ slice_set self.old.words i w }
        ensures stamps { self.new.stamps ≡ slice_set self.old.stamps i last }
        ensures bases { self.new.bases ≡ without_base self.old.bases i }
        ensures given { self.new.given ≡ self.old.given }
        ensures first_touches { self.new.first_touches ≡ self.old.first_touches }
    {
        self.words[i] = w;
        self.written[i / PAGE_WORDS] = true;
        put_last(&mut self.stamps, i, last);
    }
}

impl Store for Paged {
    ghost words = { λ s. s.words };

    ghost stamps = { λ s. s.stamps };

    ghost first_touches = { λ s. s.first_touches };

    ghost log = { λ s. no_log };

    #[inline(always)]
    fn len(&self) -> usize {
        self.words.len()
    }

    #[inline(always)]
    fn read(&self, i: usize) -> u16 {
        self.words[i]
    }

    #[inline(always)]
    fn write(&mut self, i: usize, w: u16, stamp: Stamp)
        requires { i < length self.old.words }
        ensures words { self.new.words ≡ slice_set self.old.words i w }
        ensures stamps { self.new.stamps ≡ slice_set self.old.stamps i (Some stamp) }
        ensures bases { self.new.bases ≡ without_base self.old.bases i }
        ensures given { self.new.given ≡ self.old.given }
        ensures first_touches { self.new.first_touches ≡ self.old.first_touches }
    {
        self.replace(i, w, LastStamp::of(Some(stamp)));
    }

    #[inline(always)]
    fn last(&self, i: usize) -> Option<Stamp> {
        self.stamps.get(i)?.stamp()
    }

    #[inline(always)]
    fn set(&mut self, i: usize, w: u16)
        requires { i < length self.old.words }
        ensures words { self.new.words ≡ slice_set self.old.words i w }
        ensures stamps { self.new.stamps ≡ slice_set self.old.stamps i None }
        ensures bases { self.new.bases ≡ without_base self.old.bases i }
        ensures given { self.new.given ≡ self.old.given }
        ensures first_touches { self.new.first_touches ≡ self.old.first_touches }
    {
        self.replace(i, w, LastStamp::none());
    }

    #[inline(always)]
    fn touch(&mut self, i: usize, turn: u32)
        requires { i / 256 * 256 < length self.old.words }
        ensures words { self.new.words ≡ self.old.words }
        ensures stamps { self.new.stamps ≡ self.old.stamps }
        ensures first_touches { self.new.first_touches
            ≡ touch_page self.old.first_touches (i / 256) turn }
        ensures bases { self.new.bases ≡ self.old.bases }
        ensures given { self.new.given ≡ self.old.given }
    {
        self.touches.touch(i / PAGE_WORDS, turn);
    }

    fn first(&self, page: usize) -> Option<u32> {
        self.touches.first(page)
    }

    #[inline(always)]
    fn is_touched(&self, i: usize, turn: u32) -> bool {
        self.touches.is_touched(i / PAGE_WORDS, turn)
    }

    #[inline(always)]
    fn is_quiet_read(&self, i: usize, turn: u32) -> bool {
        self.touches.is_touched(i / PAGE_WORDS, turn)
    }

    fn forget(&mut self, turn: u32)
        ensures words { self.new.words ≡ self.old.words }
        ensures stamps { self.new.stamps ≡ self.old.stamps }
        ensures first_touches { self.new.first_touches
            ≡ first_touches_before turn self.old.first_touches }
        ensures bases { self.new.bases ≡ self.old.bases }
        ensures given { self.new.given ≡ self.old.given }
    {
        self.touches.forget(turn);
    }

    #[inline(always)]
    fn note(&mut self, _cycle: BusCycle) {}

    #[inline(always)]
    fn is_logging(&self) -> bool {
        false
    }
}

/// The serial that is given next, after `given` serials.
fn next_serial(given: u64) -> u64
    ensures { result ≡ next_serial given }
{
    given.checked_add(1).unwrap_or(0)
}

/// How many serials are given then.
fn next_given(given: u64) -> u64
    ensures { result ≡ next_given given }
{
    given.saturating_add(1)
}

/// Pages as they were taken, and how many serials are given with theirs.
#[derive(Drop)]
struct Taken {
    pages: Vec<Rc<Page>>,
    given: u64,
}

impl Paged {
    /// The page of this place, with `given` serials given before it: its base, or a new page if it
    /// has none.
    ///
    /// Err(NoMemory) if memory was refused.
    fn page_at(&self, alloc: Global, place: usize, given: u64) -> Result<Rc<Page>, NoMemory>
        requires { place * 256 < length self.now.words }
        ensures { IfOk result (λ page. IsPageOf page (piece place self.now.words)
            (piece place self.now.stamps) (serial_there (slice_index_or self.now.bases place None)
            given)) }
    {
        let words = piece_at(&self.words, place);
        let stamps = piece_at(&self.stamps, place);
        if self.written[place] {
            new_page(alloc, next_serial(given), words, stamps)
        } else {
            self.bases[place].page(alloc, words, stamps)
        }
    }

    /// How many serials are given with that of the page of this place, with `given` serials given
    /// before it.
    fn given_with(&self, place: usize, given: u64) -> u64
        requires { place * 256 < length self.now.words }
        ensures { result ≡ given_there (slice_index_or self.now.bases place None) given }
    {
        if self.written[place] {
            next_given(given)
        } else {
            given
        }
    }

    /// The page of every place, while the store stays as it is.
    ///
    /// Err(NoMemory) if memory was refused.
    fn pages(&self, alloc: Global) -> Result<Taken, NoMemory>
        ensures { IfOk result (λ taken. AreAllTaken taken.pages.items taken.given self.now) }
    {
        let places = self.bases.len();
        let mut pages = Vec::with_capacity(alloc, places)?;
        let mut given = self.given;
        for place in 0..places {
            pages.push(self.page_at(alloc, place, given)?)?;
            given = self.given_with(place, given);
        }
        Ok(Taken { pages, given })
    }
}

impl Paged {
    /// The words with their last stamps, as pages: each base is given again, and each other place
    /// as a new page under the next serial, which becomes its base. So only the words of places
    /// without a base are copied. The list is the caller's own.
    ///
    /// Err(NoMemory) if memory was refused, or a page has as many owners as can be counted; the
    /// store is then as before.
    pub fn take_pages(&mut self, alloc: Global) -> Result<Vec<Rc<Page>>, NoMemory>
        ensures words { self.new.words ≡ self.old.words }
        ensures stamps { self.new.stamps ≡ self.old.stamps }
        ensures first_touches { self.new.first_touches ≡ self.old.first_touches }
        ensures taken { IfOk result (λ pages. AreAllTaken pages.items self.new.given self.old) }
        ensures bases { IfOk result (λ pages. self.new.bases ≡ map Some (serials pages.items)) }
        ensures refused { OnErr result (self.new ≡ self.old) }
    {
        let Taken { pages, given } = self.pages(alloc)?;
        put_bases(&mut self.bases, &mut self.written, &pages);
        self.given = given;
        Ok(pages)
    }

    /// Makes the store equal to these pages, which were taken of a store of as many words, with
    /// stamps or without as this one; each becomes the base of its place. Takes no memory.
    ///
    /// Serials tell pages of one store apart: pages of another store may have the same.
    pub fn load_pages(&mut self, pages: &[Rc<Page>])
        requires words { length (words_of pages.now) ≡ length self.old.words }
        requires stamps { length (stamps_of pages.now) ≡ length self.old.stamps }
        ensures words { self.new.words ≡ words_of pages.now }
        ensures stamps { self.new.stamps ≡ stamps_of pages.now }
        ensures bases { self.new.bases ≡ map Some (serials pages.now) }
        ensures given { self.new.given ≡ self.old.given }
        ensures first_touches { self.new.first_touches ≡ self.old.first_touches }
    {
        put_words(&mut self.words, pages);
        put_stamps(&mut self.stamps, pages);
        put_bases(&mut self.bases, &mut self.written, pages);
    }
}

impl Paged {
    /// Makes the words equal to those of these pages, which were taken of a store of as many words,
    /// with stamps or without as this one. Of their last stamps those of turn `turn` and of later
    /// turns are laid over those that the store has. Takes no memory.
    ///
    /// A place whose words and stamps stay is left as it is, with its base. Otherwise its page
    /// becomes its base if the place then has the page's stamps.
    pub fn load_pages_over(&mut self, pages: &[Rc<Page>], turn: u32)
        requires words { length (words_of pages.now) ≡ length self.old.words }
        requires stamps { length (stamps_of pages.now) ≡ length self.old.stamps }
        ensures words { self.new.words ≡ words_of pages.now }
        ensures stamps { self.new.stamps
            ≡ stamps_over turn self.old.stamps (stamps_of pages.now) }
        ensures given { self.new.given ≡ self.old.given }
        ensures first_touches { self.new.first_touches ≡ self.old.first_touches }
    {
        put_places_over(
            &mut self.bases,
            &mut self.written,
            &mut self.words,
            &self.stamps,
            pages,
            turn,
        );
        lay_over(&mut self.stamps, pages, turn);
    }

    /// Whether the words are those of these pages, which were taken of a store of as many words.
    /// It doesn't compare their stamps.
    pub fn has_words(&self, pages: &[Rc<Page>]) -> bool
        requires { length (words_of pages.now) ≡ length self.now.words }
        ensures { (result ≡ true) ↔ (self.now.words ≡ words_of pages.now) }
    {
        have_words(&self.words, pages)
    }
}

impl Paging for Paged {
    ghost bases = { λ s. s.bases };

    ghost given = { λ s. s.given };

    fn patched(&mut self, alloc: Global, page: &Page, i: usize, w: u16) -> Result<Page, NoMemory> {
        let patched = page.changed(alloc, next_serial(self.given), i, w)?;
        self.given = next_given(self.given);
        Ok(patched)
    }

    fn touches(&self) -> &[u32] {
        self.touches.list()
    }

    fn lay_touches(&mut self, over: &[u32], from: u32, to: u32) {
        self.touches.lay_over(over, from, to);
    }

    fn has_touches_of(&self, over: &[u32], turn: u32) -> bool {
        self.touches.has_all_of(over, turn)
    }
}
