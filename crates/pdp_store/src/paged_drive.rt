//! A store for a drive: read through shared pages, and from words of its own once a place was
//! written.

ghost use Rattle.std.specs.Prelude.{◌≡◌, ◌<◌, ◌≤◌, ◌+◌, ◌*◌, ◌/◌, ◌%◌, [], None, length, slice_get};
ghost use Rattle.std.specs.Prelude.{slice_set, IfOk, false};
ghost use Rattle.pdp_store.specs.Pages.{blank_drive, blank_words, next_given, next_serial};
ghost use Rattle.pdp_store.specs.Pages.{without_base};
ghost use Rattle.pdp_store.specs.declared.paged_drive.Backing.TheVariants.{Shared};
ghost use Rattle.pdp_store.specs.DriveBackings.{AreZeros, own_with_copy, with_part};
ghost use Rattle.pdp_store.specs.CycleLogs.{no_log};
ghost use Rattle.pdp_store.specs.FirstTouches.{first_touches_before, touch_page};

use crate::base::new_page;
use crate::touches::StoreTouches;
use crate::{BusCycle, PAGE_WORDS, Page, Pages, Paging, Stamp, Store};
use pdp_word::NoMemory;
use std::alloc::Global;
use std::marker::Model;
use std::rc::Rc;

mod shared_pages;

/// What the words of a place are read from.
#[derive(Clone, Copy, Drop)]
enum Backing {
    /// Its page of the list.
    Shared,

    /// The drive's own words; it has no base.
    Written,

    /// The drive's own words, which are those of the base of this serial.
    Copied(u64),
}

/// A store without stamps which reads each place of 256 words from a page that it shares, until a
/// word there is written.
///
/// So to load pages is to share their list, whose words stay where they are.
#[derive(Drop)]
pub struct PagedDrive {
    /// The pages last taken or loaded.
    pages: Pages,

    backings: Vec<Backing>,

    /// The words of each place that isn't shared, and what was there before of each place that is.
    own: Vec<u16>,

    /// How many serials were given.
    given: u64,

    /// Whether some place may not be shared.
    changed: bool,

    /// The first touch of each place.
    touches: StoreTouches,
}

impl Model for PagedDrive {
    ghost use Rattle.std.specs.Prelude.{[]};
    ghost use Rattle.pdp_store.specs.Pages.{PagedWords};

    ghost Value = { PagedWords };

    ghost use Rattle.pdp_store.specs.DriveBackings.{AreDriveFields, bases_held, words_read};

    ghost view = { λ s. record {
      words = words_read s.pages.value.items s.backings.items s.own.items;
      bases = bases_held s.pages.value.items s.backings.items;
      given = s.given;
      first_touches = s.touches;
    } };

    ghost invariant = { λ s. AreDriveFields s.pages.value.items s.backings.items s.own.items s.given
        s.changed };
}

impl PagedDrive {
    /// A drive of `len` words, a whole number of pages: all zero, and nothing taken or loaded.
    ///
    /// Err(NoMemory) if memory was refused.
    pub fn new(alloc: Global, len: usize) -> Result<PagedDrive, NoMemory>
        requires { (len / 256) * 256 ≡ len }
        ensures { IfOk result (λ drive. drive ≡ blank_words len) }
    {
        let list = Vec::new(alloc);
        let pages = Rc::new(alloc, list)?;
        let backings = vec![in alloc; Backing::Written; len / PAGE_WORDS]?;
        let own = vec![in alloc; 0; len]?;
        let touches = StoreTouches::new(alloc, len)?;
        Ok(PagedDrive {
            pages,
            backings,
            own,
            given: 0,
            changed: true,
            touches,
        })
    }

    /// Makes a drive of `len` zero words; `len` is a whole number of pages.
    ///
    /// Each place reads one page of zeros, which all of them own. So the drive takes memory for
    /// that page, for the list of its owners, for the words of its own that a write needs, and for
    /// the first touches of its places. Pages that are taken of the drive share the list.
    ///
    /// Err(NoMemory) if memory was refused, or if the page would have more owners than can be
    /// counted.
    pub fn blank(alloc: Global, len: usize) -> Result<PagedDrive, NoMemory>
        requires { (len / 256) * 256 ≡ len }
        ensures { IfOk result (λ drive. drive ≡ blank_drive len) }
    {
        let list = zero_pages(alloc, len / PAGE_WORDS)?;
        let pages = Rc::new(alloc, list)?;
        let backings = vec![in alloc; Backing::Shared; len / PAGE_WORDS]?;
        let own = vec![in alloc; 0; len]?;
        let touches = StoreTouches::new(alloc, len)?;
        Ok(PagedDrive {
            pages,
            backings,
            own,
            given: 1,
            changed: false,
            touches,
        })
    }
}

/// `count` owners of one page of zeros, which has the first serial. Err(NoMemory) as above.
fn zero_pages(alloc: Global, count: usize) -> Result<Vec<Rc<Page>>, NoMemory>
    ensures { IfOk result (λ pages. AreZeros count pages.items) }
{
    let page = new_page(alloc, next_serial(0), &[0; PAGE_WORDS], &[])?;
    let mut pages = Vec::with_capacity(alloc, count)?;
    for _ in 0..count {
        pages.push(page.clone()?)?;
    }
    Ok(pages)
}

impl Store for PagedDrive {
    ghost words = { λ s. s.words };

    ghost stamps = { λ s. [] };

    ghost first_touches = { λ s. s.first_touches };

    ghost log = { λ s. no_log };

    #[inline(always)]
    fn len(&self) -> usize {
        self.own.len()
    }

    #[inline(always)]
    fn read(&self, i: usize) -> u16 {
        let place = i / PAGE_WORDS;
        match self.backings[place] {
            Backing::Shared => self.pages[place].words[i % PAGE_WORDS],
            _ => self.own[i],
        }
    }

    #[inline(always)]
    fn write(&mut self, i: usize, w: u16, _stamp: Stamp)
        requires { i < length self.old.words }
        ensures words { self.new.words ≡ slice_set self.old.words i w }
        ensures bases { self.new.bases ≡ without_base self.old.bases i }
        ensures given { self.new.given ≡ self.old.given }
        ensures first_touches { self.new.first_touches ≡ self.old.first_touches }
    {
        self.replace(i, w);
    }

    #[inline(always)]
    fn last(&self, i: usize) -> Option<Stamp> {
        // This read gives the prover the range of the field.
        let _given = self.given;
        None
    }

    #[inline(always)]
    fn set(&mut self, i: usize, w: u16)
        requires { i < length self.old.words }
        ensures words { self.new.words ≡ slice_set self.old.words i w }
        ensures bases { self.new.bases ≡ without_base self.old.bases i }
        ensures given { self.new.given ≡ self.old.given }
        ensures first_touches { self.new.first_touches ≡ self.old.first_touches }
    {
        self.replace(i, w);
    }

    #[inline(always)]
    fn touch(&mut self, i: usize, turn: u32)
        requires { i / 256 * 256 < length self.old.words }
        ensures words { self.new.words ≡ self.old.words }
        ensures first_touches { self.new.first_touches
            ≡ touch_page self.old.first_touches (i / 256) turn }
        ensures bases { self.new.bases ≡ self.old.bases }
        ensures given { self.new.given ≡ self.old.given }
    {
        self.touches.touch_there(i / PAGE_WORDS, turn);
    }

    fn first(&self, page: usize) -> Option<u32> {
        self.touches.first(page)
    }

    #[inline(always)]
    fn is_touched(&self, i: usize, turn: u32) -> bool {
        self.touches.is_touched_there(i / PAGE_WORDS, turn)
    }

    #[inline(always)]
    fn is_quiet_read(&self, i: usize, turn: u32) -> bool {
        self.touches.is_touched_there(i / PAGE_WORDS, turn)
    }

    fn forget(&mut self, turn: u32)
        ensures words { self.new.words ≡ self.old.words }
        ensures first_touches { self.new.first_touches
            ≡ first_touches_before turn self.old.first_touches }
        ensures bases { self.new.bases ≡ self.old.bases }
        ensures given { self.new.given ≡ self.old.given }
    {
        self.touches.forget(turn);
    }

    #[inline(always)]
    fn note(&mut self, _cycle: BusCycle) {}

    #[inline(always)]
    fn is_logging(&self) -> bool {
        false
    }
}

impl PagedDrive {
    /// Makes word `i` equal to `w`, in words of the drive's own.
    #[inline(always)]
    fn replace(&mut self, i: usize, w: u16)
        requires { i < length self.old.words }
        ensures words { self.new.words ≡ slice_set self.old.words i w }
        ensures bases { self.new.bases ≡ without_base self.old.bases i }
        ensures given { self.new.given ≡ self.old.given }
        ensures first_touches { self.new.first_touches ≡ self.old.first_touches }
    {
        let place = i / PAGE_WORDS;
        let held = self.backings[place];
        unshare(&mut self.own, place, held, &self.pages);
        self.backings[place] = Backing::Written;
        self.changed = true;
        self.own[i] = w;
    }
}

/// Copies the words of this place from its page into `own`, if it is shared.
#[inline(always)]
fn unshare(own: &mut Vec<u16>, place: usize, held: Backing, pages: &[Rc<Page>])
    requires shared { held ≡ Shared → place < length pages.now }
    requires place { place * 256 + 256 ≤ length own.old.items }
    ensures { own.new.items ≡ own_with_copy held (slice_get pages.now place) place own.old.items }
{
    if let Backing::Shared = held {
        put_part(own, place, &pages[place].words);
    }
}

/// Puts the words of a page into this place of `own`.
#[cold]
#[inline(never)]
fn put_part(own: &mut Vec<u16>, place: usize, part: &[u16])
    requires part { length part.now ≡ 256 }
    requires place { place * 256 + 256 ≤ length own.old.items }
    ensures { own.new.items ≡ with_part place part.now own.old.items }
{
    let from = place * PAGE_WORDS;
    own[from..from + PAGE_WORDS].copy_from_slice(part);
}

impl Paging for PagedDrive {
    ghost bases = { λ s. s.bases };

    ghost given = { λ s. s.given };

    fn patched(&mut self, alloc: Global, page: &Page, i: usize, w: u16) -> Result<Page, NoMemory> {
        let patched = page.changed(alloc, next_serial(self.given), i, w)?;
        self.given = next_given(self.given);
        Ok(patched)
    }

    fn touches(&self) -> &[u32] {
        self.touches.list()
    }

    fn lay_touches(&mut self, over: &[u32], from: u32, to: u32) {
        self.touches.lay_over(over, from, to);
    }

    fn has_touches_of(&self, over: &[u32], turn: u32) -> bool {
        self.touches.has_all_of(over, turn)
    }
}

/// The serial that is given next, after `given` serials.
fn next_serial(given: u64) -> u64
    ensures { result ≡ next_serial given }
{
    if given < u64::MAX { given + 1 } else { 0 }
}

/// How many are given then.
fn next_given(given: u64) -> u64
    ensures { result ≡ next_given given }
{
    given.saturating_add(1)
}
