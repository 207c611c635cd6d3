//! Lists of pages, and the one page that is put into several of them.

ghost use Rattle.std.specs.Prelude.{◌≡◌, ◌<◌, ◌/◌, ◌%◌, length, slice_set, IfOk};
ghost use Rattle.pdp_store.specs.Bases.{IsPageOf};
ghost use Rattle.pdp_store.specs.PageLists.{pages_shared};
ghost use Rattle.pdp_store.specs.Pages.{stamps_of, next_given, next_serial, words_of};
ghost use Rattle.pdp_store.specs.Pieces.{piece};
ghost use Rattle.pdp_store.specs.Stored.{HasLastOfEachOrNone};

use crate::page::{PAGE_WORDS, Page, Pages};
use crate::paging::Paging;
use pdp_word::NoMemory;
use std::alloc::Global;
use std::rc::Rc;

/// The page of word `i`, counted from 0 over all these pages, with that word changed to `w`. It has
/// the next serial of the store, and the stamps of the page as it was.
///
/// # Errors
///
/// `NoMemory` if memory was refused. The words, last stamps, first touches and bases of the store
/// stay in any case.
pub fn page_with_word<S: Paging>(
    store: &mut S,
    alloc: Global,
    pages: &[Rc<Page>],
    i: usize,
    w: u16,
) -> Result<Rc<Page>, NoMemory>
    requires there { i < length (words_of pages.now) }
    requires stamped { HasLastOfEachOrNone (words_of pages.now) (stamps_of pages.now) }
    ensures words { S.words store.new ≡ S.words store.old }
    ensures stamps { S.stamps store.new ≡ S.stamps store.old }
    ensures first_touches { S.first_touches store.new ≡ S.first_touches store.old }
    ensures bases { S.bases store.new ≡ S.bases store.old }
    ensures given { IfOk result (λ _. S.given store.new ≡ next_given (S.given store.old)) }
    ensures page { IfOk result (λ page. IsPageOf page
        (slice_set (piece (i / 256) (words_of pages.now)) (i % 256) w)
        (piece (i / 256) (stamps_of pages.now)) (next_serial (S.given store.old))) }
{
    let page = store.patched(alloc, &pages[i / PAGE_WORDS], i % PAGE_WORDS, w)?;
    Ok(Rc::new(alloc, page)?)
}

/// These pages with this one at a place. All other pages are shared.
///
/// # Errors
///
/// `NoMemory` if memory was refused, or if a page has as many owners as can be counted.
pub fn with_page(
    alloc: Global,
    pages: &Pages,
    place: usize,
    page: &Rc<Page>,
) -> Result<Pages, NoMemory>
    requires { place < length pages.now.value.items }
    ensures { IfOk result (λ list. pages_shared list.value.items
        ≡ slice_set (pages_shared pages.now.value.items) place page.now.value) }
{
    let page = page.clone()?;
    let list = list_with_page(alloc, pages, place, page)?;
    Ok(Rc::new(alloc, list)?)
}

/// The list of these pages with this one at a place.
///
/// Err(NoMemory) as above.
fn list_with_page(
    alloc: Global,
    pages: &[Rc<Page>],
    place: usize,
    page: Rc<Page>,
) -> Result<Vec<Rc<Page>>, NoMemory>
    requires { place < length pages.now }
    ensures { IfOk result (λ list. pages_shared list.items
        ≡ slice_set (pages_shared pages.now) place page.value) }
{
    let mut list = shared(alloc, pages)?;
    list[place] = page;
    Ok(list)
}

/// These pages once more.
///
/// Err(NoMemory) as above.
fn shared(alloc: Global, pages: &[Rc<Page>]) -> Result<Vec<Rc<Page>>, NoMemory>
    ensures { IfOk result (λ list. pages_shared list.items ≡ pages_shared pages.now) }
{
    let mut list = Vec::with_capacity(alloc, pages.len())?;
    for page in pages {
        list.push(page.clone()?)?;
    }
    Ok(list)
}
