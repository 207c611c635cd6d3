//! The drives as shared pages: taken, and loaded again.

ghost use Rattle.std.specs.Prelude.{◌≡◌, ◌<◌, ◌↔◌, [], length, map, slice_index_or, slice_set};
ghost use Rattle.std.specs.Prelude.{true, IfOk};
ghost use Rattle.pdp_unibus.specs.PatchedPages.{IsNumberedBy, IsPageWith, given_by_core};
ghost use Rattle.pdp_unibus.specs.PatchedPages.{given_by_drives};
ghost use Rattle.pdp_unibus.specs.SavedDrives.{pages_stamps, pages_words};

use pdp_store::{Page, Pages, Paging, SharedPaging, page_with_word};
use pdp_word::NoMemory;
use std::alloc::Global;
use std::rc::Rc;

/// The pages of each drive, in the order of their numbers.
///
/// Err(NoMemory) if memory was refused; the words of the drives stay in any case.
#[tactic(auto, using(crate::proofs::SavedDrives::one_more))]
pub(crate) fn take_each<D: SharedPaging>(
    alloc: Global,
    drives: &mut Vec<D>,
) -> Result<Vec<Pages>, NoMemory>
    ensures same_words { map D.words drives.new.items ≡ map D.words drives.old.items }
    ensures same_stamps { map D.stamps drives.new.items ≡ map D.stamps drives.old.items }
    ensures first_touches { map D.first_touches drives.new.items
        ≡ map D.first_touches drives.old.items }
    ensures words { IfOk result (λ pages. map pages_words pages.items ≡ map D.words
        drives.old.items) }
    ensures stamps { IfOk result (λ pages. map pages_stamps pages.items ≡ map D.stamps
        drives.old.items) }
{
    let mut taken = Vec::with_capacity(alloc, drives.len())?;
    for number in 0..drives.len() {
        let pages = take_one(alloc, drives, number)?;
        taken.push(pages)?;
    }
    Ok(taken)
}

/// The pages of the drive of this number.
///
/// Err(NoMemory) if memory was refused; the words of the drives stay in any case.
#[tactic(auto, using(crate::proofs::SavedDrives::same_for_one, crate::proofs::SavedDrives::seen))]
fn take_one<D: SharedPaging>(
    alloc: Global,
    drives: &mut Vec<D>,
    number: usize,
) -> Result<Pages, NoMemory>
    requires { number < length drives.old.items }
    ensures count { length drives.new.items ≡ length drives.old.items }
    ensures same_words { map D.words drives.new.items ≡ map D.words drives.old.items }
    ensures same_stamps { map D.stamps drives.new.items ≡ map D.stamps drives.old.items }
    ensures first_touches { map D.first_touches drives.new.items
        ≡ map D.first_touches drives.old.items }
    ensures words { IfOk result (λ pages. pages_words pages ≡ slice_index_or
        (map D.words drives.old.items) number []) }
    ensures stamps { IfOk result (λ pages. pages_stamps pages ≡ slice_index_or
        (map D.stamps drives.old.items) number []) }
{
    drives[number].take_pages(alloc)
}

/// Loads each drive from the pages of its number. Takes no memory.
#[tactic(auto, using(crate::proofs::Rules::drive_loads))]
pub(crate) fn load_each<D: SharedPaging>(drives: &mut Vec<D>, pages: &Vec<Pages>)
    requires words { map length (map pages_words pages.now.items) ≡ map length
        (map D.words drives.old.items) }
    requires stamps { map length (map pages_stamps pages.now.items) ≡ map length
        (map D.stamps drives.old.items) }
    ensures words { map D.words drives.new.items ≡ map pages_words pages.now.items }
    ensures stamps { map D.stamps drives.new.items ≡ map pages_stamps pages.now.items }
    ensures first_touches { map D.first_touches drives.new.items
        ≡ map D.first_touches drives.old.items }
{
    for number in 0..drives.len() {
        load_one(drives, pages, number);
    }
}

/// Loads the drive of this number from the pages of this number. Takes no memory.
#[tactic(auto, using(crate::proofs::Rules::changed_drive))]
fn load_one<D: SharedPaging>(drives: &mut Vec<D>, pages: &Vec<Pages>, number: usize)
    requires within { number < length drives.old.items }
    requires there { number < length pages.now.items }
    requires words { length (slice_index_or (map pages_words pages.now.items) number []) ≡ length
        (slice_index_or (map D.words drives.old.items) number []) }
    requires stamps { length (slice_index_or (map pages_stamps pages.now.items) number []) ≡ length
        (slice_index_or (map D.stamps drives.old.items) number []) }
    ensures count { length drives.new.items ≡ length drives.old.items }
    ensures words { map D.words drives.new.items ≡ slice_set (map D.words drives.old.items) number
        (slice_index_or (map pages_words pages.now.items) number []) }
    ensures stamps { map D.stamps drives.new.items
        ≡ slice_set (map D.stamps drives.old.items) number
        (slice_index_or (map pages_stamps pages.now.items) number []) }
    ensures first_touches { map D.first_touches drives.new.items
        ≡ map D.first_touches drives.old.items }
{
    drives[number].load_pages(&pages[number]);
}

/// Whether the words of each drive are those of the pages of its number.
pub(crate) fn each_has_words<D: SharedPaging>(drives: &Vec<D>, pages: &Vec<Pages>) -> bool
    requires { map length (map pages_words pages.now.items) ≡ map length
        (map D.words drives.now.items) }
    ensures { (result ≡ true) ↔ (map D.words drives.now.items ≡ map pages_words pages.now.items) }
{
    for number in 0..drives.len() {
        if !one_has_words(drives, pages, number) {
            return false;
        }
    }
    true
}

/// Whether the words of the drive of this number are those of these pages of this number.
#[tactic(auto, using(crate::proofs::SavedDrives::seen))]
fn one_has_words<D: SharedPaging>(drives: &Vec<D>, pages: &Vec<Pages>, number: usize) -> bool
    requires within { number < length drives.now.items }
    requires there { number < length pages.now.items }
    requires words { length (slice_index_or (map pages_words pages.now.items) number []) ≡ length
        (slice_index_or (map D.words drives.now.items) number []) }
    ensures { (result ≡ true) ↔ (slice_index_or (map D.words drives.now.items) number []
        ≡ slice_index_or (map pages_words pages.now.items) number []) }
{
    drives[number].has_words(&pages[number])
}

/// The page of a word in these pages, which are those of the drive of this number, with the word
/// changed. The drive of this number here gives the serial of the page, and core if there is none.
///
/// Err(NoMemory) if memory was refused; the words of core and of the drives stay in any case.
#[tactic(auto, using(crate::proofs::Rules::numbered_pages))]
pub(crate) fn patch_one<S: Paging, D: Paging>(
    alloc: Global,
    core: &mut S,
    drives: &mut Vec<D>,
    number: usize,
    pages: &Pages,
    word: usize,
    value: u16,
) -> Result<Rc<Page>, NoMemory>
    requires there { word < length (pages_words pages.now) }
    requires unstamped { pages_stamps pages.now ≡ [] }
    ensures core_words { S.words core.new ≡ S.words core.old }
    ensures core_stamps { S.stamps core.new ≡ S.stamps core.old }
    ensures core_first_touches { S.first_touches core.new ≡ S.first_touches core.old }
    ensures drive_words { map D.words drives.new.items ≡ map D.words drives.old.items }
    ensures drive_first_touches { map D.first_touches drives.new.items
        ≡ map D.first_touches drives.old.items }
    ensures page { IfOk result (λ page. IsPageWith word value (pages_words pages.now) [] page) }
    ensures serial { IfOk result (λ page. IsNumberedBy number (S.given core.old)
        (map D.given drives.old.items) page) }
    ensures core_given { IfOk result (λ _. S.given core.new ≡ given_by_core number
        (S.given core.old) (map D.given drives.old.items)) }
    ensures drives_given { IfOk result (λ _. map D.given drives.new.items ≡ given_by_drives number
        (map D.given drives.old.items)) }
{
    if number < drives.len() {
        patch_by(alloc, drives, number, pages, word, value)
    } else {
        page_with_word(core, alloc, pages, word, value)
    }
}

// The same page; the drive of this number gives its serial.
//
// Err(NoMemory) as above.
#[tactic(auto, using(crate::proofs::Rules::numbered_drive))]
fn patch_by<D: Paging>(
    alloc: Global,
    drives: &mut Vec<D>,
    number: usize,
    pages: &Pages,
    word: usize,
    value: u16,
) -> Result<Rc<Page>, NoMemory>
    requires within { number < length drives.old.items }
    requires there { word < length (pages_words pages.now) }
    requires unstamped { pages_stamps pages.now ≡ [] }
    ensures drive_words { map D.words drives.new.items ≡ map D.words drives.old.items }
    ensures drive_first_touches { map D.first_touches drives.new.items
        ≡ map D.first_touches drives.old.items }
    ensures page { IfOk result (λ page. IsPageWith word value (pages_words pages.now) [] page) }
    ensures serial { IfOk result (λ page. IsNumberedBy number 0 (map D.given drives.old.items)
        page) }
    ensures given { IfOk result (λ _. map D.given drives.new.items ≡ given_by_drives number
        (map D.given drives.old.items)) }
{
    page_with_word(&mut drives[number], alloc, pages, word, value)
}
