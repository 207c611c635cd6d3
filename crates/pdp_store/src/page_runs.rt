//! Pages in a row, and the arrays that they are taken from and put into.

ghost use Rattle.std.specs.Prelude.{◌≡◌, ◌<◌, ◌≤◌, ◌+◌, ◌*◌, ◌↔◌, drop, length, take, true};
ghost use Rattle.pdp_store.specs.Bases.{AreBases};
ghost use Rattle.pdp_store.specs.Pages.{stamps_of, page_stamps, page_words, words_of};
ghost use Rattle.pdp_store.specs.Pieces.{piece, with_items_at};

use crate::LastStamp;
use crate::base::Base;
use crate::page::{PAGE_WORDS, Page};
use std::rc::Rc;

/// The 256 items at this place, or none, if there are none at all.
pub(crate) fn piece_at<T>(items: &[T], place: usize) -> &[T]
    requires { 0 < length items.now → place * 256 + 256 ≤ length items.now }
    ensures piece { result.now ≡ piece place items.now }
    ensures count { 0 < length items.now → length result.now ≡ 256 }
    ensures none { 0 < length result.now → 0 < length items.now }
{
    if items.is_empty() {
        return items;
    }
    let start = place * PAGE_WORDS;
    &items[start..start + PAGE_WORDS]
}

/// Puts the words of these pages, one page after the other, in place of the words that are there.
#[tactic(auto, unfolding(crate::specs::Pages::words_of), using(crate::proofs::Rules::item_runs))]
pub(crate) fn put_words(words: &mut [u16], pages: &[Rc<Page>])
    requires { length (words_of pages.now) ≡ length words.old }
    ensures { words.new ≡ words_of pages.now }
{
    let mut at = 0;
    for page in pages {
        at = put_at(words, at, words_in(page));
    }
}

/// Puts the last stamps of these pages, one page after the other, in place of the stamps that are
/// there.
#[tactic(auto, unfolding(crate::specs::Pages::stamps_of), using(crate::proofs::Rules::item_runs))]
pub(crate) fn put_stamps(stamps: &mut [LastStamp], pages: &[Rc<Page>])
    requires { length (stamps_of pages.now) ≡ length stamps.old }
    ensures { stamps.new ≡ stamps_of pages.now }
{
    let mut at = 0;
    for page in pages {
        at = put_at(stamps, at, stamps_in(page));
    }
}

/// The words of a page.
#[inline(always)]
pub(crate) fn words_in(page: &Rc<Page>) -> &[u16]
    ensures { result.now ≡ page_words page.now }
{
    &page.words
}

/// The last stamps of a page.
#[inline(always)]
pub(crate) fn stamps_in(page: &Rc<Page>) -> &[LastStamp]
    ensures { result.now ≡ page_stamps page.now }
{
    &page.stamps
}

/// Puts these items in place of as many from item `at` on, and returns where they end.
fn put_at<T: Copy>(items: &mut [T], at: usize, part: &[T]) -> usize
    requires { at + length part.now ≤ length items.old }
    ensures items { items.new ≡ with_items_at at part.now items.old }
    ensures end { result ≡ at + length part.now }
{
    let end = at + part.len();
    items[at..end].copy_from_slice(part);
    end
}

/// Puts these items in place of as many from item `at` on, unless they are there, and returns where
/// they end.
#[inline(always)]
pub(crate) fn put_unless<T: Copy>(are_there: bool, items: &mut [T], at: usize, part: &[T]) -> usize
    requires room { at + length part.now ≤ length items.old }
    requires same { are_there ≡ true → take (length part.now) (drop at items.old) ≡ part.now }
    ensures items { items.new ≡ with_items_at at part.now items.old }
    ensures end { result ≡ at + length part.now }
{
    if are_there {
        return at + part.len();
    }
    put_at(items, at, part)
}

/// Makes each page the base of its place, and takes its mark away.
pub(crate) fn put_bases(bases: &mut Vec<Base>, written: &mut Vec<bool>, pages: &[Rc<Page>])
    requires bases { length bases.old.items ≡ length pages.now }
    requires written { length written.old.items ≡ length pages.now }
    ensures { AreBases pages.now bases.new.items written.new.items }
{
    for place in 0..pages.len() {
        bases[place] = Base::of(&pages[place]);
        written[place] = false;
    }
}

/// Whether these are the words of these pages.
pub(crate) fn have_words(words: &[u16], pages: &[Rc<Page>]) -> bool
    requires { length (words_of pages.now) ≡ length words.now }
    ensures { (result ≡ true) ↔ (words.now ≡ words_of pages.now) }
{
    for place in 0..pages.len() {
        if !are_same_words(piece_at(words, place), words_in(&pages[place])) {
            return false;
        }
    }
    true
}

/// Whether two runs of words are the same. It has no exit before the end: so it takes several words
/// at a time.
pub(crate) fn are_same_words(some: &[u16], others: &[u16]) -> bool
    ensures { (result ≡ true) ↔ (some.now ≡ others.now) }
{
    if some.len() != others.len() {
        return false;
    }
    let mut same = true;
    for k in 0..some.len() {
        same &= some[k] == others[k];
    }
    same
}
