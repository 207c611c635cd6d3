//! Stamps of pages laid over those that a store has, from a turn on.

ghost use Rattle.std.specs.Prelude.{◌≡◌, ◌+◌, ◌<◌, ◌≤◌, List, None, Option, length, true, ℕ};
ghost use Rattle.std.specs.Prelude.{slice_index_or, slice_set};
ghost use Rattle.pdp_store.specs.declared.Stamp.{Stamp};
ghost use Rattle.pdp_store.specs.Bases.{AreFields};
ghost use Rattle.pdp_store.specs.Overlays.{laid_to, later_turn, latest_turn, stamp_over};
ghost use Rattle.pdp_store.specs.Overlays.{stamps_over};
ghost use Rattle.pdp_store.specs.Pages.{page_stamps, page_words, stamps_of, words_of};

use crate::LastStamp;
use crate::base::Base;
use crate::page::{PAGE_WORDS, Page};
use crate::page_runs::{are_same_words, piece_at, put_unless, stamps_in, words_in};
use std::rc::Rc;

/// A last stamp of this turn or a later one; otherwise the one under it.
fn stamp_over(turn: u32, under: LastStamp, over: LastStamp) -> LastStamp
    ensures { result ≡ stamp_over turn under over }
{
    match over.stamp() {
        Some(stamp) => if turn <= stamp.turn { over } else { under },
        None => under,
    }
}

/// The greatest turn of these last stamps; 0 if there are none.
pub(crate) fn latest_turn(stamps: &[LastStamp]) -> u32
    ensures { result ≡ latest_turn stamps.now }
{
    let mut latest = 0;
    for last in stamps {
        latest = later_turn(latest, *last);
    }
    latest
}

/// The later of this turn and that of a last stamp.
#[inline(always)]
fn later_turn(latest: u32, last: LastStamp) -> u32
    ensures { result ≡ later_turn latest last }
{
    match last.stamp() {
        Some(stamp) => latest.max(stamp.turn),
        None => latest,
    }
}

/// Lays the last stamps of these pages over those that are there.
#[tactic(auto, unfolding(crate::specs::Pages::stamps_of))]
pub(crate) fn lay_over(stamps: &mut [LastStamp], pages: &[Rc<Page>], turn: u32)
    requires { length (stamps_of pages.now) ≡ length stamps.old }
    ensures { stamps.new ≡ stamps_over turn stamps.old (stamps_of pages.now) }
{
    let mut at = 0;
    for page in pages {
        at = lay_page(stamps, at, page, turn);
    }
}

/// Lays the last stamps of a page over those from word `start` on, and returns where they end. It
/// doesn't look at stamps that are all of earlier turns.
fn lay_page(stamps: &mut [LastStamp], start: usize, page: &Rc<Page>, turn: u32) -> usize
    requires { start + length (page_stamps page.now) ≤ length stamps.old }
    ensures end { result ≡ start + length (page_stamps page.now) }
    ensures laid { (under all : List (Option Stamp)) → length all ≡ length under
        → ((k : ℕ) → k < length (page_stamps page.now)
        → slice_index_or all (start + k) None ≡ slice_index_or (page_stamps page.now) k None)
        → stamps.old ≡ laid_to start turn under all
        → stamps.new ≡ laid_to (start + length (page_stamps page.now)) turn under all }
{
    let over = stamps_in(page);
    if page.latest < turn {
        return start + over.len();
    }
    lay_each(stamps, start, over, turn)
}

/// Lays these last stamps over those from word `start` on, and returns where they end.
fn lay_each(stamps: &mut [LastStamp], start: usize, over: &[LastStamp], turn: u32) -> usize
    requires { start + length over.now ≤ length stamps.old }
    ensures end { result ≡ start + length over.now }
    ensures laid { (under all : List (Option Stamp)) → length all ≡ length under
        → ((k : ℕ) → k < length over.now
        → slice_index_or all (start + k) None ≡ slice_index_or over.now k None)
        → stamps.old ≡ laid_to start turn under all
        → stamps.new ≡ laid_to (start + length over.now) turn under all }
{
    for k in 0..over.len() {
        lay_one(stamps, start + k, over[k], turn);
    }
    start + over.len()
}

/// Lays a last stamp over that of word `i`.
#[inline(always)]
fn lay_one(stamps: &mut [LastStamp], i: usize, over: LastStamp, turn: u32)
    requires { i < length stamps.old }
    ensures { stamps.new ≡ slice_set stamps.old i
        (stamp_over turn (slice_index_or stamps.old i None) over) }
{
    if let Some(stamp) = over.stamp() {
        if turn <= stamp.turn {
            stamps[i] = over;
        }
    }
}

/// Makes the words those of these pages, and the bases those that fit them, with the pages' last
/// stamps laid over these. It is called before the stamps are changed.
///
/// A place whose words and stamps stay is left as it is. At each other place the page becomes the
/// base if the place will have the page's stamps; if not, the place is marked as written since.
#[tactic(auto, unfolding(crate::specs::Pages::words_of), using(crate::proofs::Rules::item_runs))]
pub(crate) fn put_places_over(
    bases: &mut Vec<Base>,
    written: &mut Vec<bool>,
    words: &mut [u16],
    stamps: &[LastStamp],
    pages: &[Rc<Page>],
    turn: u32,
)
    requires fields { AreFields words.old stamps.now bases.old.items written.old.items }
    requires words { length (words_of pages.now) ≡ length words.old }
    requires stamps { length (stamps_of pages.now) ≡ length stamps.now }
    ensures words { words.new ≡ words_of pages.now }
    ensures fields { AreFields (words_of pages.now)
        (stamps_over turn stamps.now (stamps_of pages.now)) bases.new.items written.new.items }
{
    let mut at = 0;
    for place in 0..pages.len() {
        let page = &pages[place];
        let under = piece_at(stamps, place);
        let stays = keeps_base(written[place], turn, piece_at(words, place), under, page);
        at = put_unless(stays, words, at, words_in(page));
        if stays {
            continue;
        }
        written[place] = !is_laid(turn, under, stamps_in(page), stamps_in(page));
        bases[place] = Base::of(page);
    }
}

/// Whether a place isn't marked as written and keeps these words and stamps, if this page is loaded
/// over it.
fn keeps_base(
    is_written: bool,
    turn: u32,
    words: &[u16],
    under: &[LastStamp],
    page: &Rc<Page>,
) -> bool
    requires { length (page_stamps page.now) ≡ length under.now }
    ensures words { result ≡ true → words.now ≡ page_words page.now }
    ensures stamps { result ≡ true → stamps_over turn under.now (page_stamps page.now) ≡ under.now }
{
    !is_written && are_same_words(words, words_in(page)) && is_page_hidden(turn, under, page)
}

/// Whether the stamps stay if those of this page are laid over them.
fn is_page_hidden(turn: u32, under: &[LastStamp], page: &Rc<Page>) -> bool
    requires { length (page_stamps page.now) ≡ length under.now }
    ensures { result ≡ true → stamps_over turn under.now (page_stamps page.now) ≡ under.now }
{
    page.latest < turn || are_hidden(turn, under, stamps_in(page))
}

/// Whether the stamps stay if these are laid over them.
fn are_hidden(turn: u32, under: &[LastStamp], over: &[LastStamp]) -> bool
    requires { length over.now ≡ length under.now }
    ensures { result ≡ true → stamps_over turn under.now over.now ≡ under.now }
{
    for k in 0..under.len() {
        if !is_hidden(turn, under[k], over[k]) {
            return false;
        }
    }
    true
}

/// Whether a last stamp stays if this one is laid over it.
#[inline(always)]
fn is_hidden(turn: u32, under: LastStamp, over: LastStamp) -> bool
    ensures { result ≡ true → stamp_over turn under over ≡ under }
{
    match over.stamp() {
        None => true,
        Some(stamp) => stamp.turn < turn || over.is_same(under),
    }
}

/// Whether the stamps laid over those under them come to these.
fn is_laid(turn: u32, under: &[LastStamp], over: &[LastStamp], these: &[LastStamp]) -> bool
    requires over { length over.now ≡ length under.now }
    requires these { length these.now ≡ length under.now }
    ensures { result ≡ true → stamps_over turn under.now over.now ≡ these.now }
{
    for k in 0..under.len() {
        if !stamp_over(turn, under[k], over[k]).is_same(these[k]) {
            return false;
        }
    }
    true
}
