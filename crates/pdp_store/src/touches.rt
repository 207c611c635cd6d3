//! First touches: for each page of a store, the first turn with an access to one of its words.

ghost use Rattle.std.specs.Prelude.{◌≡◌, ◌<◌, ◌/◌, ◌+◌, ◌↔◌, length, map, nat_le, replicate, true};
ghost use Rattle.std.specs.Prelude.{slice_index_or, IfOk};
ghost use Rattle.pdp_store.specs.FirstTouches.{first_before, first_touches_before, never};
ghost use Rattle.pdp_store.specs.FirstTouches.{first_turn, touch_page};
ghost use Rattle.pdp_store.specs.Overlays.{touch_over, touches_over};

use crate::page::PAGE_WORDS;
use pdp_word::NoMemory;
use std::alloc::Global;
use std::marker::Model;

/// The first touch of a page that was not touched: no turn has this number.
const NEVER: u32 = u32::MAX;

/// The first touch of each page of a store, 4 bytes a page.
#[derive(Drop)]
pub(crate) struct StoreTouches {
    first_touches: Vec<u32>,
}

impl Model for StoreTouches {
    ghost use Rattle.std.specs.Prelude.{List, ℕ};

    ghost Value = { List ℕ };

    ghost view = { λ t. t.first_touches.items };
}

impl StoreTouches {
    /// Makes the first touches of `len` words, none of them touched.
    ///
    /// Err(NoMemory) if memory was refused.
    pub(crate) fn new(alloc: Global, len: usize) -> Result<StoreTouches, NoMemory>
        ensures { IfOk result (λ touches. touches ≡ replicate ((len + 255) / 256) never) }
    {
        let first_touches = vec![in alloc; NEVER; len.div_ceil(PAGE_WORDS)]?;
        Ok(StoreTouches { first_touches })
    }

    /// Notes an access to page `page` in turn `turn`: the earlier turn stays.
    #[inline(always)]
    pub(crate) fn touch(&mut self, page: usize, turn: u32)
        requires { page < length self.old }
        ensures { self.new ≡ touch_page self.old page turn }
    {
        if turn < self.first_touches[page] {
            self.first_touches[page] = turn;
        }
    }

    /// As [`StoreTouches::touch`], for a page that may not be there; then nothing changes.
    #[inline(always)]
    pub(crate) fn touch_there(&mut self, page: usize, turn: u32)
        ensures { self.new ≡ touch_page self.old page turn }
    {
        if page < self.first_touches.len() {
            self.touch(page, turn);
        }
    }

    /// Returns the first touch of page `page`; `None` if it has none or is not there.
    pub(crate) fn first(&self, page: usize) -> Option<u32>
        ensures { result ≡ first_turn (slice_index_or self.now page never) }
    {
        let first = self.first_touches.get(page).copied().unwrap_or(NEVER);
        if first == NEVER { None } else { Some(first) }
    }

    /// Whether page `page` was touched in turn `turn` or before it.
    #[inline(always)]
    pub(crate) fn is_touched(&self, page: usize, turn: u32) -> bool
        requires { page < length self.now }
        ensures { result ≡ nat_le (slice_index_or self.now page never) turn }
    {
        self.first_touches[page] <= turn
    }

    /// As [`StoreTouches::is_touched`], for a page that may not be there; then it was not touched.
    #[inline(always)]
    pub(crate) fn is_touched_there(&self, page: usize, turn: u32) -> bool
        ensures { result ≡ nat_le (slice_index_or self.now page never) turn }
    {
        self.first_touches.get(page).copied().unwrap_or(NEVER) <= turn
    }

    /// Drops the first touches of turn `turn` and of later turns.
    pub(crate) fn forget(&mut self, turn: u32)
        ensures { self.new ≡ map (first_before turn) self.old }
    {
        for page in 0..self.first_touches.len() {
            self.first_touches[page] = kept_before(turn, self.first_touches[page]);
        }
    }

    /// Returns the first touch of each page, in the order of the pages; `u32::MAX` for a page that
    /// has none.
    pub(crate) fn list(&self) -> &[u32]
        ensures { result.now ≡ self.now }
    {
        &self.first_touches
    }

    /// Lays the first touches of another store of as many pages over these. A page that was touched
    /// before turn `from` here keeps its own first touch. Each other page gets the one of the
    /// other store, if that is before turn `to`, and otherwise none.
    pub(crate) fn lay_over(&mut self, over: &[u32], from: u32, to: u32)
        requires { length over.now ≡ length self.old }
        ensures { self.new ≡ touches_over from self.old (first_touches_before to over.now) }
    {
        lay_each(&mut self.first_touches, over, from, to);
    }

    /// Whether each page that was touched before turn `turn` in another store of as many pages was
    /// touched before it here too.
    pub(crate) fn has_all_of(&self, over: &[u32], turn: u32) -> bool
        requires { length over.now ≡ length self.now }
        ensures { (result ≡ true)
            ↔ (touches_over turn self.now (first_touches_before turn over.now) ≡ self.now) }
    {
        for page in 0..self.first_touches.len() {
            let first = self.first_touches[page];
            if touch_over(turn, first, kept_before(turn, over[page])) != first {
                return false;
            }
        }
        true
    }
}

/// Lays these first touches over others, as [`StoreTouches::lay_over`] does.
fn lay_each(firsts: &mut [u32], over: &[u32], from: u32, to: u32)
    requires { length over.now ≡ length firsts.old }
    ensures count { length firsts.new ≡ length firsts.old }
    ensures laid { firsts.new ≡ touches_over from firsts.old (first_touches_before to over.now) }
{
    for page in 0..firsts.len() {
        let over = kept_before(to, over[page]);
        firsts[page] = touch_over(from, firsts[page], over);
    }
}

/// Returns the first touch of a page if it is before turn `turn`, otherwise the one over it.
fn touch_over(turn: u32, under: u32, over: u32) -> u32
    ensures { result ≡ touch_over turn under over }
{
    if under < turn { under } else { over }
}

/// Returns a first touch if it is before turn `turn`, otherwise the one of an untouched page.
fn kept_before(turn: u32, first: u32) -> u32
    ensures { result ≡ first_before turn first }
{
    if first < turn { first } else { NEVER }
}
