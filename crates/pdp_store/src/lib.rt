//! Stores: lists of 16-bit words, each with the stamp of the last write to it; the first touch of
//! each page of 256 words; and shared pages of such words. Core is a store, and so is each drive.
//! It stands on pdp_word.
//!
//! # What is proved
//!
//! - A store is its list of words with the stamp of the last write to each, and with the first
//!   touch of each page ([`Store`]); [`Flat`] keeps that contract in three arrays.
//! - The first touch of a page is the least turn of its touches that were not forgotten
//!   ([`Store::touch`], [`Store::first`], [`Store::is_touched`], [`Store::forget`]). A new store
//!   has none. Only `touch` and `forget` change first touches: writes, takes, loads and patches
//!   leave them.
//! - What is taken of a store as pages of 256 words ([`Page`]) is its words with their stamps. A
//!   load, which needs no memory, makes the store equal to the pages ([`Paged::take_pages`],
//!   [`SharedPaging`]).
//! - A place has as its base the page last taken or loaded there, until a word there is written,
//!   and is taken again under its serial. Each other place is taken under a serial that was not
//!   given before, no two of them the same, while there are serials enough
//!   (`serials_are_given_once`).
//! - Pages can be loaded so that their last stamps of some turn and of later turns are laid over
//!   those of the store ([`Paged::load_pages_over`], `overlays_are_flat`). A store says whether it
//!   has the words of pages, exactly ([`Paged::has_words`], [`SharedPaging::has_words`]).
//! - A store can keep a log of the processor's bus cycles beside its words ([`Store::note`],
//!   [`Logging`], [`CycleLog`]): all, or the reads at one address, while there is room. [`Flat`],
//!   [`Paged`] and [`PagedDrive`] keep none. A store says of a read whether it would change nothing
//!   ([`Store::is_quiet_read`]).
//! - The stamps that a trace of accesses leaves are those of its last writes
//!   (`traces_leave_last_writes`).
//! - A page with one word changed has the next serial and keeps its stamps (`page_with_word`). It
//!   is put into a list of pages at one place, and every other page stays (`with_page`).
//!
//! [`Paged`], for core, keeps its words in flat arrays; [`PagedDrive`], for drives, reads a place
//! from its page until a word there is written.
//!
//! No contract says that pages are really shared, or how much memory they take: `bench/kept`
//! measures it. Addresses, which turn and agent a stamp names, and which accesses touch are left to
//! pdp_unibus and pdp_rk11.
#![tactic(auto)]

ghost use Rattle.std.specs.Prelude.{◌≡◌, ◌<◌, ◌*◌, ◌/◌, length, map, nat_le, slice_index};
ghost use Rattle.std.specs.Prelude.{◌&&◌, not, slice_index_or, slice_set, nat_lt};
ghost use Rattle.pdp_store.specs.Stored.{HasLastOfEachOrNone};
ghost use Rattle.pdp_store.specs.CycleLogs.{log_with};
ghost use Rattle.pdp_store.specs.FirstTouches.{first_touches_before, never, first_turn, touch_page};

mod base;
mod cycle_log;
mod flat_store;
mod last_stamp;
mod laws;
mod logging;
mod overlay;
mod page;
mod page_lists;
mod page_runs;
mod paged_drive;
mod paged_store;
mod paging;
mod part;
mod touches;

pub use cycle_log::{BusCycle, CycleKind, CycleLog};
pub use flat_store::Flat;
pub use last_stamp::LastStamp;
pub use laws::{overlays_are_flat, serials_are_given_once, traces_leave_last_writes};
pub use logging::Logging;
pub use page::{PAGE_WORDS, Page, Pages};
pub use page_lists::{page_with_word, with_page};
pub use paged_drive::PagedDrive;
pub use paged_store::Paged;
pub use paging::{Paging, SharedPaging};
pub use part::{Part, WordAt};

/// Who made an access to a word: the processor, or the disk in a transfer of its own.
#[derive(Clone, Copy, Debug, PartialEq, Eq)]
pub enum Agent {
    Cpu,
    Disk,
}

/// When a word was last written, and by whom.
#[derive(Clone, Copy, Debug, PartialEq, Eq)]
pub struct Stamp {
    /// The turn in which it was written, counted from 0 at power-up.
    pub turn: u32,
    pub agent: Agent,
}

/// A list of 16-bit words, with the stamp of the last write to each.
///
/// Words are numbered from 0 up: word i of core memory is the one at byte address 2i. The number of
/// words never changes. A store is made with stamps (core memory) or without (a drive); one without
/// answers `None` to [`Store::last`] always. Stamps: [6.28] [6.97].
///
/// Words stand in pages of 256, numbered from 0 up: word i is in page i / 256. A store keeps the
/// first touch of each page, which is the first turn with an access to one of its words. The caller
/// reports each access by [`Store::touch`]; a read or a write by itself touches nothing.
///
/// No call fails or takes memory. The caller keeps each index below [`Store::len`], except in
/// [`Store::touch`] and [`Store::first`].
pub trait Store {
    ghost use Rattle.std.specs.Prelude.{List, ℕ, Option};
    ghost use Rattle.pdp_store.specs.declared.Stamp.{Stamp};
    ghost use Rattle.pdp_store.specs.CycleLogs.{KeptCycles};

    // The words, in order.
    ghost words: { Self → List ℕ };

    // The last stamp of each word, or nothing at all if the store is without stamps.
    ghost stamps: { Self → List (Option Stamp) };

    // The first touch of each page, or `never`.
    ghost first_touches: { Self → List ℕ };

    // The log of bus cycles that is kept beside the words.
    ghost log: { Self → KeptCycles };

    /// How many words there are.
    fn len(&self) -> usize
        ensures words { result ≡ length (words self.now) }
        ensures stamps { HasLastOfEachOrNone (words self.now) (stamps self.now) };

    /// Word `i`.
    fn read(&self, i: usize) -> u16
        requires { i < length (words self.now) }
        ensures { result ≡ slice_index (words self.now) i };

    /// Makes word `i` equal to `w`, and, if the store has stamps, gives the word this stamp.
    fn write(&mut self, i: usize, w: u16, stamp: Stamp)
        requires { i < length (words self.old) }
        ensures words { words self.new ≡ slice_set (words self.old) i w }
        ensures stamps { stamps self.new ≡ slice_set (stamps self.old) i (Some stamp) }
        ensures first_touches { first_touches self.new ≡ first_touches self.old }
        ensures log { log self.new ≡ log self.old };

    /// The stamp of the last `write` of word `i`. `None` if there was none since the store was made
    /// or since the last `set` of the word, and if the store is without stamps.
    fn last(&self, i: usize) -> Option<Stamp>
        requires { i < length (words self.now) }
        ensures { result ≡ slice_index_or (stamps self.now) i None };

    /// Makes word `i` equal to `w` and takes its stamp away: for what an image or a patch puts
    /// there, which is no write of the machine, and for what the disk writes to a drive, which has
    /// no stamps.
    fn set(&mut self, i: usize, w: u16)
        requires { i < length (words self.old) }
        ensures words { words self.new ≡ slice_set (words self.old) i w }
        ensures stamps { stamps self.new ≡ slice_set (stamps self.old) i None }
        ensures first_touches { first_touches self.new ≡ first_touches self.old }
        ensures log { log self.new ≡ log self.old };

    /// Notes an access to word `i` in turn `turn`. The page of the word keeps the earlier of `turn`
    /// and its first touch.
    ///
    /// The store must have the first word of that page; word `i` itself may be past the last one.
    /// So the end of a page that is cut off can be touched. Turn `u32::MAX` stands for no turn.
    fn touch(&mut self, i: usize, turn: u32)
        requires { i / 256 * 256 < length (words self.old) }
        ensures words { words self.new ≡ words self.old }
        ensures stamps { stamps self.new ≡ stamps self.old }
        ensures first_touches { first_touches self.new
            ≡ touch_page (first_touches self.old) (i / 256) turn }
        ensures log { log self.new ≡ log self.old };

    /// Returns the first touch of page `page`. `None` if it has none, if every touch of it was
    /// forgotten, and if the store has no such page.
    fn first(&self, page: usize) -> Option<u32>
        ensures { result ≡ first_turn (slice_index_or (first_touches self.now) page never) };

    /// Whether the page of word `i` was touched in turn `turn` or before it, so that a touch in
    /// that turn would change nothing.
    fn is_touched(&self, i: usize, turn: u32) -> bool
        requires { i < length (words self.now) }
        ensures { result ≡ nat_le (slice_index_or (first_touches self.now) (i / 256) never) turn };

    /// Whether a read of word `i` in turn `turn`, with its touch and its note in the log, would
    /// change nothing: the log has no room, and the page of the word was touched in that turn or
    /// before it.
    fn is_quiet_read(&self, i: usize, turn: u32) -> bool
        requires { i < length (words self.now) }
        ensures { result ≡ (not (nat_lt 0 (log self.now).room)
            && nat_le (slice_index_or (first_touches self.now) (i / 256) never) turn) };

    /// Drops the first touches of turn `turn` and of later turns; earlier ones stay.
    fn forget(&mut self, turn: u32)
        ensures words { words self.new ≡ words self.old }
        ensures stamps { stamps self.new ≡ stamps self.old }
        ensures first_touches { first_touches self.new
            ≡ first_touches_before turn (first_touches self.old) }
        ensures log { log self.new ≡ log self.old };

    /// Puts a bus cycle of the processor into the log, if the log keeps such cycles and has room.
    fn note(&mut self, cycle: BusCycle)
        ensures words { words self.new ≡ words self.old }
        ensures stamps { stamps self.new ≡ stamps self.old }
        ensures first_touches { first_touches self.new ≡ first_touches self.old }
        ensures log { log self.new ≡ log_with cycle (log self.old) };

    /// Whether the log has room at all, so that it may keep a cycle.
    fn is_logging(&self) -> bool
        ensures { result ≡ nat_lt 0 (log self.now).room };
}
