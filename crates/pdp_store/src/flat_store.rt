//! A store in two arrays: the words, and their stamps if there are any.

ghost use Rattle.std.specs.Prelude.{◌≡◌, ◌<◌, length, IfOk};
ghost use Rattle.pdp_store.specs.CycleLogs.{no_log};
ghost use Rattle.pdp_store.specs.Stored.{blank_store, with_word};

use crate::page::PAGE_WORDS;
use crate::touches::StoreTouches;
use crate::{BusCycle, LastStamp, Stamp, Store};
use pdp_word::NoMemory;
use std::alloc::Global;
use std::marker::Model;

/// A store that keeps its words in one array and their stamps in another, so that a read or a write
/// is an index and takes no memory.
#[derive(Drop)]
pub struct Flat {
    words: Vec<u16>,

    /// One stamp for each word; empty in a store without stamps.
    stamps: Vec<LastStamp>,

    /// The first touch of each page of 256 words; the last page may have fewer.
    touches: StoreTouches,
}

impl Model for Flat {
    ghost use Rattle.pdp_store.specs.Stored.{Stored, HasLastOfEachOrNone};

    ghost Value = { Stored };

    ghost view = { λ s. record {
      words = s.words.items;
      stamps = s.stamps.items;
      first_touches = s.touches;
    } };

    ghost invariant = { λ s. HasLastOfEachOrNone s.words.items s.stamps.items };
}

impl Flat {
    /// A store of `len` words, each of them zero and none written yet; with stamps if `stamped`.
    ///
    /// [`NoMemory`] only if memory for the words or for the stamps was refused.
    pub fn new(alloc: Global, len: usize, stamped: bool) -> Result<Flat, NoMemory>
        ensures { IfOk result (λ store. store ≡ blank_store len stamped) }
    {
        let words = vec![in alloc; 0; len]?;
        let stamps = if stamped {
            vec![in alloc; LastStamp::none(); len]?
        } else {
            Vec::new(alloc)
        };
        let touches = StoreTouches::new(alloc, len)?;
        Ok(Flat {
            words,
            stamps,
            touches,
        })
    }

    /// Makes word `i` equal to `w`, and its last stamp, if the store has stamps, equal to `last`.
    #[inline(always)]
    fn replace(&mut self, i: usize, w: u16, last: LastStamp)
        requires { i < length self.old.words }
        ensures { self.new ≡ with_word self.old i w last }
    {
        self.words[i] = w;
        if let Some(stamp) = self.stamps.get_mut(i) {
            *stamp = last;
        }
    }
}

impl Store for Flat {
    ghost words = { λ s. s.words };

    ghost stamps = { λ s. s.stamps };

    ghost first_touches = { λ s. s.first_touches };

    ghost log = { λ s. no_log };

    #[inline(always)]
    fn len(&self) -> usize {
        self.words.len()
    }

    #[inline(always)]
    fn read(&self, i: usize) -> u16 {
        self.words[i]
    }

    #[inline(always)]
    fn write(&mut self, i: usize, w: u16, stamp: Stamp) {
        self.replace(i, w, LastStamp::of(Some(stamp)));
    }

    #[inline(always)]
    fn last(&self, i: usize) -> Option<Stamp> {
        self.stamps.get(i)?.stamp()
    }

    #[inline(always)]
    fn set(&mut self, i: usize, w: u16) {
        self.replace(i, w, LastStamp::none());
    }

    #[inline(always)]
    fn touch(&mut self, i: usize, turn: u32) {
        self.touches.touch_there(i / PAGE_WORDS, turn);
    }

    fn first(&self, page: usize) -> Option<u32> {
        self.touches.first(page)
    }

    #[inline(always)]
    fn is_touched(&self, i: usize, turn: u32) -> bool {
        self.touches.is_touched_there(i / PAGE_WORDS, turn)
    }

    #[inline(always)]
    fn is_quiet_read(&self, i: usize, turn: u32) -> bool {
        self.touches.is_touched_there(i / PAGE_WORDS, turn)
    }

    fn forget(&mut self, turn: u32) {
        self.touches.forget(turn);
    }

    #[inline(always)]
    fn note(&mut self, _cycle: BusCycle) {}

    #[inline(always)]
    fn is_logging(&self) -> bool {
        false
    }
}
