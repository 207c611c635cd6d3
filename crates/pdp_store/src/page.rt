//! Pages: 256 words with their last stamps, which several stores and states may share.

ghost use Rattle.std.specs.Prelude.{◌≡◌, ◌<◌, length, slice_set, IfOk};
ghost use Rattle.pdp_store.specs.Overlays.{latest_turn};

use crate::LastStamp;
use crate::overlay::latest_turn;
use pdp_word::NoMemory;
use std::alloc::Global;
use std::rc::Rc;

/// How many words a page has.
pub const PAGE_WORDS: usize = 256;

/// A list of shared pages, itself shared: the words of a drive, 256 at each place.
pub type Pages = Rc<Vec<Rc<Page>>>;

/// 256 words with their last stamps, as a store had them at a place when they were taken.
#[derive(Drop)]
pub struct Page {
    /// The number that the store gave it when it was made: from 1 up, each number once; 0 if they
    /// were used up.
    pub serial: u64,
    pub words: Vec<u16>,
    /// One stamp for each word; none, if the store is without stamps. The pages that are made of
    /// this one with a word changed share them.
    pub stamps: Rc<Vec<LastStamp>>,
    /// The greatest turn of these stamps; 0 if there are none.
    pub latest: u32,
    ghost full: { length words.items ≡ 256 },
    ghost stamped: { 0 < length stamps.value.items → length stamps.value.items ≡ 256 },
    ghost late: { latest ≡ latest_turn stamps.value.items },
}

impl Page {
    /// A page of these words and these stamps under this serial.
    ///
    /// Err(NoMemory) if memory was refused.
    pub(crate) fn copied(
        alloc: Global,
        serial: u64,
        words: &[u16],
        stamps: &[LastStamp],
    ) -> Result<Page, NoMemory>
        requires full { length words.now ≡ 256 }
        requires stamped { 0 < length stamps.now → length stamps.now ≡ 256 }
        ensures serial { IfOk result (λ page. page.serial ≡ serial) }
        ensures words { IfOk result (λ page. page.words.items ≡ words.now) }
        ensures stamps { IfOk result (λ page. page.stamps.value.items ≡ stamps.now) }
    {
        let latest = latest_turn(stamps);
        let words = words.to_vec(alloc)?;
        let stamps = Rc::new(alloc, stamps.to_vec(alloc)?)?;
        Ok(Page {
            serial,
            words,
            stamps,
            latest,
        })
    }

    /// The page with its word `i` (0 to 255) changed to `w`, its stamps shared, under this serial.
    ///
    /// Err(NoMemory) if memory was refused, or if the stamps have as many owners as can be counted.
    pub(crate) fn changed(
        &self,
        alloc: Global,
        serial: u64,
        i: usize,
        w: u16,
    ) -> Result<Page, NoMemory>
        requires { i < 256 }
        ensures serial { IfOk result (λ page. page.serial ≡ serial) }
        ensures words { IfOk result (λ page. page.words.items
            ≡ slice_set self.now.words.items i w) }
        ensures stamps { IfOk result (λ page. page.stamps.value.items
            ≡ self.now.stamps.value.items) }
    {
        let mut words = self.words.to_vec(alloc)?;
        words[i] = w;
        let stamps = self.stamps.clone()?;
        Ok(Page {
            serial,
            words,
            stamps,
            latest: self.latest,
        })
    }
}
