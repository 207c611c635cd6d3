//! Bases: what a store keeps of the page last taken or loaded at a place.

ghost use Rattle.std.specs.Prelude.{◌≡◌, ◌<◌, length, IfOk};
ghost use Rattle.pdp_store.specs.Bases.{Holds, IsBaseOf, IsPageOf, serial_of};

use crate::LastStamp;
use crate::page::Page;
use pdp_word::NoMemory;
use std::alloc::Global;
use std::rc::Rc;

/// The page last taken or loaded at a place.
#[derive(Drop)]
pub(crate) enum Base {
    /// The page itself.
    Shared(Rc<Page>),
    /// Its serial alone, if it has as many owners as can be counted.
    Numbered(u64),
}

impl Base {
    /// A base made of this page.
    pub(crate) fn of(page: &Rc<Page>) -> Base
        ensures { IsBaseOf result page.now }
    {
        match page.clone() {
            Ok(owner) => Base::Shared(owner),
            Err(_) => Base::Numbered(page.serial),
        }
    }

    /// The serial of the page.
    pub(crate) fn serial(&self) -> u64
        ensures { result ≡ serial_of self.now }
    {
        match self {
            Base::Shared(page) => page.serial,
            Base::Numbered(serial) => *serial,
        }
    }

    /// The page, for a place of these words and stamps: itself if it is here and can be shared, or
    /// made again.
    ///
    /// Err(NoMemory) if memory was refused.
    pub(crate) fn page(
        &self,
        alloc: Global,
        words: &[u16],
        stamps: &[LastStamp],
    ) -> Result<Rc<Page>, NoMemory>
        requires full { length words.now ≡ 256 }
        requires stamped { 0 < length stamps.now → length stamps.now ≡ 256 }
        requires held { Holds self.now words.now stamps.now }
        ensures { IfOk result (λ page. IsPageOf page words.now stamps.now (serial_of self.now)) }
    {
        if let Base::Shared(page) = self
            && let Ok(owner) = page.clone()
        {
            return Ok(owner);
        }
        new_page(alloc, self.serial(), words, stamps)
    }
}

/// A page of these words and these stamps under this serial.
///
/// Err(NoMemory) if memory was refused.
pub(crate) fn new_page(
    alloc: Global,
    serial: u64,
    words: &[u16],
    stamps: &[LastStamp],
) -> Result<Rc<Page>, NoMemory>
    requires full { length words.now ≡ 256 }
    requires stamped { 0 < length stamps.now → length stamps.now ≡ 256 }
    ensures { IfOk result (λ page. IsPageOf page words.now stamps.now serial) }
{
    let page = Page::copied(alloc, serial, words, stamps)?;
    Ok(Rc::new(alloc, page)?)
}
