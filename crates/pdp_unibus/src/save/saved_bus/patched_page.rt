//! One page with a word changed, which many saved buses share.

ghost use Rattle.std.specs.Prelude.{◌≡◌, ◌<◌, [], length, map, slice_index_or, IfOk};
ghost use Rattle.pdp_store.specs.Pages.{next_given, next_serial, page_serial};
ghost use Rattle.pdp_store.specs.Parts.{words_of_drive};
ghost use Rattle.pdp_store.specs.Unchanged.{SameStored};
ghost use Rattle.pdp_store.specs.declared.part.Part.TheVariants.{Drive};
ghost use Rattle.pdp_unibus.specs.SavedBusData.{SavedBusHasWord, saved_bus_with_word, saved_words};
ghost use Rattle.pdp_unibus.specs.PatchedPages.{AreNewPages, IsNewList, IsNewPage, IsNumberedBy};
ghost use Rattle.pdp_unibus.specs.PatchedPages.{IsPageWith, IsPatchIn, IsPatchOf, given_by_core};
ghost use Rattle.pdp_unibus.specs.PatchedPages.{given_by_drives, saved_stamps};

use super::SavedBus;
use crate::bus::Bus;
use crate::save::saved_drives::patch_one;
use pdp_store::{
    PAGE_WORDS, Page, Paged, PagedDrive, Pages, Part, WordAt, page_with_word, with_page,
};
use pdp_word::NoMemory;
use std::alloc::Global;
use std::rc::Rc;

/// A page of 256 words with one word changed. All saved buses that have the page alike can share
/// it.
#[derive(Drop)]
pub struct PatchedPage {
    /// The word that is changed.
    pub at: WordAt,
    /// What it is changed to.
    pub value: u16,
    /// The page of the word, with this value in it.
    pub page: Rc<Page>,
}

/// What takes the place of a page in one saved bus.
#[derive(Drop)]
pub enum NewPages {
    /// The page itself, for core.
    Core(Rc<Page>),
    /// For the drive of this number, from 0: the list of its pages with the new one in it.
    Drive(usize, Pages),
}

impl SavedBus {
    /// The page of a word, with this value in the word. Its stamps are kept.
    ///
    /// The bus numbers the page, and stays as a contract sees it: its value has no serials.
    ///
    /// # Errors
    ///
    /// `NoMemory` if memory was refused.
    #[tactic(auto, unfolding(crate::specs::SavedBusData::SavedBusHasWord))]
    pub fn patched_page(
        &self,
        alloc: Global,
        bus: &mut Bus<Paged, PagedDrive>,
        at: WordAt,
        value: u16,
    ) -> Result<PatchedPage, NoMemory>
        requires { SavedBusHasWord at self.now }
        ensures same { bus.new ≡ bus.old }
        ensures patch { IfOk result (λ page. IsPatchOf at value page) }
        ensures page { IfOk result (λ page. IsPatchIn self.now page) }
    {
        let page = self.page_with(alloc, bus, at, value)?;
        Ok(PatchedPage { at, value, page })
    }

    // The page of a word, with this value in the word.
    //
    // Err(NoMemory) as above.
    #[tactic(auto, unfolding(crate::specs::SavedBusData::SavedBusHasWord))]
    fn page_with(
        &self,
        alloc: Global,
        bus: &mut Bus<Paged, PagedDrive>,
        at: WordAt,
        value: u16,
    ) -> Result<Rc<Page>, NoMemory>
        requires { SavedBusHasWord at self.now }
        ensures same { bus.new ≡ bus.old }
        ensures page { IfOk result (λ page. IsPageWith at.number value
            (saved_words at.part self.now) (saved_stamps at.part self.now) page) }
    {
        match at.part {
            Part::Core => self.page_of_core(alloc, &mut bus.core, at.number, value),
            Part::Drive(number) => {
                let (number, drives) = (usize::from(number), &mut bus.drives);
                self.page_of_drive(alloc, &mut bus.core, drives, number, at.number, value)
            }
        }
    }

    // The page of a word of core, under the next serial of core.
    //
    // Err(NoMemory) as above.
    fn page_of_core(
        &self,
        alloc: Global,
        core: &mut Paged,
        word: usize,
        value: u16,
    ) -> Result<Rc<Page>, NoMemory>
        requires { word < length self.now.core }
        ensures same { SameStored core.new.words core.old.words core.new.stamps core.old.stamps
            core.new.first_touches core.old.first_touches }
        ensures page { IfOk result (λ page. IsPageWith word value self.now.core self.now.stamps
            page) }
        ensures serial { IfOk result (λ page. page_serial page ≡ next_serial core.old.given) }
        ensures given { IfOk result (λ _. core.new.given ≡ next_given core.old.given) }
    {
        page_with_word(core, alloc, &self.core, word, value)
    }

    // The page of a word of the drive of this number, which the drive of this number here numbers,
    // and core if there is none.
    //
    // Err(NoMemory) as above.
    fn page_of_drive(
        &self,
        alloc: Global,
        core: &mut Paged,
        drives: &mut Vec<PagedDrive>,
        number: usize,
        word: usize,
        value: u16,
    ) -> Result<Rc<Page>, NoMemory>
        requires { word < length (words_of_drive self.now.drives number) }
        ensures core { SameStored core.new.words core.old.words core.new.stamps core.old.stamps
            core.new.first_touches core.old.first_touches }
        ensures drive_words { map (λ d. d.words) drives.new.items ≡ map (λ d. d.words)
            drives.old.items }
        ensures drive_first_touches { map (λ d. d.first_touches) drives.new.items
            ≡ map (λ d. d.first_touches)
            drives.old.items }
        ensures page { IfOk result (λ page. IsPageWith word value
            (words_of_drive self.now.drives number) [] page) }
        ensures serial { IfOk result (λ page. IsNumberedBy number core.old.given
            (map (λ d. d.given) drives.old.items) page) }
        ensures core_given { IfOk result (λ _. core.new.given ≡ given_by_core number core.old.given
            (map (λ d. d.given) drives.old.items)) }
        ensures drives_given { IfOk result (λ _. map (λ d. d.given) drives.new.items
            ≡ given_by_drives number (map (λ d. d.given) drives.old.items)) }
    {
        let pages = &self.drives[number];
        patch_one(alloc, core, drives, number, pages, word, value)
    }

    /// What takes the place of the page that was patched here: all the memory that `put_pages`
    /// needs.
    ///
    /// # Errors
    ///
    /// `NoMemory` if memory was refused, or if pages have as many owners as can be counted.
    #[tactic(auto, unfolding(crate::specs::PatchedPages::AreNewPages))]
    pub fn new_pages(&self, alloc: Global, page: &PatchedPage) -> Result<NewPages, NoMemory>
        requires { IsPatchIn self.now page.now }
        ensures { IfOk result (λ new. AreNewPages page.now self.now new) }
    {
        match page.at.part {
            Part::Core => Ok(NewPages::Core(page.page.clone()?)),
            Part::Drive(number) => self.pages_of_drive(alloc, usize::from(number), page),
        }
    }

    // The list of pages of the drive of this number, with the patched page in it.
    //
    // Err(NoMemory) as above.
    fn pages_of_drive(
        &self,
        alloc: Global,
        number: usize,
        page: &PatchedPage,
    ) -> Result<NewPages, NoMemory>
        requires part { page.now.at.part ≡ Drive number }
        requires page { IsPatchIn self.now page.now }
        ensures { IfOk result (λ new. AreNewPages page.now self.now new) }
    {
        let place = page.at.number / PAGE_WORDS;
        let pages = with_page(alloc, &self.drives[number], place, &page.page)?;
        Ok(NewPages::Drive(number, pages))
    }

    /// Puts the pages that were made for it in place of its own. The saved bus is the same then,
    /// except for the word of the patched page. It takes no memory.
    #[tactic(auto, unfolding(crate::specs::PatchedPages::AreNewPages))]
    pub fn put_pages(&mut self, page: &PatchedPage, new: NewPages)
        requires { AreNewPages page.now self.old new }
        ensures { self.new ≡ saved_bus_with_word page.now.at page.now.value self.old }
    {
        match new {
            NewPages::Core(shared) => self.put_page_of_core(page, shared),
            NewPages::Drive(number, pages) => self.put_list_of_drive(number, page, pages),
        }
    }

    // Puts the patched page in place of the page of core.
    #[tactic(auto, unfolding(crate::specs::SavedBusData::saved_bus_with_word))]
    fn put_page_of_core(&mut self, page: &PatchedPage, shared: Rc<Page>)
        requires { IsNewPage page.now self.old shared }
        ensures { self.new ≡ saved_bus_with_word page.now.at page.now.value self.old }
    {
        self.core[page.at.number / PAGE_WORDS] = shared;
    }

    // Puts this list in place of the list of the drive of this number.
    #[tactic(auto, unfolding(crate::specs::SavedBusData::saved_bus_with_word))]
    fn put_list_of_drive(&mut self, number: usize, page: &PatchedPage, pages: Pages)
        requires { IsNewList page.now self.old number pages }
        ensures { self.new ≡ saved_bus_with_word page.now.at page.now.value self.old }
    {
        self.drives[number] = pages;
    }
}
