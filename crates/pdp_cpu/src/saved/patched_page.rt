//! One page with a word changed, which many saved machines share.

ghost use Rattle.std.specs.Prelude.{◌≡◌, IfOk};
ghost use Rattle.pdp_cpu.specs.Saved.{HasWord, saved_machine_with_word};
ghost use Rattle.pdp_unibus.specs.PatchedPages.{AreNewPages, IsPatchIn, IsPatchOf};

use super::{PagedMachine, Saved};
use pdp_store::WordAt;
use pdp_unibus::{NewPages, PatchedPage};
use pdp_word::NoMemory;
use std::alloc::Global;

impl Saved {
    /// The page of a word, with this value in the word. Its stamps are kept. The bus of `machine`
    /// numbers the page; as a contract sees it, `machine` stays as it is, since its value has no
    /// serials.
    ///
    /// # Errors
    ///
    /// `NoMemory` if memory was refused.
    #[tactic(auto, unfolding(crate::specs::Saved::HasWord))]
    pub fn patched_page(
        &self,
        alloc: Global,
        machine: &mut PagedMachine,
        at: WordAt,
        value: u16,
    ) -> Result<PatchedPage, NoMemory>
        requires { HasWord at self.now }
        ensures same { machine.new ≡ machine.old }
        ensures patch { IfOk result (λ page. IsPatchOf at value page) }
        ensures page { IfOk result (λ page. IsPatchIn self.now.bus page) }
    {
        self.bus
            .patched_page(alloc, &mut machine.computer.bus, at, value)
    }

    /// What takes the place of the page that was patched here: all the memory that `put_pages`
    /// needs.
    ///
    /// # Errors
    ///
    /// `NoMemory` if memory was refused, or if pages have as many owners as can be counted.
    pub fn new_pages(&self, alloc: Global, page: &PatchedPage) -> Result<NewPages, NoMemory>
        requires { IsPatchIn self.now.bus page.now }
        ensures { IfOk result (λ new. AreNewPages page.now self.now.bus new) }
    {
        self.bus.new_pages(alloc, page)
    }

    /// Puts the pages that were made for it in place of its own. The machine is the same then,
    /// except for the word of the patched page. It takes no memory.
    #[tactic(auto, unfolding(crate::specs::Saved::saved_machine_with_word))]
    pub fn put_pages(&mut self, page: &PatchedPage, new: NewPages)
        requires { AreNewPages page.now self.old.bus new }
        ensures { self.new ≡ saved_machine_with_word page.now.at page.now.value self.old }
    {
        self.bus.put_pages(page, new);
    }
}
