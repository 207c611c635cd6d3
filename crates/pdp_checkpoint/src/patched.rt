ghost use Rattle.std.specs.Prelude.{◌≡◌, ◌<◌, length, map, IfOk};
ghost use Rattle.std.specs.List.{All};
ghost use Rattle.pdp_cpu.specs.Saved.{HasWord};
ghost use Rattle.pdp_unibus.specs.PatchedPages.{IsPatchIn, IsPatchOf};
ghost use Rattle.pdp_checkpoint.specs.Patched.{AreNewPagesFor, HavePageAlike, checkpoint_with_word};

use crate::checkpoint::Checkpoint;
use pdp_cpu::PagedMachine;
use pdp_store::WordAt;
use pdp_unibus::{NewPages, PatchedPage};
use pdp_word::NoMemory;
use std::alloc::Global;

/// A patched page, and for each of some checkpoints what takes the place of its own page: all the
/// memory that the patch of these states needs.
#[derive(Drop)]
pub(crate) struct ReadyPatch {
    page: PatchedPage,
    pages: Vec<NewPages>,
}

impl ReadyPatch {
    /// The patch of a word for these states. They have the page of the word alike, and share the
    /// one page that is made of it. The machine numbers this page, and is left as it is.
    ///
    /// Err if memory was refused.
    pub(crate) fn new(
        alloc: Global,
        machine: &mut PagedMachine,
        kept: &[Checkpoint],
        at: WordAt,
        value: u16,
    ) -> Result<ReadyPatch, NoMemory>
        requires some { 0 < length kept.now }
        requires there { All (λ c. HasWord at c.saved) kept.now }
        requires alike { HavePageAlike at kept.now }
        ensures machine { machine.new ≡ machine.old }
        ensures patch { IfOk result (λ patch. IsPatchOf at value patch.page) }
        ensures pages { IfOk result
            (λ patch. AreNewPagesFor patch.page kept.now patch.pages.items) }
    {
        let first = &kept[0];
        let page = first.saved.patched_page(alloc, machine, at, value)?;
        let pages = new_pages(alloc, kept, &page)?;
        Ok(ReadyPatch { page, pages })
    }

    /// Gives the word its value in each of the states that the patch is for. It takes no memory.
    pub(crate) fn put(self, kept: &mut [Checkpoint])
        requires { AreNewPagesFor self.page kept.old self.pages.items }
        ensures { kept.new ≡ map (checkpoint_with_word self.page.at self.page.value) kept.old }
    {
        let ReadyPatch { page, mut pages } = self;
        while let Some(new) = pages.pop() {
            kept[pages.len()].saved.put_pages(&page, new);
        }
    }
}

/// What takes the place of a patched page in each of these states.
///
/// Err as above.
fn new_pages(
    alloc: Global,
    kept: &[Checkpoint],
    page: &PatchedPage,
) -> Result<Vec<NewPages>, NoMemory>
    requires { All (λ c. IsPatchIn c.saved.bus page.now) kept.now }
    ensures { IfOk result (λ pages. AreNewPagesFor page.now kept.now pages.items) }
{
    let mut pages = Vec::with_capacity(alloc, kept.len())?;
    for checkpoint in kept {
        pages.push(checkpoint.saved.new_pages(alloc, page)?)?;
    }
    Ok(pages)
}
