ghost use Rattle.std.specs.Prelude.{◌≡◌, ◌*◌, ◌≤◌, ◌++◌, ℕ, drop, length, map, replicate, None};
ghost use Rattle.std.specs.Prelude.{IfOk};
ghost use Rattle.std.specs.List.{All};
ghost use Rattle.pdp_store.specs.Stored.{no_touch_in};
ghost use Rattle.pdp_replay.specs.Past.Image.{more_drives, padded_image};
ghost use Rattle.pdp_replay.specs.Past.Setup.{images_of};

use crate::past::{BaseSetup, DRIVE_WORDS, MOST_DRIVES, UNIT_WORDS};
use pdp_store::{Paged, PagedDrive, Store};
use pdp_word::NoMemory;
use std::alloc::Global;

/// Core as of power-up without patches; no word has a stamp.
///
/// Err if there is no memory for it.
pub(crate) fn core_store(alloc: Global, base_setup: &BaseSetup) -> Result<Paged, NoMemory>
    requires { length base_setup.now.core.items ≤ base_setup.now.units * UNIT_WORDS }
    ensures words { IfOk result
        (λ store. store.words ≡ padded_image (base_setup.now.units * UNIT_WORDS)
        base_setup.now.core.items) }
    ensures stamps { IfOk result
        (λ store. store.stamps ≡ replicate (base_setup.now.units * UNIT_WORDS) None) }
    ensures first_touches { IfOk result (λ store. store.first_touches
        ≡ no_touch_in (base_setup.now.units * UNIT_WORDS)) }
{
    let words = usize::from(base_setup.units) * UNIT_WORDS;
    let mut store = Paged::new(alloc, words, true)?;
    fill(&mut store, &base_setup.core);
    Ok(store)
}

/// The drive with this image as of power-up without patches.
///
/// Err if there is no memory for it.
pub(crate) fn drive_store(alloc: Global, image: &[u16]) -> Result<PagedDrive, NoMemory>
    requires { length image.now ≤ DRIVE_WORDS }
    ensures words { IfOk result (λ store. store.words ≡ padded_image DRIVE_WORDS image.now) }
    ensures first_touches { IfOk result (λ store. store.first_touches ≡ no_touch_in DRIVE_WORDS) }
{
    let mut store = PagedDrive::blank(alloc, DRIVE_WORDS)?;
    fill(&mut store, image);
    Ok(store)
}

/// Drives 1 to 7 as of power-up without patches, in the order of their numbers.
///
/// Err if there is no memory for them.
#[tactic(auto, unfolding(crate::specs::Past::Image::more_drives))]
pub(crate) fn more_drives(
    alloc: Global,
    base_setup: &BaseSetup,
) -> Result<Vec<PagedDrive>, NoMemory>
    requires { All (λ image. length image ≤ DRIVE_WORDS) (images_of base_setup.now.disks.items) }
    ensures words { IfOk result (λ drives. map (λ drive. drive.words) drives.items
        ≡ more_drives (images_of base_setup.now.disks.items)) }
    ensures first_touches { IfOk result (λ drives. map (λ drive. drive.first_touches) drives.items
        ≡ replicate 7 (no_touch_in DRIVE_WORDS)) }
{
    let mut drives = Vec::with_capacity(alloc, MOST_DRIVES)?;
    for number in 1..MOST_DRIVES {
        drives.push(drive_store(alloc, base_setup.image(number))?)?;
    }
    Ok(drives)
}

/// Puts the words of an image into a store, from its first word on.
fn fill<S: Store>(store: &mut S, image: &[u16])
    requires { length image.now ≤ length (S.words store.old) }
    ensures words { S.words store.new ≡ image.now ++ drop (length image.now) (S.words store.old) }
    ensures stamps { (n : ℕ) → S.stamps store.old ≡ replicate n None
        → S.stamps store.new ≡ replicate n None }
    ensures first_touches { S.first_touches store.new ≡ S.first_touches store.old }
{
    for (number, word) in image.iter().enumerate() {
        store.set(number, *word);
    }
}
