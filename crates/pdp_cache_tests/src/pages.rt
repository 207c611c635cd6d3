//! Which pages a store shares with what was taken of it before, and their serials.

ghost use Rattle.std.specs.Prelude.{◌≡◌, ◌<◌, length};

use pdp_store::{
    Agent, PAGE_WORDS, Page, Paged, PagedDrive, Pages, Paging, SharedPaging, Stamp, Store,
};
use pdp_word::NoMemory;
use std::rc::Rc;

/// Each store has two pages.
const WORDS: usize = 512;

/// The serials of two pages.
fn serials(pages: &[Rc<Page>]) -> [Option<u64>; 2] {
    [
        pages.get(0).map(|page| page.serial),
        pages.get(1).map(|page| page.serial),
    ]
}

/// Whether both have one and the same page at this place.
fn is_shared_at(these: &[Rc<Page>], those: &[Rc<Page>], place: usize) -> bool {
    match (these.get(place), those.get(place)) {
        (Some(this), Some(that)) => Rc::ptr_eq(this, that),
        _ => false,
    }
}

/// The page that wasn't written is shared. The other is new.
#[test]
fn pages_of_core(rt: HostRuntime) -> Result<(), NoMemory> {
    let mut core = Paged::new(rt.alloc(), WORDS, true)?;
    let before = core.take_pages(rt.alloc())?;
    core.write(0, 5, stamp_of(7));
    let after = core.take_pages(rt.alloc())?;
    assert_eq!(rt; serials(before.as_slice()), [Some(1), Some(2)]);
    assert_eq!(rt; serials(after.as_slice()), [Some(3), Some(2)]);
    assert!(rt; is_shared_at(after.as_slice(), before.as_slice(), 1));
    assert!(rt; !is_shared_at(after.as_slice(), before.as_slice(), 0));
    Ok(())
}

/// The stamp of a write by the processor in this turn.
fn stamp_of(turn: u32) -> Stamp {
    Stamp {
        turn,
        agent: Agent::Cpu,
    }
}

/// Word `i` of core, with the turn of its last write.
fn word_and_turn(core: &Paged, i: usize) -> (u16, Option<u32>)
    requires { i < length core.now.words }
{
    (core.read(i), core.last(i).map(|stamp| stamp.turn))
}

/// Of the stamps of the pages those of turn 5 and of later turns are laid over those of core.
#[test]
fn pages_are_laid_over_core(rt: HostRuntime) -> Result<(), NoMemory> {
    let mut core = Paged::new(rt.alloc(), WORDS, true)?;
    core.write(0, 10, stamp_of(5));
    core.write(300, 11, stamp_of(4));
    let pages = core.take_pages(rt.alloc())?;
    core.write(0, 20, stamp_of(1));
    core.write(300, 21, stamp_of(2));
    let differs = !core.has_words(&pages);
    core.load_pages_over(&pages, 5);
    assert!(rt; differs && core.has_words(&pages));
    let words = [word_and_turn(&core, 0), word_and_turn(&core, 300)];
    assert_eq!(rt; words, [(10, Some(5)), (11, Some(2))]);
    Ok(())
}

/// A page that is laid over core becomes the base of its place if its stamps are those of the
/// place. A base stays if nothing changes.
#[test]
fn bases_of_laid_pages(rt: HostRuntime) -> Result<(), NoMemory> {
    let mut core = Paged::new(rt.alloc(), WORDS, true)?;
    core.write(300, 11, stamp_of(4));
    let pages = core.take_pages(rt.alloc())?;
    core.write(0, 20, stamp_of(2));
    core.write(300, 21, stamp_of(2));
    core.load_pages_over(&pages, 3);
    let first = core.take_pages(rt.alloc())?;
    core.load_pages_over(&pages, 3);
    let second = core.take_pages(rt.alloc())?;
    assert_eq!(rt; serials(first.as_slice()), [Some(3), Some(2)]);
    assert_eq!(rt; serials(second.as_slice()), [Some(3), Some(2)]);
    Ok(())
}

/// Word 300, which is in the second page.
fn word_of(pages: &Pages) -> Option<u16> {
    let page = pages.get(300 / PAGE_WORDS)?;
    page.words.get(300 % PAGE_WORDS).copied()
}

/// Sets word 300, if the drive has that word.
fn put(drive: &mut PagedDrive, word: u16)
    ensures words { length drive.new.words ≡ length drive.old.words }
{
    if drive.len() > 300 {
        drive.set(300, word);
    }
}

/// A load gives the old words back, and a write after it changes no page that was taken before.
#[test]
fn pages_of_a_drive(rt: HostRuntime) -> Result<(), NoMemory> {
    let mut drive = PagedDrive::new(rt.alloc(), WORDS)?;
    put(&mut drive, 7);
    let first = drive.take_pages(rt.alloc())?;
    put(&mut drive, 8);
    let second = drive.take_pages(rt.alloc())?;
    drive.load_pages(&first);
    put(&mut drive, 9);
    let third = drive.take_pages(rt.alloc())?;
    assert_eq!(rt; serials(first.as_slice()), [Some(1), Some(2)]);
    assert_eq!(rt; serials(second.as_slice()), [Some(1), Some(3)]);
    assert_eq!(rt; serials(third.as_slice()), [Some(1), Some(4)]);
    let words = [word_of(&first), word_of(&second), word_of(&third)];
    assert_eq!(rt; words, [Some(7), Some(8), Some(9)]);
    let has = [drive.has_words(&second), drive.has_words(&third)];
    assert_eq!(rt; has, [false, true]);
    Ok(())
}

/// All places of a blank drive have one page.
#[test]
fn pages_of_a_blank_drive(rt: HostRuntime) -> Result<(), NoMemory> {
    let mut drive = PagedDrive::blank(rt.alloc(), WORDS)?;
    let first = drive.take_pages(rt.alloc())?;
    put(&mut drive, 7);
    let second = drive.take_pages(rt.alloc())?;
    assert_eq!(rt; serials(first.as_slice()), [Some(1), Some(1)]);
    assert_eq!(rt; serials(second.as_slice()), [Some(1), Some(2)]);
    Ok(())
}
