//! First touches apart from a bus: taken of one run, and laid over those of another.

ghost use Rattle.std.specs.Prelude.{◌≡◌, ◌<◌, ◌↔◌, [], length, map, slice_index_or, slice_set};
ghost use Rattle.std.specs.Prelude.{true};
ghost use Rattle.std.specs.Prelude.{IfOk};
ghost use Rattle.pdp_store.specs.FirstTouches.{all_first_touches_before, first_touches_before};
ghost use Rattle.pdp_store.specs.Overlays.{drives_over, first_touches_over, touches_over};
ghost use Rattle.pdp_unibus.specs.Handbook.BusWorld.{with_first_touches};
ghost use Rattle.pdp_unibus.specs.SavedTouches.{HasPagesOf, turns_in};

use crate::bus::Bus;
use crate::known::shut_all;
use pdp_store::{Paged, PagedDrive, Paging};
use pdp_word::NoMemory;
use std::alloc::Global;
use std::marker::Model;

/// The first touches of the pages of core and of each drive, as a bus had them. A contract sees
/// them as `FirstTouches`.
#[derive(Drop)]
pub struct SavedTouches {
    core: Vec<u32>,
    drives: Vec<Vec<u32>>,
}

impl Model for SavedTouches {
    ghost use Rattle.std.specs.Prelude.{map};
    ghost use Rattle.pdp_store.specs.FirstTouches.{FirstTouches, first_touches_of};
    ghost use Rattle.pdp_unibus.specs.SavedTouches.{turns_in};

    ghost Value = { FirstTouches };

    ghost view = { λ t. first_touches_of t.core.items (map turns_in t.drives.items) };
}

impl Bus<Paged, PagedDrive> {
    /// The first touches of the bus, copied.
    ///
    /// Err(NoMemory) if memory was refused.
    pub fn save_touches(&self, alloc: Global) -> Result<SavedTouches, NoMemory>
        ensures { IfOk result (λ touches. touches ≡ self.now.first_touches) }
    {
        let core = self.core.touches().to_vec(alloc)?;
        let drives = touches_of_each(alloc, &self.drives)?;
        Ok(SavedTouches { core, drives })
    }

    /// Lays first touches of another run over those of the bus: a page that was touched before turn
    /// `from` keeps its own first touch, and each other page gets the one that is given for it, if
    /// that is before turn `to`, and otherwise none. Takes no memory.
    pub fn lay_touches(&mut self, over: &SavedTouches, from: u32, to: u32)
        requires { HasPagesOf over.now self.old.first_touches }
        ensures { self.new ≡ with_first_touches self.old (first_touches_over from
            self.old.first_touches (all_first_touches_before to over.now)) }
    {
        shut_all(&mut self.known);
        self.core.lay_touches(&over.core, from, to);
        lay_each(&mut self.drives, &over.drives, from, to);
    }

    /// Whether each page that has one of these first touches before turn `turn` was touched before
    /// that turn on this bus too.
    pub fn has_touches_of(&self, over: &SavedTouches, turn: u32) -> bool
        requires { HasPagesOf over.now self.now.first_touches }
        ensures { (result ≡ true) ↔ (first_touches_over turn self.now.first_touches
            (all_first_touches_before turn over.now) ≡ self.now.first_touches) }
    {
        if !self.core.has_touches_of(&over.core, turn) {
            return false;
        }
        each_has_touches(&self.drives, &over.drives, turn)
    }
}

// The first touches of each drive, in the order of their numbers.
//
// Err(NoMemory) if memory was refused.
#[tactic(auto, using(crate::proofs::SavedDrives::one_more))]
fn touches_of_each<D: Paging>(alloc: Global, drives: &Vec<D>) -> Result<Vec<Vec<u32>>, NoMemory>
    ensures { IfOk result (λ touches. map turns_in touches.items ≡ map D.first_touches
        drives.now.items) }
{
    let mut taken = Vec::with_capacity(alloc, drives.len())?;
    for number in 0..drives.len() {
        let touches = touches_of_one(alloc, drives, number)?;
        taken.push(touches)?;
    }
    Ok(taken)
}

// The first touches of the drive of this number.
//
// Err(NoMemory) if memory was refused.
#[tactic(auto, using(crate::proofs::SavedDrives::seen))]
fn touches_of_one<D: Paging>(
    alloc: Global,
    drives: &Vec<D>,
    number: usize,
) -> Result<Vec<u32>, NoMemory>
    requires { number < length drives.now.items }
    ensures { IfOk result (λ touches. turns_in touches ≡ slice_index_or
        (map D.first_touches drives.now.items) number []) }
{
    Ok(drives[number].touches().to_vec(alloc)?)
}

// Lays first touches over those of each drive.
#[tactic(auto, using(crate::proofs::SavedDrives::same_for_one))]
fn lay_each<D: Paging>(drives: &mut Vec<D>, over: &Vec<Vec<u32>>, from: u32, to: u32)
    requires { map length (map turns_in over.now.items)
        ≡ map length (map D.first_touches drives.old.items) }
    ensures words { map D.words drives.new.items ≡ map D.words drives.old.items }
    ensures first_touches { map D.first_touches drives.new.items ≡ drives_over from
        (map D.first_touches drives.old.items)
        (map (first_touches_before to) (map turns_in over.now.items)) }
{
    for number in 0..drives.len() {
        lay_one(drives, over, number, from, to);
    }
}

// Lays first touches over those of the drive of this number.
#[tactic(auto, using(crate::proofs::Rules::changed_drive))]
fn lay_one<D: Paging>(drives: &mut Vec<D>, over: &Vec<Vec<u32>>, number: usize, from: u32, to: u32)
    requires within { number < length drives.old.items }
    requires there { number < length over.now.items }
    requires pages { length (slice_index_or (map turns_in over.now.items) number [])
        ≡ length (slice_index_or (map D.first_touches drives.old.items) number []) }
    ensures count { length drives.new.items ≡ length drives.old.items }
    ensures words { map D.words drives.new.items ≡ map D.words drives.old.items }
    ensures first_touches { map D.first_touches drives.new.items
        ≡ slice_set (map D.first_touches drives.old.items) number (touches_over from
        (slice_index_or (map D.first_touches drives.old.items) number [])
        (first_touches_before to (slice_index_or (map turns_in over.now.items) number []))) }
{
    drives[number].lay_touches(&over[number], from, to);
}

// Whether each drive has these first touches before this turn.
fn each_has_touches<D: Paging>(drives: &Vec<D>, over: &Vec<Vec<u32>>, turn: u32) -> bool
    requires { map length (map turns_in over.now.items)
        ≡ map length (map D.first_touches drives.now.items) }
    ensures { (result ≡ true) ↔ (drives_over turn (map D.first_touches drives.now.items)
        (map (first_touches_before turn) (map turns_in over.now.items))
        ≡ map D.first_touches drives.now.items) }
{
    for number in 0..drives.len() {
        if !one_has_touches(drives, over, number, turn) {
            return false;
        }
    }
    true
}

// Whether the drive of this number has them.
#[tactic(auto, using(crate::proofs::SavedDrives::seen))]
fn one_has_touches<D: Paging>(
    drives: &Vec<D>,
    over: &Vec<Vec<u32>>,
    number: usize,
    turn: u32,
) -> bool
    requires within { number < length drives.now.items }
    requires there { number < length over.now.items }
    requires pages { length (slice_index_or (map turns_in over.now.items) number [])
        ≡ length (slice_index_or (map D.first_touches drives.now.items) number []) }
    ensures { (result ≡ true) ↔ (touches_over turn
        (slice_index_or (map D.first_touches drives.now.items) number [])
        (first_touches_before turn (slice_index_or (map turns_in over.now.items) number []))
        ≡ slice_index_or (map D.first_touches drives.now.items) number []) }
{
    drives[number].has_touches_of(&over[number], turn)
}
