//! States that an edit drops, set aside for a former run.

ghost use Rattle.std.specs.Prelude.{◌≡◌, ◌≤◌, ◌++◌, ◌∷◌, ◌⊎◌, [], drop, length, map};
ghost use Rattle.std.specs.Prelude.{nat_le, take};
ghost use Rattle.std.specs.List.{All, filter, remove};
ghost use Rattle.pdp_checkpoint.specs.Formers.{former_edited, IsAbove, IsFormerIn, IsLeft};
ghost use Rattle.pdp_checkpoint.specs.Formers.{IsStateIn, most_formers};

use crate::checkpoint::Checkpoint;
use crate::former::Former;
use std::alloc::Global;

/// Takes the states after the first `count` away, and returns them. If memory is refused they are
/// dropped.
pub(crate) fn split_kept(alloc: Global, kept: &mut Vec<Checkpoint>, count: usize) -> Vec<Checkpoint>
    ensures kept { kept.new.items ≡ take count kept.old.items }
    ensures late { All (IsStateIn (drop count kept.old.items)) result.items }
    ensures few { length result.items ≤ length kept.old.items }
{
    let count = count.min(kept.len());
    match kept.split_off(count) {
        Ok(late) => late,
        Err(_) => {
            kept.truncate(count);
            Vec::new(alloc)
        }
    }
}

/// Takes the states of turns above `turn` away, and returns them. Those for which memory is refused
/// are dropped.
pub(crate) fn split_near(alloc: Global, near: &mut Vec<Checkpoint>, turn: u32) -> Vec<Checkpoint>
    ensures near { near.new.items ≡ filter (λ c. nat_le c.turn turn) near.old.items }
    ensures late { All (IsAbove turn near.old.items) result.items }
    ensures few { length result.items ≤ length near.old.items }
{
    let mut late = Vec::new(alloc);
    let mut place = near.len();
    while place > 0 {
        place -= 1;
        if near[place].turn > turn {
            add(&mut late, near.remove(place));
        }
    }
    late
}

/// Adds a former run to at most two others. `met` is the number of the one that this run met last.
/// Of the others that aren't needless (`is_needless`) the one that was known up to the greatest
/// turn stays, of two such the later one. If memory is refused, the run that is added is dropped.
pub(crate) fn add_former(formers: &mut Vec<Former>, former: Former, met: u64)
    ensures left { All (IsLeft former formers.old.items) formers.new.items }
    ensures few { length formers.new.items ≤ most_formers }
{
    keep_one(formers, former.known(), met);
    add(formers, former);
}

/// Drops all former runs except one, and that one too if it is needless.
fn keep_one(formers: &mut Vec<Former>, known: u32, met: u64)
    ensures left { All (IsFormerIn formers.old.items) formers.new.items }
    ensures few { length formers.new.items ≤ 1 }
{
    drop_first(formers, known, met);
    formers.truncate(1);
    drop_needless(formers, known, met);
}

/// Drops the first of two former runs, if the second one is to stay.
fn drop_first(formers: &mut Vec<Former>, known: u32, met: u64)
    ensures { (formers.new.items ≡ remove formers.old.items 0)
        ⊎ (formers.new.items ≡ formers.old.items) }
{
    if formers.len() < 2 || is_needless(&formers[1], known, met) {
        return;
    }
    if is_needless(&formers[0], known, met) || formers[0].known() <= formers[1].known() {
        formers.remove(0);
    }
}

/// Drops all former runs, if the first one is needless.
fn drop_needless(formers: &mut Vec<Former>, known: u32, met: u64)
    ensures { (formers.new.items ≡ []) ⊎ (formers.new.items ≡ formers.old.items) }
{
    if !formers.is_empty() && is_needless(&formers[0], known, met) {
        formers.clear();
    }
}

/// Whether a former run is needless beside a run that was known up to turn `known` and met the
/// former run of number `met`. It is if it was known up to an earlier turn. If it was known up to
/// the same turn, it is if it is the one that was met: the two runs have the same later states.
fn is_needless(former: &Former, known: u32, met: u64) -> bool {
    former.known() < known || former.known() == known && former.number() == met
}

/// Adds an item to a list, unless memory is refused for it.
fn add<T: Drop>(list: &mut Vec<T>, item: T)
    ensures { (list.new.items ≡ list.old.items ++ item ∷ []) ⊎ (list.new.items ≡ list.old.items) }
{
    let _ = list.push(item);
}

/// An edit may have changed the events of turns up to this one.
pub(crate) fn edit_each(formers: &mut Vec<Former>, turn: u32)
    ensures { formers.new.items ≡ map (former_edited turn) formers.old.items }
{
    for place in 0..formers.len() {
        formers[place].edit(turn);
    }
}
