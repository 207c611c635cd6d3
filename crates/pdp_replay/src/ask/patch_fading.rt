//! From which turn on the run with a word patched would be the run without the patch.

ghost use Rattle.std.specs.Prelude.{◌≡◌, ◌≤◌, IfOk};
ghost use Rattle.pdp_replay.specs.Ask.Fadings.{joined_by};
ghost use Rattle.pdp_replay.specs.Past.{Past};
ghost use Rattle.pdp_replay.specs.Past.Edit.{past_with_patch};
ghost use Rattle.pdp_replay.specs.Run.Branches.{HasWordInEach, IsKeptOfSize, IsLookedAt};
ghost use Rattle.pdp_replay.specs.Run.Branches.{IsRunOfSize};
ghost use Rattle.pdp_replay.specs.Run.KeptRuns.{KeepsRun};

use crate::ask::fading::find_edge;
use crate::past::BaseSetup;
use crate::run::{KeptRun, Likeness};
use pdp_script::Script;
use pdp_store::WordAt;
use pdp_unibus::LAST_TURN;
use pdp_word::NoMemory;
use std::alloc::Global;

/// The least turn up to turn `to` from which on both runs are one: that with this script, and that
/// in which this word has this value as of power-up. Up to the first touch of its page both are the
/// same except for the word.
///
/// Err if memory was refused; what was kept until then stays.
pub(crate) fn find_patch_fading(
    alloc: Global,
    run: &mut KeptRun,
    base_setup: &BaseSetup,
    script: &Script,
    place: (WordAt, u16),
    to: u32,
) -> Result<Option<u32>, NoMemory>
    requires run { IsRunOfSize base_setup.now script.now run.old }
    requires there { HasWordInEach place.0 base_setup.now script.now run.old }
    requires limit { to ≤ LAST_TURN }
    ensures found { IfOk result (λ found. (p : Past)
        → IsKeptOfSize p base_setup.now script.now run.old
        → found ≡ joined_by to p (past_with_patch place.0 place.1 p)) }
    ensures kept { KeepsRun script.now run.old run.new }
    ensures looked { IsLookedAt to run.old run.new }
{
    let (at, word) = place;
    let untouched = run.reached_by(at).min(to);
    let other = script.copy(alloc)?;
    let mut branch = run.branch(alloc, base_setup, script, other, untouched)?;
    branch.set_word(alloc, at, word, untouched)?;
    match run.compare(alloc, script, &mut branch, untouched)? {
        // The word has this value already.
        Likeness::Alike => Ok(Some(0)),
        Likeness::Apart(_) => find_edge(alloc, run, script, &mut branch, untouched, to),
    }
}
