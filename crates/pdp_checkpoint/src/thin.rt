ghost use Rattle.std.specs.Prelude.{◌≡◌, ◌<◌, nat_le};
ghost use Rattle.std.specs.List.{filter};
ghost use Rattle.pdp_checkpoint.specs.Ladder.{at_multiples};

use crate::checkpoint::Checkpoint;

/// Drops the states whose turns are no multiples of the stride. It takes no memory.
pub(crate) fn thin(kept: &mut Vec<Checkpoint>, stride: u32)
    requires { 0 < stride }
    ensures { kept.new.items ≡ at_multiples stride kept.old.items }
{
    kept.retain(|checkpoint| checkpoint.turn % stride == 0);
}

/// Drops the states of turns above `turn`. It takes no memory.
pub(crate) fn cut_near(near: &mut Vec<Checkpoint>, turn: u32)
    ensures { near.new.items ≡ filter (λ c. nat_le c.turn turn) near.old.items }
{
    near.retain(|checkpoint| checkpoint.turn <= turn);
}
