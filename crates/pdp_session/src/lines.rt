ghost use Rattle.std.specs.Prelude.{◌≡◌, ◌∷◌, ◌++◌, [], take};
ghost use Rattle.pdp_session.specs.Inside.Progress.{most_held};
ghost use Rattle.pdp_session.specs.Lines.{without_return};

use crate::grammar::LONGEST_LINE;
use arrayvec::ArrayVec;

/// The most bytes that are held of a line that has not ended. A line that is longer than the
/// longest is refused whatever it has, so no more of it is held than shows that: the bytes of the
/// longest, one more, and a CR.
const MOST_HELD: usize = LONGEST_LINE + 2;

/// What is held of a line that has not ended.
pub type Held = ArrayVec<u8, MOST_HELD>;

/// Adds a byte, while there is room.
pub fn hold(held: &mut Held, byte: u8)
    ensures { held.new.items ≡ take most_held (held.old.items ++ byte ∷ []) }
{
    if !held.is_full() {
        held.push(byte);
    }
}

/// A line less one CR at its end.
pub fn without_return(line: &[u8]) -> &[u8]
    ensures { result.now ≡ without_return line.now }
{
    match line.split_last() {
        Some((b'\r', front)) => front,
        _ => line,
    }
}
