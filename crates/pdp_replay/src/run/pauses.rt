//! Where a run pauses on its way to a turn that is asked about, so that states near it are kept.

ghost use Rattle.std.specs.Prelude.{◌<◌, ◌≤◌};

/// Fewer turns than these are run in about the time in which a state is kept and loaded.
const LEAST_PAUSE: u32 = 8_192;

/// Into how many parts the pauses divide the last stride before the turn.
const PARTS: u32 = 64;

/// Into how many they divide the last of these parts.
const PARTS_OF_THE_LAST: u32 = 8;

/// Where a run from turn `here` to turn `to` pauses next: near `to` (`pause_before`), and near the
/// last turn that was edited, if there is one (`pause_near`).
pub(crate) fn next_pause(here: u32, edited: Option<u32>, to: u32, stride: u32) -> u32
    requires { here < to }
    ensures ahead { here < result }
    ensures most { result ≤ to }
{
    let pause = pause_before(here, to, stride);
    match edited {
        Some(edited) => pause_near(here, edited, pause, stride),
        None => pause,
    }
}

/// Pauses at equal distances in the last stride before turn `to`: at `to` itself, if that is more
/// than a stride away or so close that no state is to be kept before it.
fn pause_before(here: u32, to: u32, stride: u32) -> u32
    requires { here < to }
    ensures ahead { here < result }
    ensures most { result ≤ to }
{
    let left = to - here;
    let wide = (stride / PARTS).max(LEAST_PAUSE);
    let close = (wide / PARTS_OF_THE_LAST).max(LEAST_PAUSE);
    let part = if left > wide { wide } else { close };
    if left > stride || left <= part {
        return to;
    }
    here + part
}

/// From which turn on a run that meets a former run at turn `here` takes a state of it next: at
/// least three times as far after the edited turn. The next edit is likely near this one, and its
/// run then meets this one soon.
pub(crate) fn next_taken(here: u32, edited: u32) -> u32
    ensures { here ≤ result }
{
    let part = here.saturating_sub(edited).max(LEAST_PAUSE);
    here.saturating_add(part.saturating_mul(2))
}

/// Pauses on both sides of the edited turn: before it after half of the turns that are left
/// (`pause_towards`), at it, and at distances after it of which each is twice the one before, up to
/// a stride. So the next edit, which is likely near this one, goes on from a state just before it,
/// and its run then meets this one soon. It pauses at turn `to` at the latest.
fn pause_near(here: u32, edited: u32, to: u32, stride: u32) -> u32
    requires { here < to }
    ensures ahead { here < result }
    ensures most { result ≤ to }
{
    if here < edited {
        return pause_towards(here, edited).min(to);
    }
    let part = (here - edited).max(LEAST_PAUSE);
    if part > stride || to - here <= part {
        return to;
    }
    here + part
}

/// Pauses after half of the turns up to the edited one, or at that, if a state costs more than they
/// do.
fn pause_towards(here: u32, edited: u32) -> u32
    requires { here < edited }
    ensures ahead { here < result }
{
    let left = edited - here;
    if left <= LEAST_PAUSE {
        return edited;
    }
    here + (left / 2).max(LEAST_PAUSE)
}
