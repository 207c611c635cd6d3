ghost use Rattle.std.specs.Prelude.{◌≡◌, ◌-◌, ◌≤◌};

use crate::run::KeptRun;

/// What was asked for, with what it took.
#[derive(Drop)]
pub struct Told<T> {
    /// What was asked for.
    pub value: T,
    /// How many turns were run for it.
    pub ran: u64,
    /// The known turn after it: the turns before it were run, and no edit since then reaches back
    /// before it.
    pub known: u32,
    /// The stride after it, in turns.
    pub stride: u32,
}

impl<T> Told<T> {
    /// This value, with what it took of the run since its meter was at `before`.
    pub(crate) fn of(value: T, run: &KeptRun, before: u64) -> Told<T>
        requires { before ≤ run.now.meter }
        ensures value { result.value ≡ value }
        ensures ran { result.ran ≡ run.now.meter - before }
        ensures known { result.known ≡ run.now.known }
        ensures stride { result.stride ≡ run.now.ladder.stride }
    {
        Told {
            value,
            ran: run.meter.count() - before,
            known: run.known,
            stride: run.ladder.stride(),
        }
    }
}
