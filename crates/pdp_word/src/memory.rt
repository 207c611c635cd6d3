ghost use Rattle.std.specs.Prelude.{◌≡◌};

use std::alloc::{AllocError, AllocFailed};

/// Out of memory: memory was refused. Parts of the machine that can fail in no other way answer it.
#[derive(Clone, Copy, Debug, PartialEq, Eq)]
pub struct NoMemory;

impl From<AllocError> for NoMemory {
    ghost from_gives = { λ _ e. e ≡ record {} };

    fn from(_error: AllocError) -> NoMemory {
        NoMemory
    }
}

impl<T: Drop> From<AllocFailed<T>> for NoMemory {
    ghost from_gives = { λ _ e. e ≡ record {} };

    fn from(_refused: AllocFailed<T>) -> NoMemory {
        NoMemory
    }
}
