//! Last stamps as stores and pages keep them: in eight bytes, where an `Option<Stamp>` takes
//! twelve.

ghost use Rattle.std.specs.Prelude.{◌≡◌, true, None};

use crate::{Agent, Stamp};
use std::marker::Model;

/// In which turn a word was last written, and by whom.
#[derive(Clone, Copy, PartialEq, Eq)]
enum WhenWritten {
    Never,
    ByCpu(u32),
    ByDisk(u32),
}

/// The stamp of the last write to a word, or none. A contract sees it as an `Option<Stamp>`.
#[derive(Clone, Copy)]
pub struct LastStamp {
    when: WhenWritten,
}

impl Model for LastStamp {
    ghost use Rattle.std.specs.Prelude.{Option};
    ghost use Rattle.pdp_store.specs.declared.Stamp.{Stamp};

    ghost Value = { Option Stamp };

    ghost use Rattle.pdp_store.specs.LastStamps.{stamp_of_write, when_stamped};

    ghost view = { λ last. stamp_of_write last.when };

    ghost inverse = { λ stamp. record { when = when_stamped stamp } };
}

impl LastStamp {
    /// No stamp: the word wasn't written.
    #[inline(always)]
    pub fn none() -> LastStamp
        ensures { result ≡ None }
    {
        LastStamp {
            when: WhenWritten::Never,
        }
    }

    /// This stamp, or none.
    #[inline(always)]
    pub fn of(stamp: Option<Stamp>) -> LastStamp
        ensures { result ≡ stamp }
    {
        let when = match stamp {
            None => WhenWritten::Never,
            Some(Stamp { turn, agent }) => match agent {
                Agent::Cpu => WhenWritten::ByCpu(turn),
                Agent::Disk => WhenWritten::ByDisk(turn),
            },
        };
        LastStamp { when }
    }

    /// The stamp, if there is one.
    #[inline(always)]
    pub fn stamp(self) -> Option<Stamp>
        ensures { result ≡ self }
    {
        let (turn, agent) = match self.when {
            WhenWritten::Never => return None,
            WhenWritten::ByCpu(turn) => (turn, Agent::Cpu),
            WhenWritten::ByDisk(turn) => (turn, Agent::Disk),
        };
        Some(Stamp { turn, agent })
    }

    /// Whether this is the other one.
    #[inline(always)]
    pub(crate) fn is_same(self, other: LastStamp) -> bool
        ensures { result ≡ true → self ≡ other }
    {
        self.when == other.when
    }
}
