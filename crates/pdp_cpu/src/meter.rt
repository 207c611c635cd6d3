ghost use Rattle.std.specs.Prelude.{◌≡◌, ◌^◌, ◌<◌, ℕ};
ghost use Rattle.pdp_cpu.specs.Meters.{Counts};

use std::marker::Model;

/// Counts the turns that machines have run.
#[derive(Drop)]
pub struct Meter {
    turns: u64,
}

impl Model for Meter {
    ghost Value = { ℕ };

    ghost view = { λ m. m.turns };
}

impl Meter {
    /// A meter at 0.
    pub fn new() -> Self
        ensures { result ≡ 0 }
    {
        Meter { turns: 0 }
    }

    /// How many turns it has counted, at most 18,446,744,073,709,551,615.
    pub fn count(&self) -> u64
        ensures count { result ≡ self.now }
        ensures within { self.now < 2 ^ 64 }
    {
        self.turns
    }

    /// Counts a turn; at 18,446,744,073,709,551,615 it stays there.
    #[inline(always)]
    pub(crate) fn tick(&mut self)
        ensures { Counts 1 self.old self.new }
    {
        self.turns = self.turns.saturating_add(1);
    }

    /// Counts `turns` turns; at 18,446,744,073,709,551,615 it stays there.
    pub(crate) fn add(&mut self, turns: u32)
        ensures { Counts turns self.old self.new }
    {
        self.turns = self.turns.saturating_add(u64::from(turns));
    }
}
