ghost use Rattle.std.specs.Prelude.{◌≡◌, ◌↔◌, true};

/// What happens to the machine from outside, at a turn of a script [P].
#[derive(Clone, Copy, PartialEq, Eq)]
pub enum Event {
    /// A key is struck, with this byte.
    Key(u8),
    /// The line clock ticks.
    Tick,
    /// The printer completes.
    PrinterDone,
    /// The paper tape reader completes.
    ReaderDone,
    /// The paper tape punch completes.
    PunchDone,
    /// The disk completes.
    DiskDone,
    /// The switch register is set to this word.
    Switches(u16),
    /// The console's continue: a halted processor goes on.
    Continue,
}

impl Event {
    /// Whether both are the same, with the same byte or word.
    pub fn is_same(&self, other: &Event) -> bool
        ensures { (result ≡ true) ↔ (self.now ≡ other.now) }
    {
        self == other
    }
}
