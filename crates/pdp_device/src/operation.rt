ghost use Rattle.std.specs.Prelude.{◌≡◌, ◌↔◌, true};

/// What a device is doing: nothing, or something that takes until a turn or an event [6.56].
#[derive(Clone, Copy, PartialEq, Eq, Default)]
pub enum Operation {
    /// Nothing is under way.
    #[default]
    Idle,
    /// Under way until its event comes.
    ByEvent,
    /// Under way until this turn, or until its event comes before it.
    At(u64),
}

impl Operation {
    ghost use Rattle.pdp_device.specs.Operation.{begun_operation, due_after, is_due, is_under_way};

    /// Whether both are the same in all.
    pub fn is_same(&self, other: &Operation) -> bool
        ensures { (result ≡ true) ↔ (self.now ≡ other.now) }
    {
        self == other
    }

    /// An operation begun in turn `turn` that is complete `delay` turns later; with delay 0 only
    /// its event completes it [6.56].
    pub fn begin(turn: u32, delay: u32) -> Operation
        ensures { result ≡ begun_operation turn delay }
    {
        if delay == 0 {
            Operation::ByEvent
        } else {
            Operation::At(u64::from(turn) + u64::from(delay))
        }
    }

    /// Whether something is under way.
    pub fn is_under_way(&self) -> bool
        ensures { result ≡ is_under_way self.now }
    {
        !matches!(self, Operation::Idle)
    }

    /// Whether it completes by itself at the start of this turn.
    pub fn is_due(&self, turn: u32) -> bool
        ensures { result ≡ is_due turn self.now }
    {
        match *self {
            Operation::At(due) => due == u64::from(turn),
            _ => false,
        }
    }

    /// The turn at whose start it completes by itself, if that is later than this turn.
    pub fn due_after(&self, turn: u32) -> Option<u64>
        ensures { result ≡ due_after turn self.now }
    {
        match *self {
            Operation::At(due) if u64::from(turn) < due => Some(due),
            _ => None,
        }
    }
}
