//! What is looked for among the events of a turn.

ghost use Rattle.std.specs.Prelude.{◌≡◌};
ghost use Rattle.pdp_turn_moves.specs.Beginnings.{found_in, found_with};

use pdp_unibus::Event;

/// Of the events of a turn, counted from 0, those that move data.
#[derive(Clone, Copy)]
pub(crate) struct FoundEvents {
    /// The number of the last key.
    pub(crate) key: Option<usize>,
    /// The number of the last event that sets the switches.
    pub(crate) switches: Option<usize>,
    /// Whether the reader completes by an event.
    pub(crate) reader_done: bool,
    /// Whether the disk completes by an event.
    pub(crate) disk_done: bool,
}

impl FoundEvents {
    /// What is found among these events.
    #[tactic(auto, using(crate::proofs::Founds::found_more))]
    pub(crate) fn of(events: &[Event]) -> FoundEvents
        ensures { result ≡ found_in events.now }
    {
        let mut found = FoundEvents {
            key: None,
            switches: None,
            reader_done: false,
            disk_done: false,
        };
        for number in 0..events.len() {
            found.find(number, events[number]);
        }
        found
    }

    /// One event more, of this number.
    fn find(&mut self, number: usize, event: Event)
        ensures { self.new ≡ found_with event number self.old }
    {
        match event {
            Event::Key(_) => self.key = Some(number),
            Event::Switches(_) => self.switches = Some(number),
            Event::ReaderDone => self.reader_done = true,
            Event::DiskDone => self.disk_done = true,
            Event::Tick | Event::PrinterDone | Event::PunchDone | Event::Continue => {}
        }
    }
}
