//! The beginning of a turn: its events, a tick of the clock, and the operations that are due.

ghost use Rattle.std.specs.Prelude.{◌≡◌, true, false, []};
ghost use Rattle.pdp_unibus.specs.Handbook.Beginning.{after_event, after_events, at_start};
ghost use Rattle.pdp_unibus.specs.Handbook.Beginning.{after_beginning};
ghost use Rattle.pdp_unibus.specs.Handbook.Beginning.{disk_done, disk_due, printer_done};
ghost use Rattle.pdp_unibus.specs.Handbook.Beginning.{printer_due};
ghost use Rattle.pdp_unibus.specs.Handbook.Beginning.{progress, punch_done, punch_due, reader_done};
ghost use Rattle.pdp_unibus.specs.Handbook.Beginning.{reader_due, tick_due};
ghost use Rattle.pdp_unibus.specs.SingleBytes.{IsSingle, StaysSingle};
ghost use Rattle.pdp_unibus.specs.declared.beginning.Output.{Output};

use crate::bus::Bus;
use crate::event::Event;
use crate::known::shut_all;
use pdp_io_page::Watch;
use pdp_store::Store;

/// The byte that was printed on the console and the byte that was punched in the beginning of a
/// turn, if any.
#[derive(Clone, Copy, Default)]
pub struct Output {
    pub printed: Option<u8>,
    pub punched: Option<u8>,
}

impl<S: Store, D: Store> Bus<S, D> {
    /// A turn begins: its events in their order, a tick if the clock's period is above 0 and the
    /// turn is a positive multiple of it, and the completions that are due, of the printer, the
    /// reader, the punch and the disk in this order. The cycles from now on are those of the turn,
    /// and so are the stamps of words that the disk reads into core. It returns the byte that was
    /// printed and the byte that was punched.
    ///
    /// `Continue` is the processor's and does nothing here. An event for an operation that isn't
    /// under way does nothing. [6.58]
    #[inline(never)]
    #[tactic(auto, unfolding(crate::specs::after_beginning, crate::specs::before_disk))]
    pub fn events(&mut self, turn: u32, events: &[Event]) -> Output
        ensures { progress self.new result ≡ after_beginning turn events.now self.old }
    {
        self.go_to(turn);
        let mut output = Output::default();
        self.take_events(events, &mut output);
        self.take_tick();
        self.take_printer(&mut output);
        self.take_reader();
        self.take_punch(&mut output);
        self.take_disk();
        self.refresh();
        output
    }

    /// The cycles from now on are those of this turn.
    #[tactic(auto, using(crate::proofs::Directs::direct_later))]
    fn go_to(&mut self, turn: u32)
        ensures { self.new ≡ record self.old { turn = turn } }
    {
        if turn < self.turn {
            shut_all(&mut self.known);
        }
        self.watch = Watch::unknown();
        self.turn = turn;
    }

    /// Begins this turn without events if the bus knows that nothing happens in its beginning, and
    /// returns true. Otherwise it does nothing and returns false, also if it only doesn't know.
    #[inline(always)]
    pub fn begin_quietly(&mut self, turn: u32) -> bool
        ensures begun { result ≡ true → after_beginning turn [] self.old ≡ at_start self.new }
        ensures left { result ≡ false → self.new ≡ self.old }
    {
        let quiet = (self.turn < turn) & (u64::from(turn) < self.watch.wake);
        if quiet {
            self.turn = turn;
        }
        quiet
    }

    #[tactic(auto, using(crate::proofs::Beginnings::after_more_events))]
    fn take_events(&mut self, events: &[Event], output: &mut Output)
        requires { IsSingle self.old.io_page output.old }
        ensures after { progress self.new output.new ≡ after_events events.now
            (progress self.old output.old) }
        ensures single { IsSingle self.new.io_page output.new }
    {
        for event in events {
            self.take_event(*event, output);
        }
    }

    fn take_event(&mut self, event: Event, output: &mut Output)
        requires { IsSingle self.old.io_page output.old }
        ensures after { progress self.new output.new ≡ after_event event
            (progress self.old output.old) }
        ensures single { IsSingle self.new.io_page output.new }
    {
        self.watch = Watch::unknown();
        match event {
            Event::Key(key) => self.io_page.console.key(key),
            Event::Tick => self.io_page.clock.tick(),
            Event::PrinterDone => self.print(output),
            Event::ReaderDone => self.read_tape(),
            Event::PunchDone => self.punch(output),
            Event::DiskDone => self.complete_disk(),
            Event::Switches(word) => self.io_page.switches = word,
            Event::Continue => {}
        }
    }

    /// The clock ticks by itself, if it is to in this turn.
    fn take_tick(&mut self)
        ensures after { (o : Output) → progress self.new o ≡ tick_due (progress self.old o) }
        ensures single { StaysSingle self.old.io_page self.new.io_page }
    {
        let period = self.io_page.delays.clock;
        if period > 0 && self.turn > 0 && self.turn % period == 0 {
            self.watch = Watch::unknown();
            self.io_page.clock.tick();
        }
    }

    /// The printer completes, if it is due.
    fn take_printer(&mut self, output: &mut Output)
        requires { IsSingle self.old.io_page output.old }
        ensures after { progress self.new output.new ≡ printer_due (progress self.old output.old) }
        ensures single { IsSingle self.new.io_page output.new }
    {
        if self.io_page.console.printer.operation.is_due(self.turn) {
            self.print(output);
        }
    }

    /// The reader completes, if it is due.
    fn take_reader(&mut self)
        ensures after { (o : Output) → progress self.new o ≡ reader_due (progress self.old o) }
        ensures single { StaysSingle self.old.io_page self.new.io_page }
    {
        if self.io_page.paper_tape.reader.operation.is_due(self.turn) {
            self.read_tape();
        }
    }

    /// The punch completes, if it is due.
    fn take_punch(&mut self, output: &mut Output)
        requires { IsSingle self.old.io_page output.old }
        ensures after { progress self.new output.new ≡ punch_due (progress self.old output.old) }
        ensures single { IsSingle self.new.io_page output.new }
    {
        if self.io_page.paper_tape.punch.operation.is_due(self.turn) {
            self.punch(output);
        }
    }

    /// The disk completes, if it is due.
    fn take_disk(&mut self)
        ensures after { (o : Output) → progress self.new o ≡ disk_due (progress self.old o) }
        ensures single { StaysSingle self.old.io_page self.new.io_page }
    {
        if self.io_page.disk.operation.is_due(self.turn) {
            self.complete_disk();
        }
    }

    /// The printer completes.
    fn print(&mut self, output: &mut Output)
        requires { IsSingle self.old.io_page output.old }
        ensures after { progress self.new output.new ≡ printer_done (progress self.old output.old) }
        ensures single { IsSingle self.new.io_page output.new }
    {
        self.watch = Watch::unknown();
        if let Some(byte) = self.io_page.console.complete() {
            output.printed = Some(byte);
        }
    }

    /// The punch completes.
    fn punch(&mut self, output: &mut Output)
        requires { IsSingle self.old.io_page output.old }
        ensures after { progress self.new output.new ≡ punch_done (progress self.old output.old) }
        ensures single { IsSingle self.new.io_page output.new }
    {
        self.watch = Watch::unknown();
        if let Some(byte) = self.io_page.paper_tape.complete_punch() {
            output.punched = Some(byte);
        }
    }

    /// The disk completes: its function is done, to core and the drives.
    fn complete_disk(&mut self)
        ensures after { (o : Output) → progress self.new o ≡ disk_done (progress self.old o) }
        ensures single { StaysSingle self.old.io_page self.new.io_page }
    {
        self.watch = Watch::unknown();
        shut_all(&mut self.known);
        self.io_page
            .disk
            .complete(&mut self.core, &mut self.drives, self.turn);
        self.lines.clear();
    }

    /// The reader completes: if it was reading, the next byte of the tape is taken.
    fn read_tape(&mut self)
        ensures after { (o : Output) → progress self.new o ≡ reader_done (progress self.old o) }
        ensures single { StaysSingle self.old.io_page self.new.io_page }
    {
        self.watch = Watch::unknown();
        if self.io_page.paper_tape.reader.operation.is_under_way() {
            let next = self.tape.take_byte();
            self.io_page.paper_tape.complete_reader(next);
        }
    }
}
