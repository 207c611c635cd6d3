//! Requests of the devices on the I/O page: who requests, who is chosen, and who is served.

ghost use Rattle.std.specs.Prelude.{◌≡◌};
ghost use Rattle.pdp_io_page.specs.Handbook.Source.{alone_above, chosen_source, has_request};
ghost use Rattle.pdp_io_page.specs.Handbook.Source.{requests};
ghost use Rattle.pdp_io_page.specs.Handbook.Source.{io_page_served};

use crate::io_page::IoPage;
use crate::priority::Priority;
use crate::source::Source;

impl IoPage {
    /// Whether the source requests.
    #[tactic(auto, unfolding(crate::specs::Handbook::Source::requests))]
    pub fn requests(&self, source: Source) -> bool
        ensures { result ≡ requests self.now source }
    {
        match source {
            Source::Clock => self.clock.request,
            Source::Disk => self.disk.request(),
            Source::Keyboard => self.console.keyboard.ready_enable.request,
            Source::Printer => self.console.printer.ready_enable.request,
            Source::Reader => self.paper_tape.reader.request,
            Source::Punch => self.paper_tape.punch.ready_enable.request,
        }
    }

    /// Whether any source requests.
    pub fn has_request(&self) -> bool
        ensures { result ≡ has_request self.now }
    {
        self.requests(Source::Clock)
            || self.requests(Source::Disk)
            || self.requests(Source::Keyboard)
            || self.requests(Source::Printer)
            || self.requests(Source::Reader)
            || self.requests(Source::Punch)
    }

    /// The source that is served first, of those that request with a level above the priority, if
    /// there is one: the highest level, and at one level the order keyboard, printer, reader, punch
    /// [6.102] [6.103] [6.104] [6.105].
    #[cold]
    #[inline(never)]
    #[tactic(auto, unfolding(crate::specs::chosen_source), using(crate::proofs::Rules::choices))]
    pub fn choose(&self, priority: Priority) -> Option<Source>
        ensures { result ≡ chosen_source priority self.now }
    {
        self.above(Source::Clock, priority)
            .or(self.above(Source::Disk, priority))
            .or(self.above(Source::Keyboard, priority))
            .or(self.above(Source::Printer, priority))
            .or(self.above(Source::Reader, priority))
            .or(self.above(Source::Punch, priority))
    }

    /// The source, if it requests with a level above the priority.
    fn above(&self, source: Source, priority: Priority) -> Option<Source>
        ensures { result ≡ alone_above (requests self.now) priority source }
    {
        if self.requests(source) && source.level().is_above(priority) {
            Some(source)
        } else {
            None
        }
    }

    /// The source's request is served: that request goes.
    #[tactic(auto, unfolding(crate::specs::Handbook::Source::io_page_served))]
    pub fn serve(&mut self, source: Source)
        ensures { self.new ≡ io_page_served source self.old }
    {
        match source {
            Source::Clock => self.clock.serve(),
            Source::Disk => self.disk.serve(),
            Source::Keyboard => self.console.serve_keyboard(),
            Source::Printer => self.console.serve_printer(),
            Source::Reader => self.paper_tape.serve_reader(),
            Source::Punch => self.paper_tape.serve_punch(),
        }
    }
}
