//! The searches of the search language, and what they find.

ghost use Rattle.std.specs.Prelude.{◌≡◌};
ghost use Rattle.pdp_script.specs.Refusal.{for_memory, question_answer};
ghost use Rattle.pdp_session.specs.Search.{search_result};

mod found_list;

use crate::version::Version;
pub use found_list::FoundList;
use pdp_replay::{
    Bytes, CountedWords, DiskCompletion, Engine, Entry, Fault, LastWrite, MoveDetail, PastEdit,
    Question, SetupNumbers, Sought, TextKind, TurnDetail, Value, WordRead,
};
use std::alloc::Global;

/// A search of the run. If it has two turns, it looks at the turns from the first on and before the
/// second.
#[derive(Clone, Copy)]
pub enum Search {
    // The first turn that is sought.
    First {
        from: u32,
        to: u32,
        sought: Sought,
    },
    // The last turn that is sought.
    Latest {
        from: u32,
        to: u32,
        sought: Sought,
    },
    // The writes to the word of core at an address.
    Writes {
        from: u32,
        to: u32,
        address: u32,
    },
    // The reads of the word of core at an address.
    Reads {
        from: u32,
        to: u32,
        address: u32,
    },
    // What the last turns before a turn have in them.
    Accesses {
        turn: u32,
        count: u32,
    },
    // The moves of the last turns before a turn.
    Moves {
        turn: u32,
        count: u32,
    },
    // The functions of the disk that were completed.
    Transfers {
        from: u32,
        to: u32,
    },
    // The first turn that changes a word of a drive.
    Change {
        from: u32,
        to: u32,
        drive: u8,
        number: u32,
    },
    // The bytes printed or punched before a turn, from one of them on, counted from 0.
    TextFrom {
        kind: TextKind,
        turn: u32,
        first: u32,
    },
    // The turn in which a byte was printed, counted from 0.
    When {
        number: u32,
    },
    // The turn, up to one, from which on an edit would change nothing.
    Fades {
        to: u32,
        edit: PastEdit,
    },
    // A question that the session language doesn't have.
    Ask(Question),
    // How many turns began an instruction at each of some words.
    Counts {
        from: u32,
        to: u32,
        words: CountedWords,
    },
    // The events of the script.
    Events,
    // The numbers of the setup.
    Setup,
}

/// What a search found.
#[derive(Drop)]
pub enum Finding {
    First(Option<u32>),
    Latest(Option<u32>),
    // The first writes, and whether turns were left that may have more.
    Writes(FoundList<LastWrite>, bool),
    // The first reads, and whether turns were left that may have more.
    Reads(FoundList<WordRead>, bool),
    // What the first of the turns have in them, and whether turns were left.
    Accesses(FoundList<TurnDetail>, bool),
    // The moves of all the turns.
    Moves(FoundList<MoveDetail>),
    // The first completions of the disk, and whether turns were left that may have more.
    Transfers(FoundList<DiskCompletion>, bool),
    Change(Option<u32>),
    TextFrom(TextKind, Bytes),
    When(Option<u32>),
    Fades(Option<u32>),
    Answer(Value),
    Counts(FoundList<u32>),
    Events(FoundList<Entry>),
    Setup(Version, SetupNumbers),
}

impl Search {
    /// What the search finds in the run of the past as it is.
    pub fn run(self, alloc: Global, engine: &mut Engine) -> Result<Finding, Fault>
        ensures finding { result
            ≡ question_answer (search_result self engine.old.past) (for_memory result) }
        ensures past { engine.new.past ≡ engine.old.past }
    {
        match self {
            Search::First { from, to, sought } => {
                Ok(Finding::First(engine.first_at(alloc, sought, from, to)?.value))
            }
            Search::Latest { from, to, sought } => {
                Ok(Finding::Latest(engine.last_at(alloc, sought, from, to)?.value))
            }
            Search::Writes { from, to, address } => {
                let found = engine.writes(alloc, address, from, to)?;
                let more = found.value.reached < to;
                Ok(Finding::Writes(FoundList::new(found.value.writes), more))
            }
            Search::Reads { from, to, address } => {
                let found = engine.reads(alloc, address, from, to)?;
                let more = found.value.reached < to;
                Ok(Finding::Reads(FoundList::new(found.value.reads), more))
            }
            Search::Accesses { turn, count } => {
                let found = engine.accesses(alloc, turn, count)?;
                let more = found.value.reached < turn;
                Ok(Finding::Accesses(FoundList::new(found.value.details), more))
            }
            Search::Moves { turn, count } => {
                let found = engine.moves(alloc, turn, count)?;
                Ok(Finding::Moves(FoundList::new(found.value)))
            }
            Search::Transfers { from, to } => {
                let found = engine.disk_completions(alloc, from, to)?;
                let more = found.value.reached < to;
                Ok(Finding::Transfers(FoundList::new(found.value.completions), more))
            }
            Search::Change {
                from,
                to,
                drive,
                number,
            } => { Ok(Finding::Change(engine.next_change(alloc, drive, number, from, to)?.value)) }
            Search::TextFrom { kind, turn, first } => {
                Ok(Finding::TextFrom(kind, engine.text_from(alloc, kind, turn, first)?.value))
            }
            Search::When { number } => {
                Ok(Finding::When(engine.turn_of_byte(alloc, TextKind::Printed, number)?.value))
            }
            Search::Fades { to, edit } => Ok(Finding::Fades(engine.fades(alloc, edit, to)?.value)),
            Search::Ask(question) => Ok(Finding::Answer(engine.ask(alloc, question)?.value)),
            Search::Counts { from, to, words } => {
                let counted = engine.counts(alloc, words, from, to)?;
                Ok(Finding::Counts(FoundList::new(counted.value)))
            }
            Search::Events => Ok(Finding::Events(FoundList::new(engine.events(alloc)?))),
            Search::Setup => Ok(Finding::Setup(Version::of(engine), engine.setup())),
        }
    }
}
