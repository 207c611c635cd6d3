ghost use Rattle.std.specs.Prelude.{◌≡◌};
ghost use Rattle.pdp_session.specs.Grammar.Events.{event_alone, event_with, event_of};
ghost use Rattle.pdp_session.specs.Grammar.Words.{words_of_line};

use super::arguments::{read_byte, read_word};
use super::words::next_word;
use pdp_replay::Event;

/// The event that a text's words name, if they name one.
pub fn read_event(text: &[u8]) -> Option<Event>
    ensures { result ≡ event_of (words_of_line text.now) }
{
    let (name, rest) = next_word(text)?;
    match next_word(rest) {
        None => event_alone(name),
        Some((number, rest)) => {
            if next_word(rest).is_some() {
                return None;
            }
            event_with(name, number)
        }
    }
}

/// An event that is a name alone.
#[tactic(auto, unfolding(crate::specs::Grammar::Events::event_alone))]
fn event_alone(name: &[u8]) -> Option<Event>
    ensures { result ≡ event_alone name.now }
{
    if name == b"tick".as_slice() {
        Some(Event::Tick)
    } else if name == b"printer".as_slice() {
        Some(Event::PrinterDone)
    } else if name == b"reader".as_slice() {
        Some(Event::ReaderDone)
    } else if name == b"punch".as_slice() {
        Some(Event::PunchDone)
    } else if name == b"disk".as_slice() {
        Some(Event::DiskDone)
    } else if name == b"continue".as_slice() {
        Some(Event::Continue)
    } else {
        None
    }
}

/// An event that is a name and a number.
#[tactic(auto, unfolding(crate::specs::Grammar::Events::event_with))]
fn event_with(name: &[u8], number: &[u8]) -> Option<Event>
    ensures { result ≡ event_with name.now number.now }
{
    if name == b"key".as_slice() {
        Some(Event::Key(read_byte(number)?))
    } else if name == b"switches".as_slice() {
        Some(Event::Switches(read_word(number)?))
    } else {
        None
    }
}
