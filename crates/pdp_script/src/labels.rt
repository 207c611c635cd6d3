ghost use Rattle.std.specs.Prelude.{◌≡◌, ◌↔◌, ℕ, ◌<◌, ◌≤◌, length, map, true, IfOk, IsErr};
ghost use Rattle.std.specs.Prelude.{MatchOption, vec_capacity, vec_len};
ghost use Rattle.std.specs.List.{All, AllWithin};
ghost use Rattle.pdp_script.specs.Entries.{without};
ghost use Rattle.pdp_script.specs.Labels.{IsFirstOf, IsInOrder, PutsLast, labelled_entries};
ghost use Rattle.pdp_script.specs.Restore.{placed_entry, put_back};

use crate::entry::Entry;
use pdp_unibus::Event;
use pdp_word::NoMemory;

/// The number and the turn of an event of the script.
#[derive(Clone, Copy)]
pub struct Label {
    pub number: u32,
    pub turn: u32,
}

/// The place of the first label whose turn isn't below `turn`, or the number of labels.
pub fn index_from(labels: &[Label], turn: u32) -> usize
    requires { IsInOrder labels.now }
    ensures within { result ≤ length labels.now }
    ensures before { AllWithin (λ (s : Label). s.turn < turn) labels.now 0 result }
    ensures after { AllWithin (λ (s : Label). turn ≤ s.turn) labels.now result (length labels.now) }
{
    labels.partition_point(|label| label.turn < turn)
}

/// The place of the first label of a turn above `turn`, or the number of labels.
pub fn index_after(labels: &[Label], turn: u32) -> usize
    requires { IsInOrder labels.now }
    ensures within { result ≤ length labels.now }
    ensures before { AllWithin (λ (s : Label). s.turn ≤ turn) labels.now 0 result }
    ensures after { AllWithin (λ (s : Label). turn < s.turn) labels.now result (length labels.now) }
{
    labels.partition_point(|label| label.turn <= turn)
}

/// The place of the first label of this number.
pub fn index_of(labels: &[Label], number: u32) -> Option<usize>
    ensures { MatchOption result (All (λ (s : Label). s.number ≡ number → ⊥) labels.now)
        (IsFirstOf labels.now number) }
{
    labels.iter().position(|label| label.number == number)
}

/// Whether these labels have the same turns, in the same order.
pub fn are_same_turns(some: &[Label], other: &[Label]) -> bool
    ensures { (result ≡ true) ↔ (map (λ (s : Label). s.turn) some.now
        ≡ map (λ (s : Label). s.turn) other.now) }
{
    if some.len() != other.len() {
        return false;
    }
    for (index, label) in some.iter().enumerate() {
        if label.turn != other[index].turn {
            return false;
        }
    }
    true
}

/// Whether these are the same events, in the same order.
pub fn are_same_events(some: &[Event], other: &[Event]) -> bool
    ensures { (result ≡ true) ↔ (some.now ≡ other.now) }
{
    if some.len() != other.len() {
        return false;
    }
    for (index, event) in some.iter().enumerate() {
        if !event.is_same(&other[index]) {
            return false;
        }
    }
    true
}

/// Puts an event last among its turn's.
///
/// Err(NoMemory) if memory was refused; labels and events are then as they were.
pub fn insert_last(
    labels: &mut Vec<Label>,
    events: &mut Vec<Event>,
    label: Label,
    event: Event,
) -> Result<(), NoMemory>
    requires in_step { length labels.old.items ≡ length events.old.items }
    requires ordered { IsInOrder labels.old.items }
    ensures put { IfOk result (λ _. PutsLast labels.old.items events.old.items label event
        labels.new.items events.new.items) }
    ensures same_labels { IsErr result → labels.new.items ≡ labels.old.items }
    ensures same_events { IsErr result → events.new.items ≡ events.old.items }
{
    labels.reserve(1)?;
    events.reserve(1)?;
    put_last(labels, events, label, event);
    Ok(())
}

/// Puts an event last among its turn's, in the room that is there.
pub fn put_last(labels: &mut Vec<Label>, events: &mut Vec<Event>, label: Label, event: Event)
    requires in_step { length labels.old.items ≡ length events.old.items }
    requires ordered { IsInOrder labels.old.items }
    requires labels_room { vec_len labels.old < vec_capacity labels.old }
    requires events_room { vec_len events.old < vec_capacity events.old }
    ensures { PutsLast labels.old.items events.old.items label event labels.new.items
        events.new.items }
{
    let index = index_after(labels, label.turn);
    labels.insert(index, label).unwrap();
    events.insert(index, event).unwrap();
}

/// The place of the first label of this number, with its entry.
pub fn placed(labels: &[Label], events: &[Event], number: u32) -> Option<(usize, Entry)>
    requires in_step { length labels.now ≡ length events.now }
    ensures { result ≡ placed_entry (labelled_entries labels.now events.now) number }
{
    let Some(place) = index_of(labels, number) else {
        return None;
    };
    let entry = Entry {
        number: labels[place].number,
        turn: labels[place].turn,
        event: events[place],
    };
    Some((place, entry))
}

/// Takes the first entry of this number out, if there is one.
pub fn take_out(labels: &mut Vec<Label>, events: &mut Vec<Event>, number: u32)
    requires in_step { length labels.old.items ≡ length events.old.items }
    requires labels_room { vec_len labels.old < vec_capacity labels.old }
    requires events_room { vec_len events.old < vec_capacity events.old }
    ensures entries { labelled_entries labels.new.items events.new.items
        ≡ without (labelled_entries labels.old.items events.old.items) number }
    ensures in_step { length labels.new.items ≡ length events.new.items }
    ensures labels_room { vec_len labels.new < vec_capacity labels.new }
    ensures events_room { vec_len events.new < vec_capacity events.new }
{
    let Some(place) = index_of(labels, number) else {
        return;
    };
    labels.remove(place);
    events.remove(place);
}

/// Puts an entry at its place again, if there was one, in the room that is there.
pub fn put_in(labels: &mut Vec<Label>, events: &mut Vec<Event>, was: Option<(usize, Entry)>)
    requires in_step { length labels.old.items ≡ length events.old.items }
    requires labels_room { vec_len labels.old < vec_capacity labels.old }
    requires events_room { vec_len events.old < vec_capacity events.old }
    ensures entries { labelled_entries labels.new.items events.new.items
        ≡ put_back was (labelled_entries labels.old.items events.old.items) }
    ensures in_step { length labels.new.items ≡ length events.new.items }
{
    let Some((place, entry)) = was else {
        return;
    };
    let label = Label {
        number: entry.number,
        turn: entry.turn,
    };
    let place = place.min(labels.len());
    labels.insert(place, label).unwrap();
    events.insert(place, entry.event).unwrap();
}
