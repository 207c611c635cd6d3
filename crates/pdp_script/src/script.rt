ghost use Rattle.std.specs.Prelude.{◌≡◌, ◌↔◌, ℕ, ◌+◌, [], IfOk, MatchOption, Option, true};
ghost use Rattle.std.specs.Prelude.{◌≤◌, cond, false, is_err, nat_lt, Err, Ok, OnOk};
ghost use Rattle.pdp_script.specs.Entries.{entry_of, events_at, events_from, turn_from};
ghost use Rattle.pdp_script.specs.Entries.{DifferLastFrom};
ghost use Rattle.pdp_script.specs.Entries.{IsNextTurn};
ghost use Rattle.pdp_script.specs.Refusal.{edit_answer, for_memory, past_left};
ghost use Rattle.pdp_script.specs.Refusal.{question_answer, result_map};
ghost use Rattle.pdp_script.specs.Script.{insert_edit, insert_answer, alter_edit, drop_edit};
ghost use Rattle.pdp_script.specs.Script.{first_turn_of_edit, script_edited, IsScript};
ghost use Rattle.pdp_script.specs.Restore.{event_before, script_restored, turn_before};
ghost use Rattle.std.specs.Option.{option_map};

use crate::entry::Entry;
use crate::faults::Fault;
use crate::labels::{
    Label, are_same_events, are_same_turns, index_after, index_from, index_of, insert_last, placed,
    put_in, put_last, take_out,
};
use pdp_unibus::{Event, LAST_TURN};
use pdp_word::NoMemory;
use std::alloc::Global;
use std::marker::Model;

/// How many events a script may have at a time [P].
pub const MOST_EVENTS: usize = 65_536;

/// An edit of a script, as something that could be done [P].
#[derive(Clone, Copy)]
pub enum ScriptEdit {
    /// An event is added, as by [`Script::insert`].
    Insert {
        turn: u32,
        event: Event,
    },
    /// An event gets another turn and event, as by [`Script::alter`].
    Alter {
        number: u32,
        turn: u32,
        event: Event,
    },
    /// An event is taken out, as by [`Script::drop_event`].
    Drop {
        number: u32,
    },
}

/// What a script has of the number of an event: the event with its place among all, if there is
/// one, and how many numbers were given. From before an edit it takes the edit back, and from after
/// the edit it makes the edit again [P].
#[derive(Clone, Copy)]
pub struct EventBefore {
    /// The number.
    pub number: u32,
    /// The place of its event among all, counted from 0, with the event.
    pub was: Option<(usize, Entry)>,
    /// How many numbers were given.
    pub given: u32,
}

impl EventBefore {
    /// The turn of its event, if there is one.
    pub fn turn(&self) -> Option<u32>
        ensures { result ≡ turn_before self.now }
    {
        match self.was {
            Some((_, entry)) => Some(entry.turn),
            None => None,
        }
    }
}

/// What happens to the machine from outside: events in the order of their turns, each under a
/// number of its own [P].
#[derive(Drop)]
pub struct Script {
    labels: Vec<Label>,
    events: Vec<Event>,
    given: u32,
}

impl Model for Script {
    ghost use Rattle.pdp_script.specs.Script.{ScriptData};

    ghost Value = { ScriptData };

    ghost use Rattle.pdp_script.specs.Labels.{labelled_entries, IsKept};

    ghost view = { λ s. record {
      entries = labelled_entries s.labels.items s.events.items;
      given =
          s.given;
    } };

    ghost invariant = { λ s. IsKept s.labels.items s.events.items s.given };
}

impl Script {
    /// A script with no events, of which no number was given. It takes no memory.
    pub fn new(alloc: Global) -> Self
        ensures empty { result.entries ≡ [] }
        ensures none_given { result.given ≡ 0 }
    {
        Script {
            labels: Vec::new(alloc),
            events: Vec::new(alloc),
            given: 0,
        }
    }

    /// The events of this turn, in their order. It takes no memory.
    pub fn at(&self, turn: u32) -> &[Event]
        ensures events { result.now ≡ events_at self.now.entries turn }
        ensures kept { IsScript self.now }
    {
        let from = index_from(&self.labels, turn);
        let to = index_after(&self.labels, turn);
        &self.events[from..to]
    }

    /// All events with their numbers and turns, in the order in which they happen.
    ///
    /// # Errors
    ///
    /// `NoMemory` if memory was refused.
    pub fn entries(&self, alloc: Global) -> Result<Vec<Entry>, NoMemory>
        ensures { IfOk result (λ entries. entries.items ≡ self.now.entries) }
    {
        let mut entries = Vec::new(alloc);
        for index in 0..self.labels.len() {
            let Label { number, turn } = self.labels[index];
            entries.push(Entry {
                number,
                turn,
                event: self.events[index],
            })?;
        }
        Ok(entries)
    }

    /// A copy of the script, with the same numbers.
    ///
    /// # Errors
    ///
    /// `NoMemory` if memory was refused.
    pub fn copy(&self, alloc: Global) -> Result<Script, NoMemory>
        ensures { IfOk result (λ copy. copy ≡ self.now) }
    {
        Ok(Script {
            labels: self.labels.to_vec(alloc)?,
            events: self.events.to_vec(alloc)?,
            given: self.given,
        })
    }

    /// The script as an edit would leave it; this one stays.
    ///
    /// # Errors
    ///
    /// Those of the edit, in its order; `NoMemory` if memory was refused.
    pub fn edited(&self, alloc: Global, edit: ScriptEdit) -> Result<Script, Fault>
        ensures { result ≡ question_answer (script_edited edit self.now) (for_memory result) }
    {
        self.check(edit)?;
        let mut copy = self.copy(alloc)?;
        match edit {
            ScriptEdit::Insert { turn, event } => {
                copy.insert(turn, event)?;
            }
            ScriptEdit::Alter {
                number,
                turn,
                event,
            } => copy.alter(number, turn, event)?,
            ScriptEdit::Drop { number } => copy.drop_event(number)?,
        }
        Ok(copy)
    }

    /// The least turn whose events an edit could change: that of its event, before or after it. It
    /// takes no memory.
    pub fn first_turn_of(&self, edit: ScriptEdit) -> u32
        ensures { result ≡ first_turn_of_edit edit self.now }
    {
        match edit {
            ScriptEdit::Insert { turn, .. } => turn,
            ScriptEdit::Alter { number, turn, .. } => self
                .turn_of(number)
                .unwrap_or(turn)
                .min(turn),
            ScriptEdit::Drop { number } => self.turn_of(number).unwrap_or(0),
        }
    }

    /// Whether an edit could be done, memory allowing. It takes no memory.
    ///
    /// # Errors
    ///
    /// Those of the edit, except for `NoMemory`.
    pub fn check(&self, edit: ScriptEdit) -> Result<(), Fault>
        ensures { result ≡ result_map (λ _. tt) (script_edited edit self.now) }
    {
        match edit {
            ScriptEdit::Insert { turn, .. } => self.check_insert(turn),
            ScriptEdit::Alter { number, turn, .. } => {
                check_turn(turn)?;
                self.check_number(number)
            }
            ScriptEdit::Drop { number } => self.check_number(number),
        }
    }

    /// Whether an event can be added at a turn, memory allowing.
    ///
    /// Err as that of `insert`.
    fn check_insert(&self, turn: u32) -> Result<(), Fault>
        ensures { (event : Event)
            → result ≡ result_map (λ _. tt) (insert_edit turn event self.now) }
    {
        check_turn(turn)?;
        if self.events.len() >= MOST_EVENTS || self.given == u32::MAX {
            return Err(Fault::ScriptFull);
        }
        Ok(())
    }

    /// Whether there is an event of this number.
    ///
    /// Err(NoSuchEvent) if there is none.
    fn check_number(&self, number: u32) -> Result<(), Fault>
        ensures { result ≡ result_map (λ _. tt) (drop_edit number self.now) }
    {
        match self.turn_of(number) {
            Some(_) => Ok(()),
            None => Err(Fault::NoSuchEvent),
        }
    }

    /// Whether both scripts have the same events in turn `from` and in later turns, in the same
    /// order; their numbers may differ. It takes no memory.
    pub fn has_events_of(&self, other: &Script, from: u32) -> bool
        ensures same { (result ≡ true)
            ↔ (events_from self.now.entries from ≡ events_from other.now.entries from) }
        ensures kept { IsScript self.now }
        ensures other_kept { IsScript other.now }
    {
        let (mine, theirs) = (
            index_from(&self.labels, from),
            index_from(&other.labels, from),
        );
        let (_, labels) = self.labels.split_at(mine);
        let (_, other_labels) = other.labels.split_at(theirs);
        let (_, events) = self.events.split_at(mine);
        let (_, other_events) = other.events.split_at(theirs);
        are_same_turns(labels, other_labels) && are_same_events(events, other_events)
    }

    /// The greatest turn from which on the scripts have different events; None if they have the
    /// same in all turns. It takes no memory.
    pub fn last_difference(&self, other: &Script) -> Option<u32>
        ensures { MatchOption result
            (events_from self.now.entries 0 ≡ events_from other.now.entries 0)
            (DifferLastFrom self.now.entries other.now.entries) }
    {
        if self.has_events_of(other, 0) {
            return None;
        }
        let (mut different, mut same) = (0, LAST_TURN + 1);
        while same - different > 1 {
            let middle = different + (same - different) / 2;
            if self.has_events_of(other, middle) {
                same = middle;
            } else {
                different = middle;
            }
        }
        Some(different)
    }

    /// The turn of the event of this number, if it is there.
    pub fn turn_of(&self, number: u32) -> Option<u32>
        ensures turn { result ≡ option_map (λ e. e.turn) (entry_of self.now.entries number) }
        ensures kept { IsScript self.now }
    {
        let Some(index) = index_of(&self.labels, number) else {
            return None;
        };
        Some(self.labels[index].turn)
    }

    /// The least turn of an event that is not below `from`, if there is one.
    pub fn next_turn(&self, from: u32) -> Option<u32>
        ensures turn { result ≡ turn_from self.now.entries from }
        ensures least { IsNextTurn self.now.entries from result }
        ensures kept { IsScript self.now }
    {
        let first = index_from(&self.labels, from);
        if first < self.labels.len() {
            Some(self.labels[first].turn)
        } else {
            None
        }
    }

    /// Adds an event at a turn, last among those of the turn, and answers its number: one more than
    /// the last that was given, 1 at first.
    ///
    /// # Errors
    ///
    /// In this order: `TurnTooLarge` at a turn above 1,000,000,000; `ScriptFull` if 65,536 events
    /// are there, or 4,294,967,295 numbers were given; `NoMemory` if memory was refused. The script
    /// is then as it was, and no number is used up.
    pub fn insert(&mut self, turn: u32, event: Event) -> Result<u32, Fault>
        ensures answer { result ≡ insert_answer turn event (for_memory result) self.old }
        ensures after { self.new ≡ past_left (insert_edit turn event self.old)
            (for_memory result) self.old }
    {
        if turn > LAST_TURN {
            return Err(Fault::TurnTooLarge);
        }
        if self.events.len() >= MOST_EVENTS || self.given == u32::MAX {
            return Err(Fault::ScriptFull);
        }
        let number = self.given + 1;
        let label = Label { number, turn };
        insert_last(&mut self.labels, &mut self.events, label, event)?;
        self.given = number;
        Ok(number)
    }

    /// Takes the event of this number out of the script. Its number is never given again. It takes
    /// no memory.
    ///
    /// # Errors
    ///
    /// `NoSuchEvent` if no event has this number. The script is then as it was.
    pub fn drop_event(&mut self, number: u32) -> Result<(), Fault>
        ensures answer { result ≡ edit_answer (drop_edit number self.old) false tt }
        ensures after { self.new ≡ past_left (drop_edit number self.old) false self.old }
    {
        let Some(dropped) = index_of(&self.labels, number) else {
            return Err(Fault::NoSuchEvent);
        };
        self.labels.remove(dropped);
        self.events.remove(dropped);
        Ok(())
    }

    /// Gives the event of this number another turn and event. At the same turn it keeps its place;
    /// at another it goes last among those of the turn. It takes no memory.
    ///
    /// # Errors
    ///
    /// In this order: `TurnTooLarge` at a turn above 1,000,000,000; `NoSuchEvent` if no event has
    /// this number. The script is then as it was.
    pub fn alter(&mut self, number: u32, turn: u32, event: Event) -> Result<(), Fault>
        ensures answer { result ≡ edit_answer (alter_edit number turn event self.old) false tt }
        ensures after { self.new
            ≡ past_left (alter_edit number turn event self.old) false self.old }
    {
        if turn > LAST_TURN {
            return Err(Fault::TurnTooLarge);
        }
        let Some(index) = index_of(&self.labels, number) else {
            return Err(Fault::NoSuchEvent);
        };
        if self.labels[index].turn == turn {
            self.events[index] = event;
        } else {
            self.labels.remove(index);
            self.events.remove(index);
            put_last(
                &mut self.labels,
                &mut self.events,
                Label { number, turn },
                event,
            );
        }
        Ok(())
    }

    /// What the script has of this number. It takes no memory.
    pub fn before(&self, number: u32) -> EventBefore
        ensures before { result ≡ event_before number self.now }
        ensures kept { IsScript self.now }
    {
        EventBefore {
            number,
            was: placed(&self.labels, &self.events, number),
            given: self.given,
        }
    }

    /// Gives the script back what it had of a number: the event at its place, or none, and how many
    /// numbers were given.
    ///
    /// # Errors
    ///
    /// `NoMemory` if memory was refused. The script is then as it was.
    pub fn restore(&mut self, before: EventBefore) -> Result<(), NoMemory>
        requires { IsScript (script_restored before self.old) }
        ensures { self.new ≡ cond (is_err result) self.old (script_restored before self.old) }
    {
        self.labels.reserve(1)?;
        self.events.reserve(1)?;
        take_out(&mut self.labels, &mut self.events, before.number);
        put_in(&mut self.labels, &mut self.events, before.was);
        self.given = before.given;
        Ok(())
    }
}

/// Whether events can have this turn.
///
/// Err(TurnTooLarge) if it is above 1,000,000,000.
fn check_turn(turn: u32) -> Result<(), Fault>
    ensures refusal { result ≡ cond (nat_lt LAST_TURN turn) (Err Fault.TurnTooLarge) (Ok tt) }
    ensures within { OnOk result (turn ≤ LAST_TURN) }
{
    if turn > LAST_TURN {
        return Err(Fault::TurnTooLarge);
    }
    Ok(())
}
