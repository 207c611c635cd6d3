//! What is kept of a run that an edit of its past ended.

ghost use Rattle.std.specs.Prelude.{◌≡◌, ◌<◌, ◌≤◌, ◌++◌, ◌∷◌, [], IfSome, List, option_map};
ghost use Rattle.pdp_checkpoint.specs.Formers.{former_edited, with_states, IsFirstFrom, IsLastBy};
ghost use Rattle.pdp_checkpoint.specs.declared.checkpoint.Checkpoint.{Checkpoint};

use crate::checkpoint::Checkpoint;
use pdp_cpu::SavedOutput;
use std::alloc::Global;
use std::marker::Model;

/// A run that an edit of its past ended: states of it, what came out of it with its first touches,
/// the greatest turn whose events edits may have changed since, and up to which turn it was known.
/// If a run of the past now comes to one of these states after that turn, it goes on as this run
/// did.
#[derive(Drop)]
pub struct Former {
    // Checkpoints, and states between them.
    kept: Vec<Checkpoint>,
    near: Vec<Checkpoint>,
    output: SavedOutput,
    edited: u32,
    known: u32,

    // Each former run of a ladder has another number, from 1 on; 0 outside of a ladder. No contract
    // sees it.
    number: u64,
}

impl Model for Former {
    ghost use Rattle.std.specs.Prelude.{◌++◌};
    ghost use Rattle.pdp_checkpoint.specs.Formers.{FormerData};

    ghost Value = { FormerData };

    ghost view = { λ f. record {
      states = f.kept.items ++ f.near.items;
      output = f.output;
      edited = f.edited;
      known = f.known;
    } };
}

impl Former {
    /// A former run without states. It takes no memory.
    pub fn new(alloc: Global, output: SavedOutput, edited: u32, known: u32) -> Former
        ensures { result ≡ record {
          states = [];
          output = output;
          edited = edited;
          known = known;
        } }
    {
        Former {
            kept: Vec::new(alloc),
            near: Vec::new(alloc),
            output,
            edited,
            known,
            number: 0,
        }
    }

    /// What came out of the run, and its first touches.
    pub fn output(&self) -> &SavedOutput
        ensures { result.now ≡ self.now.output }
    {
        &self.output
    }

    /// The greatest turn whose events edits may have changed since.
    pub fn edited(&self) -> u32
        ensures { result ≡ self.now.edited }
    {
        self.edited
    }

    /// Up to which turn the run was known.
    pub fn known(&self) -> u32
        ensures { result ≡ self.now.known }
    {
        self.known
    }

    /// An edit may have changed the events of turns up to this one.
    pub fn edit(&mut self, turn: u32)
        ensures { self.new ≡ former_edited turn self.old }
    {
        self.edited = self.edited.max(turn);
    }

    /// Its number in a ladder.
    pub(crate) fn number(&self) -> u64 {
        self.number
    }

    /// The run under this number, with these states: checkpoints, and states between them.
    pub(crate) fn with_states(
        self,
        kept: Vec<Checkpoint>,
        near: Vec<Checkpoint>,
        number: u64,
    ) -> Former
        ensures { result ≡ with_states (kept.items ++ near.items) self }
    {
        Former {
            kept,
            near,
            number,
            ..self
        }
    }

    /// The state of the greatest turn that is not above `turn`; None if there is none.
    pub fn last_by(&self, turn: u32) -> Option<&Checkpoint>
        ensures { IsLastBy self.now.states turn (option_map (λ c. c.now) result) }
    {
        last_of(&self.near, turn, last_of(&self.kept, turn, None))
    }

    /// The least turn from `turn` on of which there is a state; None if there is none.
    pub fn first_from(&self, turn: u32) -> Option<u32>
        ensures { IsFirstFrom self.now.states turn result }
    {
        first_of(&self.near, turn, first_of(&self.kept, turn, None))
    }

    /// The least turn from `from` on of which there is a state, and after which no event was edited
    /// since; None if there is none.
    pub(crate) fn meeting(&self, from: u32) -> Option<u32>
        ensures { IfSome result (λ turn. from ≤ turn) }
    {
        self.first_from(from.max(self.edited.saturating_add(1)))
    }
}

/// The state of the greatest turn that is not above `turn`, of these states and of others, of which
/// `last` is the one.
fn last_of<'a>(
    states: &'a [Checkpoint],
    turn: u32,
    last: Option<&'a Checkpoint>,
) -> Option<&'a Checkpoint>
    ensures { (others : List Checkpoint) → IsLastBy others turn (option_map (λ c. c.now) last.entry)
        → IsLastBy (others ++ states.now) turn (option_map (λ c. c.now) result) }
{
    let mut last = last;
    for state in states {
        last = later(last, state, turn);
    }
    last
}

/// The least turn that is not below `turn`, of these states and of others, of which `first` is the
/// one.
fn first_of(states: &[Checkpoint], turn: u32, first: Option<u32>) -> Option<u32>
    ensures { (others : List Checkpoint) → IsFirstFrom others turn first
        → IsFirstFrom (others ++ states.now) turn result }
{
    let mut first = first;
    for state in states {
        first = earlier(first, state.turn, turn);
    }
    first
}

/// The later of two states that are not above `turn`.
fn later<'a>(
    last: Option<&'a Checkpoint>,
    state: &'a Checkpoint,
    turn: u32,
) -> Option<&'a Checkpoint>
    ensures { (states : List Checkpoint) → IsLastBy states turn (option_map (λ c. c.now) last.entry)
        → IsLastBy (states ++ state.now ∷ []) turn (option_map (λ c. c.now) result) }
{
    if state.turn > turn {
        return last;
    }
    match last {
        Some(other) => if other.turn < state.turn {
            Some(state)
        } else {
            Some(other)
        },
        None => Some(state),
    }
}

/// The earlier of two turns that are not below `turn`.
fn earlier(first: Option<u32>, other: u32, turn: u32) -> Option<u32>
    ensures { (states : List Checkpoint) (state : Checkpoint) → state.turn ≡ other
        → IsFirstFrom states turn first → IsFirstFrom (states ++ state ∷ []) turn result }
{
    if other < turn {
        return first;
    }
    match first {
        Some(least) => Some(least.min(other)),
        None => Some(other),
    }
}
