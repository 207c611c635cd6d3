//! Questions about the run, and their answers: registers, words, bytes, virtual addresses, last
//! writes and trails; and searches of the run.

mod accesses;
mod backwards;
mod counts;
mod disk_change;
mod disk_completions;
mod fading;
mod find_words;
mod items;
mod last_write;
mod moves;
mod patch_fading;
mod question;
mod reads;
mod register_test;
mod search;
mod search_turns;
mod sought;
mod text_part;
mod told;
mod trail;
mod turn_condition;
mod virtual_words;
mod watch;
mod writes;

pub use accesses::{AccessesFound, TurnDetail, TurnHead};
pub use counts::CountedWords;
pub use disk_completions::{CompletionsFound, DiskCompletion, DiskTurn};
pub use find_words::{FoundWords, Numbers, WantedWords, WordPattern};
pub use items::{Bytes, Items, Words};
pub use last_write::LastWrite;
pub use moves::MoveDetail;
pub use question::{Question, Value};
pub use reads::{ReadsFound, WordRead};
pub use sought::Sought;
pub use text_part::TextKind;
pub use told::Told;
pub use trail::{Trail, TrailEntry};
pub use turn_condition::{
    Comparand, MOST_CONDITIONS, Quantity, Relation, TurnCondition, TurnConditions,
};
pub use virtual_words::{Cause, Unreadable, VirtualWords};
pub use writes::Written;
