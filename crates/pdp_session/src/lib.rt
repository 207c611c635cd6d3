//! The session: lines of commands in, lines of replies out. It stands on pdp_replay, whose engine
//! it calls for each command and each search, on pdp_word for the numbers of lines and replies, on
//! arrayvec and itoa for their text, and on byteorder for the words of images.
//!
//! # What is proved
//!
//! - **From bytes to bytes**: what [`run`] writes is the defined replies to the lines that were
//!   read, events, texts, trails and lists of patches among them, also if the reader or the writer
//!   fails.
//! - **In two languages**: so in the session language, and in the search language, which has
//!   searches besides. Every line of the session language is answered with the same bytes in both
//!   ([`session_lines_are_kept`]).
//! - The words of an image are those of its bytes, two a word, the low one first, or the image is
//!   refused ([`read_image`]).
//!
//! # What is only tested
//!
//! - That a session with ample memory is not refused for memory; each request for memory refused in
//!   turn, on the built program.
//!
//! What a command means for the machine is left to the engine; where bytes come from and go to, to
//! [`Feed`] and [`Drain`].
#![tactic(auto)]

mod command;
mod edit;
mod grammar;
mod history;
mod image;
mod laws;
mod lines;
mod reply;
mod search;
mod session;
mod streams;
mod version;

pub use image::read_image;
pub use laws::session_lines_are_kept;
pub use pdp_replay::{
    Act, Agent, Bytes, DelayedDevice, DeviceRegisters, Engine, Event, Fault, LastWrite,
    PageRegisters, Patch, Question, Regs, RunState, Setup, Trail, TrailEntry, Value, Words,
    core_words_are_first_words, some_edits_need_no_memory, texts_only_grow,
};
pub use pdp_script::Script;
pub use session::run;
pub use streams::{Drain, Failed, Feed, FromRead, ToWrite};
