//! Edits and questions: a setup whose words of core and of the drives, number of drives, tape and
//! delays can be edited, a script of events that can be edited, and the machine's answer about any
//! turn, always as if the edited past had run from power-up. It stands on pdp_script,
//! pdp_checkpoint and pdp_cpu, on what is below these, on indexmap for the patches, and on
//! circular_buffer for trails.
//!
//! # What is proved
//!
//! - **The headline**: an answer of [`Engine::ask`] is that of the run from power-up of the past as
//!   it is, and the turns run for it are bounded, also if it is then refused.
//! - **Valid whatever is kept**: after any edits, questions and refusals the checkpoints are the
//!   run's, at turn 0 and at each multiple of the stride up to the known turn and at no other; the
//!   bytes that are kept are those that came out before the known turn (`kept_states`, `machine`).
//! - A last write is that of the trace of the whole run, and a trail has the run's turns.
//! - A virtual address goes where memory management sends a read, and the word there is the one
//!   that a bus cycle reads (`virtual_words_are_read`). Words that are looked for in core or on a
//!   drive are the first 256 that there are.
//! - **Searches**: [`Engine::first_at`] returns the first turn of the run that is sought, by its
//!   act, by its trap, or by conditions on the state before it, [`Engine::last_at`] the last one,
//!   [`Engine::writes`] the writes to a word of core, [`Engine::reads`] the reads of one,
//!   [`Engine::next_change`] the first turn that changes a word of a drive,
//!   [`Engine::disk_completions`] the functions of the disk that were completed, and
//!   [`Engine::turn_of_byte`] the turn in which a byte was printed or punched, for every past and
//!   whatever is kept. [`Engine::text_from`] returns what was printed or punched before a turn,
//!   from one of its bytes on. [`Engine::accesses`] lists what some turns have in them, with each
//!   cycle of the processor on the bus; those in core are the accesses of the turn's trace after
//!   those of the disk (`logged_cycles_are_traced`). [`Engine::moves`] lists what some turns made
//!   of what, by the rows of pdp_made and pdp_made_run. The turns run for them are bounded, also if
//!   memory is refused: those of `last_at` are the ones from the turn found on and two strides,
//!   where they were known.
//! - **Counts**: [`Engine::counts`] returns for each of some words of virtual addresses how many
//!   turns began an instruction there, in the mode that is given. It runs each of the turns once.
//! - **An edit that fades**: [`Engine::fades`] returns the least turn from which on the run with an
//!   edit of the script, or with a word patched, would be the run as it is: the same state, except
//!   for stamps and what came out, and the same events from then on. Runs that are one so stay one
//!   (`joined_runs_stay_joined`): from that turn on the edit changes no answer, no search, no count
//!   and no list, except for bytes and last writes from before it (`faded_edits_change_no_answer`).
//! - Core and each drive as of power-up have each word's patch, else the word of the image, else 0
//!   (`core_words_are_first_words`, `disk_words_are_first_words`).
//! - Each edit with its refusals in their order, what it leaves, and how far back it lowers the
//!   known turn; no edit runs a turn (`set_core`, `revert_core`, `set_disk`, `use_eight_drives`,
//!   `set_tape`, `set_delay`, `insert`, `alter`, `drop_event`). Patches keep the place in which
//!   they were first given (`patch`, `patch_count`).
//! - What the past had of an event, a word, the tape or the delays can be given back to it, exactly
//!   (`restore_event`, `restore_word`, `restore_tape`, `restore_delays`,
//!   `patches_are_taken_back`), as far back as an edit of it reaches.
//! - A patch of a word lowers the known turn to the first turn that accesses the page of the word,
//!   and no further. Up to there the states of the run differ in that word alone
//!   (`patches_reach_the_first_touch`, `first_touches_are_told`,
//!   `turns_run_again_touch_nothing_new`, `untouched_pages_are_alike`).
//! - Two runs whose states before a turn are equal except for stamps, with the same events from
//!   then on, stay so, and from then on print, punch and access the same (`equal_stays_equal`,
//!   `first_touches_are_taken`). So the saved machines of the one run, with their stamps laid over
//!   those of the other, are those of the other (`saved_machines_are_taken`), and a machine of the
//!   other goes on from them (`adopted_runs_go_on`).
//! - [`Engine::events`] lists the events of the script, [`Engine::setup`] returns the numbers of
//!   the setup, and [`Engine::drive_count`] how many drives there are, as the edits so far left
//!   them.
//! - Alterations and drops of events, and edits of tape and delays, are never refused for memory
//!   (`some_edits_need_no_memory`). Texts only grow from turn to turn (`texts_only_grow`).
//!
//! # What is only tested
//!
//! - That calls with ample memory are not refused for memory.
//!
//! Nothing is said of seconds: `bench/` measures them. Lines of text are left to pdp_session.
#![tactic(auto)]

mod ask;
mod engine;
mod laws;
mod past;
mod run;

pub use ask::{
    AccessesFound, Bytes, Cause, Comparand, CompletionsFound, CountedWords, DiskCompletion,
    DiskTurn, FoundWords, Items, LastWrite, MOST_CONDITIONS, MoveDetail, Numbers, Quantity,
    Question, ReadsFound, Relation, Sought, TextKind, Told, Trail, TrailEntry, TurnCondition,
    TurnConditions, TurnDetail, TurnHead, Unreadable, Value, VirtualWords, WantedWords,
    WordPattern, WordRead, Words, Written,
};
pub use engine::Engine;
pub use laws::{
    adopted_runs_go_on, core_words_are_first_words, disk_words_are_first_words, equal_stays_equal,
    faded_edits_change_no_answer, first_touches_are_taken, first_touches_are_told,
    joined_runs_stay_joined, logged_cycles_are_traced, patches_are_taken_back,
    patches_reach_the_first_touch, saved_machines_are_taken, some_edits_need_no_memory,
    stamps_of_states_are_last_writes, texts_only_grow, turns_run_again_touch_nothing_new,
    untouched_pages_are_alike, virtual_words_are_read,
};
pub use past::{DEFAULT_STRIDE, PastEdit, Patch, Setup, SetupNumbers, WordBefore};
pub use pdp_cpu::{Act, DeviceRegisters, PageRegisters, Regs, RunState};
pub use pdp_io_page::{DelayedDevice, Delays};
pub use pdp_script::{Entry, EventBefore, Fault, ScriptEdit};
pub use pdp_store::Agent;
pub use pdp_unibus::Event;
