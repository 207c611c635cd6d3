//! The past that determines a run: its setup with delays and patches, its script, and their edits.

mod base_setup;
mod edits;
mod image;
mod past_edit;
mod patch;
mod restoring;
mod setup;
mod setup_edits;
mod setup_numbers;

pub(crate) use base_setup::{BaseSetup, DriveCount};
pub(crate) use edits::core_word;
pub(crate) use image::{core_store, drive_store, more_drives};
pub use past_edit::PastEdit;
pub use patch::{Patch, WordBefore};
pub(crate) use patch::{find_patch, restore_patch};
pub use setup::{DEFAULT_STRIDE, Setup};
pub(crate) use setup::{DRIVE_WORDS, MOST_DRIVES, TAPE_BYTES, UNIT_WORDS};
pub(crate) use setup_edits::disk_word;
pub use setup_numbers::SetupNumbers;
