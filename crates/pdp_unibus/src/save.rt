//! What is saved of a bus, and what is changed in it while it is saved.

mod saved_bus;
mod saved_drives;
mod saved_touches;

pub use saved_bus::{NewPages, PatchedPage, SavedBus};
pub use saved_touches::SavedTouches;
