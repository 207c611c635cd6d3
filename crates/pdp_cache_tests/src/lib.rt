//! Tests of what is kept to save time and memory: shared pages, decoded lines and translations. No
//! public contract says that any is kept, and no reply of a session shows it. And a test of the
//! flat store, which the program doesn't use.
//!
//! They stand in a crate of their own, since a crate that has tests is proved once more for them.
#![tactic(auto)]

#[cfg(test)]
mod flat_store;
#[cfg(test)]
mod lines;
#[cfg(test)]
mod pages;
#[cfg(test)]
mod translations;
