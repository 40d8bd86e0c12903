//! Shared by the tests of several crates: rows as lines of a text, entries as bytes and items of them as text, capabilities with what they write,
//! traces as text, and readers and writers that go in small steps, are interrupted and fail. It has no tests of its own.
#![tactic(auto)]

pub mod capabilities;
pub mod entries;
mod flushed;
mod items;
mod named;
mod rows;
mod sink;
mod source;
mod tally;
mod tmux;
pub mod traces;

pub use flushed::Flushed;
pub use items::{Said, item_of};
pub use rows::{
    Finds, Given, Unfound, are_shown, bytes_of, first_wrong, number_of, only_if, place_of, show,
    show_debug, show_numbers,
};
pub use sink::Sink;
pub use source::{Endless, Source};
pub use tally::{Tally, Tries, tally_of};
pub use tmux::TMUX;
