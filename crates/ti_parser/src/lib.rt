//! The parser of a terminal: which functions it hands out for the bytes that it receives, and what it remembers between them.
//!
//! A [`Configuration`] takes one byte at a time. It is the machine of P. Williams, "A parser for DEC's ANSI-compatible video
//! terminals", with what today's terminals add, and reads bytes above 7F in one of six ways. Time is constant for a byte, and no
//! memory is taken.
//!
//! [`functions_of`] follows a capability along all its paths, and takes memory for the parsers that they lead to.
#![tactic(auto)]

mod character;
mod class;
mod configuration;
mod function;
pub mod laws;
mod names;
mod number;
mod padding;
mod parsers;
mod paths;
mod point;
mod print;
mod reading;
mod receiver;
mod settled;
mod state;
mod text;
mod tops;
mod transition;
mod write;

pub use character::Begun;
pub use configuration::Configuration;
pub use function::{Function, FunctionKind, HandedOut, Intermediates};
pub use number::{FunctionNumber, FunctionNumbers, MOST_NUMBERS};
pub use padding::Marks;
pub use paths::{Outcome, Sent, functions_of};
pub use reading::{Coding, FirstCharacter, Reading, Reception, Within};
pub use state::State;
