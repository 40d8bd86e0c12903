//! The capability language of terminfo(5): tokens, the parser, the exact analysis and the tape.
//!
//! `Capability::parse` reads bytes once, from left to right, in time linear in them, and takes no memory. An accepted
//! capability knows the exact greatest depth, nesting and size over all its paths, and lends a tape of its tokens.
#![tactic(auto)]

mod extent;
mod gathering;
mod language;
pub mod laws;
mod lexer;
mod limits;
mod mode;
mod origins;
mod parameter_set;
mod parse;
mod read_format;
mod reader;
mod scan;

pub use gathering::Parameters;
pub use language::{CapFault, CapRefused, Conversion, Format, Op, Token};
pub use mode::Mode;
pub use parameter_set::ParameterSet;
pub use parse::{Capability, Tape};
pub use reader::{Opens, Reader, Take};
