//! Expanding capabilities: what a parsed capability writes for nine parameters and 52 variables (terminfo(5),
//! "Parameterized Strings").
//!
//! `expand_into` writes into slices of the caller and takes no memory, `expand` makes a vector. Both are one pass over
//! the capability's tape, whose control is a `Mode` alone: each token is taken once, the stack never holds more values
//! than the capability's depth, and no more bytes are written than its bound. Their contracts say that the output, the
//! variables and the counts are those of the tree that writes the capability.
#![tactic(auto)]

mod at_once;
mod bytes;
mod constant;
mod counts;
mod digits;
mod expansion;
mod fault;
pub mod laws;
mod machine;
mod number_stack;
mod numbers;
mod operation;
mod parameters;
mod pass;
mod print;
mod stack;
mod step;
mod steps;
mod text_lengths;
mod values;
mod variables;
mod write;

pub use at_once::expand_at_once;
pub use bytes::{expand_bytes, expand_checked, expand_plain};
pub use constant::constant_value;
pub use counts::Run;
pub use expansion::{expand, expand_into};
pub use fault::{BytesFault, ExpandFault};
pub use operation::{apply, byte_of, complement, logical_not, next_number};
pub use print::{format_number, format_text};
pub use step::{Outcome, Step};
pub use steps::Steps;
pub use text_lengths::longest_text;
pub use ti_cap::Mode;
pub use values::Value;
pub use variables::Vars;
