//! Where the sections of a compiled terminfo entry lie (term(5)), and the one checker of them.
//!
//! [`Stage`] makes the checks of an entry in their order, over as many bytes as have come, and returns the first that does
//! not hold. Its two parts say where the sections lie, and lend what is there: each [`Part`] has its items at their indices.
//! Checking is linear in the bytes and takes no memory.
#![tactic(auto)]

mod checks;
mod content;
mod fault;
mod greatest;
mod header;
mod part;
mod section;
mod stage;
mod string_table;
mod table;
mod texts;
mod word;

pub use fault::{Fault, Refused};
pub use part::Part;
pub use stage::Stage;
pub use texts::Texts;
