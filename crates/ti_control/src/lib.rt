//! What of an entry does harm beside what its strings send: its names, the files that it names, its size; and which strings are sent.
#![tactic(auto)]

mod aliases;
mod capabilities;
mod ecma;
mod files;
mod names;

pub use aliases::{aliases_len, first_empty_after, first_unfit, starts_empty};
pub use capabilities::is_sent;
pub use ecma::{ecma_capabilities, first_introducer};
pub use files::{is_tabset, is_vast};
pub use names::{first_control, first_malformed};
