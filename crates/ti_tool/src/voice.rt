//! What the program says to people beyond the lines that are fixed: each function here writes to a page, and rows show what it says.
//!
//! A page is printable by its type.

mod advice;
mod explanation;
mod item_line;
mod known_as;
mod near;
mod reason;
mod request_line;
mod sentence;
mod tally;

pub use advice::{write_on_entry, write_on_input, write_refusal};
pub use explanation::{write_explanations, write_unknown};
pub use item_line::write_item_line;
pub use reason::{write_reason, write_stop};
pub use request_line::write_request_line;
pub use sentence::MOST_FRONT;
pub use tally::{Tally, tally_of, write_summary};
