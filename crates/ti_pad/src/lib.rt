//! Writing the bytes for a terminal to the end, with the padding of their marks.
//!
//! A padding mark of terminfo(5) is a delay such as `$<5>`, `$<2.5*>` or `$<10/>`. It is replaced by as many pad bytes
//! as take its time on the line. What was written is reported exactly: all the bytes, or the first so many of them if the
//! writer stopped. The time is linear in the bytes that are read and written. Only [`pad`] takes memory.
#![tactic(auto)]

mod delay;
mod find_mark;
pub mod laws;
mod length;
mod mark;
mod memory;
mod number;
mod output;
mod padding;
mod slice;
mod stretch;
mod writing;

pub use delay::{first_long_delay, total_delay};
pub use find_mark::starts_with_mark;
pub use length::padded_len;
pub use memory::{PadFault, pad};
pub use output::write_out;
pub use padding::Padding;
pub use slice::{PadIntoFault, pad_into};
pub use writing::{PadStop, write_padded};
