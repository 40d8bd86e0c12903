//! The notation of terminfo(5) for the bytes of a text, such as `\E[H` and `^G`.
//!
//! ESC is `\E`; a `\`, `^` or `,` has a `\` before it; a control character is `^` and a letter, DEL is `^?`, but both are in
//! octal right after a `%`, since `%^` is an operator; a space is `\s` if it is first or last; 0 and the bytes from 128 are
//! `\` and three octal digits. So each character of a notation can be printed, none is lost at an end, and two texts never
//! look the same. [`push_label`] writes a name with `\s` for each space, so that a line with it splits at its spaces.
//! [`push_formed`] and [`push_shown`] write a text in this notation or in hex, as a [`Form`] says. [`push_reading`] reads a
//! notation as its text, and [`read_in_place`] puts the text in the notation's place. [`push_opening`] and [`push_closing`] write
//! what comes before and after a part of a line that stands out at a terminal. The time is linear in the bytes that are read and
//! written. Only the calls that append to a vector take memory.
#![tactic(auto)]

mod color;
mod columns;
mod form;
mod formed;
mod in_place;
mod label;
pub mod laws;
mod length;
mod memory;
mod reading;
mod slice;
mod stretch;

pub use color::{Color, Style, push_closing, push_opening};
pub use columns::{column, columns_between};
pub use form::Form;
pub use formed::{formed_len, push_formed, push_shown};
pub use in_place::read_in_place;
pub use label::push_label;
pub use length::notation_len;
pub use memory::push_notation;
pub use reading::{NotationFault, NotationRefused, ReadingFault, push_reading};
pub use slice::escape_into;
