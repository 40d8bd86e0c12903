//! The names of capabilities by index (terminfo(5)), short and long, and what the texts are.
//!
//! A name and its kind and index determine each other. No call takes memory; a name takes a hash of its bytes and a
//! comparison, or two if it may be short or long.
#![tactic(auto)]

mod class;
mod common;
mod hint;
pub mod laws;
mod name_table;
mod slots;
mod table;

pub use class::{Class, class_of};
pub use common::{find, flag_name, number_name, text_name};
pub use name_table::{NameTable, find_short_or_long};
