//! Compiled terminfo entries (term(5)): bytes that spell an entry, as a view that lends its names and texts.
//!
//! `read` takes a slice, `EntryReader` takes pieces of any length, and `read_from` feeds one from a source. Bytes are
//! accepted exactly if they spell an entry, else refused with the first check that does not hold and its place.
//! Reading is linear in the bytes and takes no memory. `Entry::extended` shows the capabilities that an entry names itself.
//!
//! The checks are those of `ti_layout`, and `Entry::draft` makes a draft of `ti_draft`, which writes entries: what callers
//! need of both is here too.
#![tactic(auto)]

mod drafting;
mod encoding;
mod entry;
mod extended;
mod finding;
mod items;
pub mod laws;
mod part_view;
mod reader;
mod reopening;
mod source;

pub use encoding::encode;
pub use entry::{Entry, read};
pub use extended::Extended;
pub use finding::Position;
pub use items::Items;
pub use part_view::PartView;
pub use reader::EntryReader;
pub use reopening::{read_with_base, reopen, reopen_standard};
pub use source::{ReadStop, read_from};
pub use ti_draft::{Draft, EncodeFault, encoded_len};
pub use ti_layout::{Fault, Refused};
