//! Terminfo entries that are being made, and the bytes of a compiled entry that they are (term(5)).
//!
//! A [`Draft`] lends its names and texts. [`encode`] writes it in the one layout of `specs/Canonical.antt`, so that equal
//! drafts give equal bytes, and [`encoded_len`] counts them. Each goes over a section a few times at most, and memory is
//! taken once. [`encode_into`] writes what any [`Source`] lends into a caller's room, and takes no memory.
#![tactic(auto)]

mod draft;
mod encoding;
mod fault;
mod named;
mod put;
mod size;
mod source;

pub use draft::Draft;
pub use encoding::{encode, encode_into};
pub use fault::{EncodeFault, EncodeIntoFault};
pub use size::encoded_len;
pub use source::{Part, Source};
