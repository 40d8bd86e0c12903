//! Entries for callers in C: reading and writing them, analysing, expanding, padding, sending, naming and finding their capabilities, and the
//! words and sentences of faults.
//!
//! Each export is a library call of the crates below, with its pointers and lengths as slices, and states that call's
//! clauses again. No export allocates, keeps state or stops the process; what a caller owes is valid pointers and
//! correct lengths. `include/ti.h` is the header.
#![tactic(auto)]

mod capability;
mod encoding;
mod entry;
mod expansion;
mod faults;
mod finding;
mod given_entry;
mod kept;
mod laws;
mod messages;
mod names;
mod padding;
mod sending;
mod sending_kept;
mod view;
mod word_table;
mod words;

ghost use Rattle.std.specs.Prelude.{◌≡◌};
ghost use Rattle.ti_base.specs.Version.{version_number};

use ti_base::VERSION_NUMBER;

/// The version of the library: 65536 times its first number, 256 times its second, and its third.
#[unsafe(no_mangle)]
pub extern "C" fn ti_version() -> u32
    ensures { result ≡ version_number }
{
    VERSION_NUMBER
}
