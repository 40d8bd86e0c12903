//! Shared by all crates: the limits, each in one place, as a constant for the code and a number of the same name in
//! `specs/Limits.antt`, which the contracts cite. [`limits_agree`] says that the two are the same. [`read_piece`] is the one
//! way to read from a source. [`VERSION`] is the version of them all.
#![tactic(auto)]

mod source;
mod version;

ghost use Rattle.std.specs.Prelude.{◌≡◌, pos};
ghost use Rattle.ti_base.specs.Limits as limits;

pub use source::{ReadFailed, read_piece};
pub use version::{VERSION, VERSION_NUMBER};

/// The most bytes of an entry, of either format.
pub const MOST_ENTRY_BYTES: usize = 32768;

/// The greatest number of the legacy format, as of its header words and offsets.
pub const GREATEST_WORD: i32 = 32767;

/// The greatest number of the format with numbers of 32 bits.
pub const GREATEST_WIDE_WORD: i32 = 2_147_483_647;

/// The most bytes of a capability.
pub const MOST_CAPABILITY_BYTES: usize = 32767;

/// The most conditionals that are open at once.
pub const MOST_OPEN: usize = 32;

/// The most values on the stack of a capability.
pub const MOST_VALUES: usize = 32;

/// The greatest width of a format, and its greatest precision.
pub const GREATEST_WIDTH: u8 = 255;

/// The greatest number of a `%{nn}`.
pub const GREATEST_CONSTANT: i32 = 2_147_483_647;

/// The most bytes of a text among the parameters.
pub const MOST_TEXT_BYTES: usize = 32767;

/// The greatest rate of a line, in bytes per second.
pub const GREATEST_RATE: u32 = 1_000_000;

/// The most affected lines.
pub const MOST_LINES: u32 = 65_535;

/// The most bytes of a padded text.
pub const MOST_PADDED_BYTES: u128 = 67_108_864;

/// How many interrupted reads or writes one call tries again.
pub const MOST_INTERRUPTIONS: u32 = 1000;

/// Each constant is the number that the contracts cite.
pub fn limits_agree()
    ensures entry_bytes { MOST_ENTRY_BYTES ≡ limits.most_entry_bytes }
    ensures word { GREATEST_WORD ≡ pos limits.greatest_word }
    ensures wide_word { GREATEST_WIDE_WORD ≡ pos limits.greatest_wide_word }
    ensures capability_bytes { MOST_CAPABILITY_BYTES ≡ limits.most_capability_bytes }
    ensures open { MOST_OPEN ≡ limits.most_open }
    ensures values { MOST_VALUES ≡ limits.most_values }
    ensures width { GREATEST_WIDTH ≡ limits.greatest_width }
    ensures constant { GREATEST_CONSTANT ≡ pos limits.greatest_constant }
    ensures text_bytes { MOST_TEXT_BYTES ≡ limits.most_text_bytes }
    ensures rate { GREATEST_RATE ≡ limits.greatest_rate }
    ensures lines { MOST_LINES ≡ limits.most_lines }
    ensures padded_bytes { MOST_PADDED_BYTES ≡ limits.most_padded_bytes }
    ensures interruptions { MOST_INTERRUPTIONS ≡ limits.most_interruptions }
{}
