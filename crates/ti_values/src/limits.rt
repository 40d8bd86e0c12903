//! The limits of what is tried, each a constant for the code and a number of the same name in `specs/Limits.antt`.

ghost use Rattle.std.specs.Prelude.{◌≡◌, ◌↔◌, IsTrue};
ghost use Rattle.ti_values.specs.Limits as limits;
ghost use Rattle.ti_values.specs.Sent.{IsShort};

use ti_cap::Capability;

/// The most lines of a screen.
pub const MOST_LINES: u16 = 200;

/// The most columns of a screen.
pub const MOST_COLUMNS: u16 = 264;

/// The most colors.
pub const MOST_COLORS: u16 = 256;

/// The most bytes of a text that is tried.
pub const MOST_BYTES: usize = 1024;

/// The most bytes that it may write.
pub const MOST_WRITTEN_BYTES: u64 = 256;

/// Each constant is the number that the contracts cite.
pub fn limits_agree()
    ensures lines { MOST_LINES ≡ limits.most_lines }
    ensures columns { MOST_COLUMNS ≡ limits.most_columns }
    ensures colors { MOST_COLORS ≡ limits.most_colors }
    ensures bytes { MOST_BYTES ≡ limits.most_bytes }
    ensures written_bytes { MOST_WRITTEN_BYTES ≡ limits.most_written_bytes }
{}

/// Whether a capability is tried: it has no more bytes than [`MOST_BYTES`], and writes no more than [`MOST_WRITTEN_BYTES`].
pub fn is_short(capability: &Capability<'_>) -> bool
    ensures exact { IsTrue result ↔ IsShort capability.now }
{
    let len = capability.len();
    let bound = capability.bound(0);
    len <= MOST_BYTES && bound <= MOST_WRITTEN_BYTES
}
