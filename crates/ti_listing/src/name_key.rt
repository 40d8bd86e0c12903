//! The order in which names are kept, so that one is found by few comparisons of few bytes.
//!
//! Names of unlike lengths differ by these alone. Those of one length are compared byte by byte; but of these no two that differ
//! share a byte of their entry, so they are few or short.

ghost use Rattle.std.specs.Prelude.{◌≡◌, length};

/// A name after its length.
pub type NameKey<'a> = (usize, &'a [u8]);

/// The key of a name.
pub fn key_of(name: &[u8]) -> (usize, &[u8])
    ensures length { result.0 ≡ length name.now }
    ensures name { result.1.now ≡ name.now }
{
    (name.len(), name)
}
