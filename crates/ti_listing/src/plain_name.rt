//! Names of which no byte is escaped.
//!
//! All bytes of a name are looked at, also after one that is escaped, so that the compiler takes many of them at once.

ghost use Rattle.std.specs.Prelude.{◌≡◌};
ghost use Rattle.std.specs.List.{list_all};
ghost use Rattle.ti_listing.specs.inner.Plain.{is_plain as the_is_plain};

/// Whether a byte of a name is written as it is.
fn is_plain(byte: u8) -> bool
    ensures { result ≡ the_is_plain byte }
{
    (b'!'..=b'~').contains(&byte) & (byte != b'\\') & (byte != b'^') & (byte != b',')
}

/// Whether each byte of a name is written as it is.
pub fn is_plain_name(name: &[u8]) -> bool
    ensures { result ≡ list_all the_is_plain name.now }
{
    let mut plain = true;
    'bytes: for byte in name {
        plain &= is_plain(*byte);
    }
    plain
}
