//! How a string is sent, and what it can do beside what the table has for its name.

ghost use Rattle.std.specs.Prelude.{◌≡◌, IfOk};
ghost use Rattle.ti_allow.specs.Harmless.{IsSilent};
ghost use Rattle.ti_rules.specs.Controls.{Keeps, takes_title, with_title};
ghost use Rattle.ti_rules.specs.inner.Held.{sending_held};

use std::alloc::{AllocError, Allocator};
use ti_allow::{Found, beyond_table, doubled, plain_beyond_table};
use ti_cap::Capability;

/// How a string is sent.
#[derive(Clone, Copy)]
pub enum Sending<'t> {
    /// A program gives it parameters.
    Expanded(&'t [u8]),
    /// A program sends it as it stands.
    AsItStands(&'t [u8]),
}

/// Whether a program writes a title after the string with a name.
pub fn takes_title(name: &[u8]) -> bool
    ensures { result ≡ takes_title name.now }
{
    b"tsl".as_slice() == name || b"TS".as_slice() == name || b"Swd".as_slice() == name
}

/// A string, a title and what ends it, of which the title is a parameter.
pub fn with_title<A: Allocator + Copy>(
    alloc: A,
    text: &[u8],
    end: &[u8],
) -> Result<Vec<u8, A>, AllocError>
    ensures { IfOk result (λ bytes. bytes.items ≡ with_title text.now end.now) }
{
    let ends = doubled(alloc, end)?;
    let mut bytes = text.to_vec(alloc)?;
    bytes.extend_from_slice(b"%p9%s")?;
    bytes.extend_from_slice(ends.as_slice())?;
    Ok(bytes)
}

/// Whether a string is looked at as it stands: a program sends it so, or it is no capability.
pub fn stands(sending: Sending<'_>) -> bool {
    match sending {
        Sending::Expanded(text) => Capability::parse(text).is_err(),
        Sending::AsItStands(_) => true,
    }
}

/// What a string can do beside what the table has for its name.
pub fn found_in<A: Allocator + Copy>(
    alloc: A,
    name: &[u8],
    sending: Sending<'_>,
) -> Result<Vec<Found, A>, AllocError>
    ensures { IfOk result (λ found. IsSilent found.items → Keeps name.now (sending_held sending.entry)) }
{
    match sending {
        Sending::Expanded(text) => match Capability::parse(text) {
            Ok(capability) => {
                let found = beyond_table(alloc, name, &capability)?;
                Ok(found)
            }
            Err(_) => {
                let found = plain_beyond_table(alloc, name, text)?;
                Ok(found)
            }
        },
        Sending::AsItStands(text) => {
            let found = plain_beyond_table(alloc, name, text)?;
            Ok(found)
        }
    }
}
