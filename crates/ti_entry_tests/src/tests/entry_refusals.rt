//! Why bytes are refused, by `read` and by a reader that is fed them.

use std::alloc::Global;
use ti_entry::{EntryReader, Fault, Refused, read};
use ti_fixtures::entries::changed;
use ti_fixtures::{Finds, Given, Unfound, place_of, show};

/// Why the bytes are refused by `read`, which a reader that is fed them returns too.
pub fn refusal(bytes: &[u8]) -> Result<Option<Refused>, Unfound> {
    let refused = read(bytes).err();
    let mut reader = EntryReader::new();
    let is_fed_alike = match (reader.feed(bytes), refused) {
        (Err(failed), Some(refused)) => failed == refused,
        (Ok(()), Some(missing)) => missing.fault == Fault::Truncated,
        (fed, None) => fed.is_ok(),
    };
    if is_fed_alike && reader.finish().err() == refused {
        Ok(refused)
    } else {
        Err(Unfound)
    }
}

/// Adds why bytes are refused; nothing if they are read.
pub fn show_refusal(found: &mut Vec<u8>, bytes: &[u8]) -> Result<(), Unfound> {
    match refusal(bytes)? {
        Some(refused) => show(found, &refused),
        None => Ok(()),
    }
}

/// The bytes of a row: an entry, a place and what the bytes there are changed to, and a length, to which it is cut, or made
/// longer by bytes 0.
pub fn changed_in(alloc: Global, given: &Given<'_, '_>) -> Result<Vec<u8>, Unfound> {
    let [_, from, _, length, ..] = given.fields();
    let mut changed = changed(alloc, given.bytes, place_of(from).unwrap_or(0), given.third)?;
    let length = place_of(length).unwrap_or(changed.len());
    changed.resize(length, 0)?;
    Ok(changed)
}

/// Why the bytes of a row are refused.
pub struct RefusalIn;

impl Finds for RefusalIn {
    fn find(&self, given: &Given<'_, '_>, found: &mut Vec<u8>) -> Result<(), Unfound> {
        let bytes = changed_in(*found.allocator(), given)?;
        show_refusal(found, bytes.as_slice())
    }
}

/// The length of the first front, from one on, that is not truncated at its length.
fn first_other_front(bytes: &[u8], from: usize) -> Result<usize, Unfound> {
    for cut in from..bytes.len() {
        let truncated = Refused {
            fault: Fault::Truncated,
            place: cut,
        };
        if refusal(&bytes[..cut])? != Some(truncated) {
            return Ok(cut);
        }
    }
    Ok(bytes.len())
}

/// The same for the entry and the length of a row.
pub struct FirstOtherFrontIn;

impl Finds for FirstOtherFrontIn {
    fn find(&self, given: &Given<'_, '_>, found: &mut Vec<u8>) -> Result<(), Unfound> {
        let from = place_of(given.fields()[1])?;
        show(found, &first_other_front(given.bytes, from)?)
    }
}

/// The bytes of a row: the front of an entry, bytes 0 up to a length, bytes `a` up to another, and a byte 0.
pub fn long_in(alloc: Global, given: &Given<'_, '_>) -> Result<Vec<u8>, Unfound> {
    let [_, from, to, ..] = given.fields();
    let mut bytes = given.bytes.to_vec(alloc)?;
    bytes.resize(place_of(from)?, 0)?;
    bytes.resize(place_of(to)?, b'a')?;
    bytes.push(0)?;
    Ok(bytes)
}
