//! The ways to read bytes, which all have the same result: `read`, one `feed`, and feeding byte by byte.

use super::entry_views::are_same;
use std::alloc::{AllocError, Global};
use ti_entry::{Draft, Entry, EntryReader, Refused, encode, read};
use ti_fixtures::Unfound;

/// Feeds the bytes at once, or one by one, up to a refusal.
fn feed(reader: &mut EntryReader, bytes: &[u8], at_once: bool) -> Result<(), Refused> {
    if at_once {
        return reader.feed(bytes);
    }
    for i in 0..bytes.len() {
        reader.feed(&bytes[i..=i])?;
    }
    Ok(())
}

/// Whether a reader that is fed the bytes returns what `read` does, and refuses them for nothing else.
fn is_fed_alike(bytes: &[u8], at_once: bool, read: &Result<Entry<'_>, Refused>) -> bool {
    let mut reader = EntryReader::new();
    let is_refused_alike = match (feed(&mut reader, bytes, at_once), read) {
        (Err(refused), Err(same)) => refused == *same,
        (fed, _) => fed.is_ok(),
    };
    is_refused_alike && are_same(&reader.finish(), read)
}

/// Whether there is a draft, and it is written as bytes that are read as the same.
fn is_written_alike(
    alloc: Global,
    draft: &Result<Draft<'_>, AllocError>,
    same: &Result<Entry<'_>, Refused>,
) -> Result<bool, Unfound> {
    match draft {
        Ok(draft) => {
            let bytes = encode(alloc, draft)?;
            Ok(are_same(&read(bytes.as_slice()), same))
        }
        Err(_) => Err(Unfound),
    }
}

/// Whether an entry, if there is one, is read as equal once it is written again.
fn is_read_again(alloc: Global, read: &Result<Entry<'_>, Refused>) -> Result<bool, Unfound> {
    match read {
        Ok(entry) => is_written_alike(alloc, &entry.draft(alloc), read),
        Err(_) => Ok(true),
    }
}

/// Why the bytes are refused, which each way reports; an entry is written again and read as equal.
pub fn refusal_by_each_way(alloc: Global, bytes: &[u8]) -> Result<Option<Refused>, Unfound> {
    let read = read(bytes);
    let is_fed = is_fed_alike(bytes, true, &read) && is_fed_alike(bytes, false, &read);
    if is_fed && is_read_again(alloc, &read)? {
        Ok(read.err())
    } else {
        Err(Unfound)
    }
}
