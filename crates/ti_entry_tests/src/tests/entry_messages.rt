//! The messages on the faults of entries.

use crate::tests::check_rows;
use ti_entry::{Fault, ReadStop, Refused};
use ti_fixtures::{Finds, Given, Unfound, are_shown, place_of};

/// The faults of bytes.
const FAULTS: &[Fault] = &[
    Fault::Truncated,
    Fault::BadMagic,
    Fault::BadHeader,
    Fault::HeaderTooBig,
    Fault::BadNames,
    Fault::BadFlag,
    Fault::BadPad,
    Fault::BadNumber,
    Fault::BadOffset,
    Fault::Unterminated,
    Fault::BadExtendedHeader,
    Fault::ExtendedTooBig,
    Fault::BadExtendedName,
    Fault::Trailing,
];

/// Each fault in the same order, its word, a refusal for it at place 20, and a read that stops at this.
const SHOWN: &str = r"
0 => Truncated, Truncated, Truncated at 20, Truncated at 20
1 => BadMagic, BadMagic, BadMagic at 20, BadMagic at 20
2 => BadHeader, BadHeader, BadHeader at 20, BadHeader at 20
3 => HeaderTooBig, HeaderTooBig, HeaderTooBig at 20, HeaderTooBig at 20
4 => BadNames, BadNames, BadNames at 20, BadNames at 20
5 => BadFlag, BadFlag, BadFlag at 20, BadFlag at 20
6 => BadPad, BadPad, BadPad at 20, BadPad at 20
7 => BadNumber, BadNumber, BadNumber at 20, BadNumber at 20
8 => BadOffset, BadOffset, BadOffset at 20, BadOffset at 20
9 => Unterminated, Unterminated, Unterminated at 20, Unterminated at 20
10 => BadExtendedHeader, BadExtendedHeader, BadExtendedHeader at 20, BadExtendedHeader at 20
11 => ExtendedTooBig, ExtendedTooBig, ExtendedTooBig at 20, ExtendedTooBig at 20
12 => BadExtendedName, BadExtendedName, BadExtendedName at 20, BadExtendedName at 20
13 => Trailing, Trailing, Trailing at 20, Trailing at 20
";

/// The message on the fault at a place.
struct ShownAt;

impl Finds for ShownAt {
    fn find(&self, given: &Given<'_, '_>, found: &mut Vec<u8>) -> Result<(), Unfound> {
        let fault = *FAULTS.get(place_of(given.text)?).ok_or("a fault")?;
        let refused = Refused { fault, place: 20 };
        let stop = ReadStop::Refused(refused);
        let alloc = *found.allocator();
        let text = format!(in alloc; "{fault}, {}, {refused}, {stop}", fault.word())?;
        Ok(found.extend_from_slice(text.as_str().as_bytes())?)
    }
}

#[test]
fn faults_of_entries_are_shown_as_their_names(rt: HostRuntime) {
    check_rows(&rt, SHOWN, &ShownAt);
}

#[test]
fn a_read_that_fails_is_shown(rt: HostRuntime) {
    assert_that!(rt; are_shown(rt.alloc(), &[(ReadStop::Io, "Io")]));
}
