//! The messages on the faults of drafts.

use crate::tests::check_rows;
use ti_entry::EncodeFault;
use ti_fixtures::{Finds, Given, Unfound, only_if, place_of, show};

/// The faults of drafts.
const FAULTS_OF_DRAFTS: &[EncodeFault] = &[
    EncodeFault::BadName,
    EncodeFault::NulInText,
    EncodeFault::NumberOutOfRange,
    EncodeFault::TooManyOrLong,
    EncodeFault::Memory,
];

/// The words of faults, in the order of the faults.
const SHOWN_OF_DRAFTS: &str = r"
0 => BadName
1 => NulInText
2 => NumberOutOfRange
3 => TooManyOrLong
4 => Memory
";

/// The word of the fault of a draft at a place, which the fault is shown as.
struct ShownOfDraftAt;

impl Finds for ShownOfDraftAt {
    fn find(&self, given: &Given<'_, '_>, found: &mut Vec<u8>) -> Result<(), Unfound> {
        let fault = FAULTS_OF_DRAFTS
            .get(place_of(given.text)?)
            .ok_or("a fault")?;
        show(found, fault)?;
        only_if(found.as_slice() == fault.word().as_bytes())
    }
}

#[test]
fn faults_of_drafts_are_shown_as_their_names(rt: HostRuntime) {
    check_rows(&rt, SHOWN_OF_DRAFTS, &ShownOfDraftAt);
}
