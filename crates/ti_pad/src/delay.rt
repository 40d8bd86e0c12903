//! The time that marks take, whatever the line. Marks lie apart, so each is counted at its own place.

ghost use Rattle.std.specs.Prelude.{◌≡◌, ◌<◌};
ghost use Rattle.ti_pad.specs.Delays.{IsFirstLong, delay_at, total_delay};

use crate::find_mark::mark_at_front;
use crate::padding::tenths_of;

/// The longest delay of a mark that is no slip, in tenths of a millisecond.
const LONG: u32 = 10_000;

/// The time of the mark at the front, in tenths of a millisecond for each affected line; 0 if no mark is there.
fn delay_at(bytes: &[u8]) -> u32
    ensures value { result ≡ delay_at bytes.now }
    ensures most { result < 1000000 }
{
    match mark_at_front(bytes) {
        Some(found) => tenths_of(&found.mark),
        None => 0,
    }
}

/// The time of all marks, in tenths of a millisecond, for one affected line.
pub fn total_delay(bytes: &[u8]) -> u128
    ensures exact { result ≡ total_delay bytes.now }
{
    let mut rest = bytes;
    let mut total: u128 = 0;
    'bytes: while let Some((_byte, after)) = rest.split_first() {
        total += u128::from(delay_at(rest));
        rest = after;
    }
    total
}

/// The place of the first mark of more than a second for each affected line.
pub fn first_long_delay(bytes: &[u8]) -> Option<usize>
    ensures first { IsFirstLong bytes.now result }
{
    'bytes: for place in 0..bytes.len() {
        if delay_at(&bytes[place..]) > LONG {
            return Some(place);
        }
    }
    None
}
