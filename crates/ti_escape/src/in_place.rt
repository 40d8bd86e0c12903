//! A text in the place of its notation.
//!
//! No byte stands before the first of its characters, so the text is put over characters that are read. No memory is taken.

ghost use Rattle.std.specs.Prelude.{◌≡◌, ◌≤◌, Ok, Err, length, take, IfErr, IfOk};
ghost use Rattle.ti_escape.specs.Reading.{reading};

use crate::reading::{NotationRefused, meaning};

/// Puts the text that a notation means in its place, and returns how many bytes it has: at most as many as the notation has
/// characters. It reads what [`push_reading`](crate::push_reading) reads. What stands after the text, and what stands in the
/// slice after an error, means nothing.
///
/// # Errors
///
/// The first fault of the notation.
///
/// # Examples
///
/// ```rust
/// let len = read_in_place(&mut room)?;
/// assert!(rt; &room[..len] == b"\x1b[H".as_slice());
/// ```
pub fn read_in_place(room: &mut [u8]) -> Result<usize, NotationRefused>
    ensures text { IfOk result (λ len. reading room.old ≡ Ok (take len room.new)) }
    ensures few { IfOk result (λ len. len ≤ length room.old) }
    ensures refused { IfErr result (λ refused. reading room.old ≡ Err refused) }
{
    let (mut len, mut at) = (0, 0);
    let mut after_percent = false;
    'characters: while at < room.len() {
        match meaning(after_percent, &room[at..]) {
            Ok(meant) => {
                room[len] = meant.byte;
                len += 1;
                at += meant.more + 1;
                after_percent = meant.percent;
            }
            Err(fault) => return Err(NotationRefused { fault, place: at }),
        }
    }
    Ok(len)
}
