//! Names of capabilities for C.

ghost use Rattle.std.specs.Prelude.{◌≡◌, ◌⊎◌, Some, None, option_map};
ghost use Rattle.ti_c.specs.Numbers.{done, not_named};
ghost use Rattle.ti_c.specs.Names.{kind_at, name_under};

use crate::faults::{DONE, NOT_NAMED};
use ti_names::NameTable;
use ti_words::Kind;

/// Bytes that lie in something of the caller's, or in the library's own tables.
#[repr(C)]
#[derive(Clone, Copy, Debug)]
pub struct Bytes<'a> {
    pub bytes: &'a [u8],
}

/// The kind with a number.
pub(crate) fn kind_of(number: u32) -> Option<Kind>
    ensures { result ≡ kind_at number }
{
    match number {
        0 => Some(Kind::Flag),
        1 => Some(Kind::Number),
        2 => Some(Kind::Text),
        _ => None,
    }
}

/// The name of the capability at an index, of the kind with this number, among all names.
fn name_of(kind: u32, index: usize) -> Option<&'static str>
    ensures { option_map (λ name. name.now) result ≡ name_under (kind_at kind) index }
{
    NameTable::All.name_at(kind_of(kind)?, index)
}

/// Finds the name of the capability at an index of the flags (kind 0), the numbers (1) or the texts (2).
#[unsafe(no_mangle)]
pub extern "C" fn ti_name(kind: u32, index: usize, name: &mut Bytes<'static>) -> u32
    ensures answer { (result ≡ done) ⊎ (result ≡ not_named) }
    ensures name { result ≡ done → name_under (kind_at kind) index ≡ Some name.new.bytes.now }
    ensures none { result ≡ not_named → name_under (kind_at kind) index ≡ None }
    ensures kept { result ≡ not_named → name.new ≡ name.old }
{
    match name_of(kind, index) {
        Some(found) => {
            name.bytes = found.as_bytes();
            DONE
        }
        None => NOT_NAMED,
    }
}
