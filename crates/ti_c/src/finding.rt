//! Finding a capability by its name for C.

ghost use Rattle.std.specs.Prelude.{◌≡◌, ◌⊎◌, Some, None};
ghost use Rattle.ti_c.specs.Numbers.{done, not_named};
ghost use Rattle.ti_c.specs.Names.{kind_at, name_under, place_for};

use crate::faults::{DONE, NOT_NAMED};
use ti_names::NameTable;
use ti_words::Kind;

/// The number of a kind.
pub(crate) fn kind_number(kind: Kind) -> u32
    ensures { kind_at result ≡ Some kind }
{
    match kind {
        Kind::Flag => 0,
        Kind::Number => 1,
        Kind::Text => 2,
    }
}

/// Finds the kind and the index of the capability with a name: 0 and both, or 401, and both are as before.
#[unsafe(no_mangle)]
pub extern "C" fn ti_find(name: &[u8], kind: &mut u32, index: &mut usize) -> u32
    ensures answer { (result ≡ done) ⊎ (result ≡ not_named) }
    ensures found { result ≡ done → name_under (kind_at kind.new) index.new ≡ Some name.now }
    ensures none { result ≡ not_named → place_for name.now ≡ None }
    ensures kept_kind { result ≡ not_named → kind.new ≡ kind.old }
    ensures kept_index { result ≡ not_named → index.new ≡ index.old }
{
    match NameTable::All.find_bytes(name) {
        Some((found, place)) => {
            *kind = kind_number(found);
            *index = place;
            DONE
        }
        None => NOT_NAMED,
    }
}
