//! What an entry has of its extended capabilities, by their names.
//!
//! Where each name is first is found once for all of them, so the time grows with their number and its logarithm.

ghost use Rattle.std.specs.Prelude.{IfOk};
ghost use Rattle.ti_words.specs.Items.{ExtendedSubject, item_value};
ghost use Rattle.ti_entry.specs.Finding.{names_of};
ghost use Rattle.ti_entry.specs.Items.{IsItemOf};
ghost use Rattle.ti_listing.specs.inner.Names.{HasFirst};

use crate::name_key::{NameKey, key_of};
use std::alloc::{AllocError, Allocator};
use std::collections::BTreeMap;
use ti_entry::{Entry, Extended};
use ti_words::{Item, Kind};

/// Where each name of a kind is first. The names are gone over from the last to the first, so the first is what stays.
pub fn first_indices<'a, A: Allocator + Copy>(
    alloc: A,
    kind: Kind,
    extended: &Extended<'a>,
) -> Result<BTreeMap<NameKey<'a>, usize, A>, AllocError>
    ensures { IfOk result (λ firsts. HasFirst (names_of extended.now kind) firsts) }
{
    let mut firsts = BTreeMap::new(alloc);
    'names: for index in (0..extended.count_of(kind)).rev() {
        firsts.insert(key_of(extended.name_or_empty(kind, index)), index)?;
    }
    Ok(firsts)
}

/// What an entry has of an extended capability.
pub fn item_named<'a, A: Allocator>(
    entry: &Entry<'a>,
    firsts: &BTreeMap<NameKey<'a>, usize, A>,
    kind: Kind,
    name: &'a [u8],
) -> Item<'a>
    requires { HasFirst (names_of entry.now.extended kind) firsts.now }
    ensures { IsItemOf entry.now (ExtendedSubject kind name.now) (item_value result) }
{
    match firsts.get(&key_of(name)) {
        Some(index) => entry.extended().without_names().item(kind, *index),
        None => Item::none_of(kind),
    }
}
