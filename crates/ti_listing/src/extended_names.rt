//! The names by which two entries have extended capabilities, each once.
//!
//! Those that are there are kept in order too, so the time grows with the number of names and its logarithm.

ghost use Rattle.std.specs.Prelude.{◌≡◌, IfOk, OnOk, map};
ghost use Rattle.ti_entry.specs.Finding.{names_of};
ghost use Rattle.ti_listing.specs.Differences.{names_of_both as the_names_of_both, with_new};
ghost use Rattle.ti_listing.specs.inner.Names.{IsSetOf};

use crate::name_key::{NameKey, key_of};
use std::alloc::{AllocError, Allocator};
use std::collections::BTreeSet;
use ti_entry::{Entry, Extended};
use ti_words::Kind;

/// Adds the names of a kind that are not there yet.
fn push_new<'a, A: Allocator + Copy>(
    names: &mut Vec<&'a [u8], A>,
    kept: &mut BTreeSet<NameKey<'a>, A>,
    kind: Kind,
    extended: &Extended<'a>,
) -> Result<(), AllocError>
    requires { IsSetOf (map (λ one. one.now) names.old.items) kept.old }
    ensures names { OnOk result (map (λ one. one.now) names.new.items
        ≡ with_new (map (λ one. one.now) names.old.items) (names_of extended.now kind)) }
    ensures kept { OnOk result (IsSetOf (map (λ one. one.now) names.new.items) kept.new) }
{
    'names: for index in 0..extended.count_of(kind) {
        let name = extended.name_or_empty(kind, index);
        if kept.insert(key_of(name))? {
            names.push(name)?;
        }
    }
    Ok(())
}

/// The names of a kind: those of the first entry, and then those that only the other has.
pub fn names_of_both<'a, A: Allocator + Copy>(
    alloc: A,
    kind: Kind,
    one: &Entry<'a>,
    other: &Entry<'a>,
) -> Result<Vec<&'a [u8], A>, AllocError>
    ensures { IfOk result (λ names. map (λ one. one.now) names.items
        ≡ the_names_of_both one.now other.now kind) }
{
    let mut names = Vec::new(alloc);
    let mut kept = BTreeSet::new(alloc);
    push_new(&mut names, &mut kept, kind, &one.extended())?;
    push_new(&mut names, &mut kept, kind, &other.extended())?;
    Ok(names)
}
