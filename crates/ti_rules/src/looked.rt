//! How many texts are looked at for control functions, and which are left.
//!
//! Texts can share bytes: 32 kB have room for eight thousand texts of 16 kB. Those of an entry that share none are all looked at.

ghost use Rattle.std.specs.List.{flat_map};
ghost use Rattle.std.specs.Prelude.{◌≡◌, ◌≤◌, ◌++◌, IfOk, OnOk, codes, length};
ghost use Rattle.ti_rules.specs.Controls.{bytes_of_known, bytes_of_unknown, looked_count, name_of_known, name_of_unknown, spaced};
ghost use Rattle.ti_rules.specs.inner.Held.{texts_held, unknowns_held};

use crate::remark::NamedText;
use crate::subject::KnownText;
use std::alloc::{AllocError, Allocator};

/// How many bytes the texts that are looked at have together.
const MOST_BYTES: usize = 32768;

/// How many texts at the start, of which it is known what they are, have at most [`MOST_BYTES`] together.
pub fn known_fitting(texts: &[KnownText<'_>]) -> usize
    ensures count { result ≡ looked_count bytes_of_known (texts_held texts.now) }
    ensures most { result ≤ length texts.now }
{
    let mut room = MOST_BYTES;
    let mut count = 0;
    'texts: for text in texts {
        if text.subject.text.len() > room {
            return count;
        }
        room -= text.subject.text.len();
        count += 1;
    }
    count
}

/// The same of texts of which nothing is known.
pub fn unknown_fitting(texts: &[NamedText<'_>]) -> usize
    ensures count { result ≡ looked_count bytes_of_unknown (unknowns_held texts.now) }
    ensures most { result ≤ length texts.now }
{
    let mut room = MOST_BYTES;
    let mut count = 0;
    'texts: for text in texts {
        if text.text.len() > room {
            return count;
        }
        room -= text.text.len();
        count += 1;
    }
    count
}

/// Appends a name after a space.
fn push_spaced<A: Allocator>(out: &mut Vec<u8, A>, name: &[u8]) -> Result<(), AllocError>
    ensures { OnOk result (out.new.items ≡ out.old.items ++ (codes " " ++ name.now)) }
{
    out.push(b' ')?;
    out.extend_from_slice(name)
}

/// Appends the names of texts of which it is known what they are, each after a space.
fn push_known_names<A: Allocator>(
    out: &mut Vec<u8, A>,
    texts: &[KnownText<'_>],
) -> Result<(), AllocError>
    ensures { OnOk result (out.new.items
        ≡ out.old.items ++ flat_map (spaced name_of_known) (texts_held texts.now)) }
{
    'texts: for text in texts {
        push_spaced(out, text.subject.name)?;
    }
    Ok(())
}

/// The same of texts of which nothing is known.
fn push_unknown_names<A: Allocator>(
    out: &mut Vec<u8, A>,
    texts: &[NamedText<'_>],
) -> Result<(), AllocError>
    ensures { OnOk result (out.new.items
        ≡ out.old.items ++ flat_map (spaced name_of_unknown) (unknowns_held texts.now)) }
{
    'texts: for text in texts {
        push_spaced(out, text.name)?;
    }
    Ok(())
}

/// The names of texts of both kinds, each after a space.
pub fn names_of<A: Allocator>(
    alloc: A,
    known: &[KnownText<'_>],
    others: &[NamedText<'_>],
) -> Result<Vec<u8, A>, AllocError>
    ensures { IfOk result (λ names. names.items ≡ flat_map (spaced name_of_known) (texts_held known.now)
        ++ flat_map (spaced name_of_unknown) (unknowns_held others.now)) }
{
    let mut names = Vec::new(alloc);
    push_known_names(&mut names, known)?;
    push_unknown_names(&mut names, others)?;
    Ok(names)
}
