//! The bytes that keys send. After what is the first part of another key's text a program has to wait for what may follow.

ghost use Rattle.std.specs.List.{flat_map};
ghost use Rattle.std.specs.Prelude.{◌≡◌, ◌++◌, OnOk, IfOk};
ghost use Rattle.ti_rules.specs.Keys.{AreKeyRemarks, is_first_part, is_of_key, keys_in, on_two};
ghost use Rattle.ti_rules.specs.inner.Growing.{Gains, GainsThese};
ghost use Rattle.ti_rules.specs.inner.Held.{text_held, texts_held};
ghost use Rattle.ti_rules.specs.inner.Lent.{key_lent, keys_lent};
ghost use Rattle.ti_rules.specs.inner.Neighbours.{on_neighbours, on_row};

use crate::finding::Finding;
use crate::remark::NamedText;
use crate::report::Report;
use crate::subject::KnownText;
use std::alloc::{AllocError, Allocator};
use ti_names::Class;

/// Whether a text is what a key sends.
fn is_of_key(class: Class) -> bool
    ensures { result ≡ is_of_key class }
{
    match class {
        Class::Key => true,
        _ => false,
    }
}

/// Adds a text, if it is what a key sends.
fn add_key<'a, A: Allocator>(
    keys: &mut Vec<(&'a [u8], &'a [u8]), A>,
    text: &KnownText<'a>,
) -> Result<(), AllocError>
    ensures { OnOk result
        (keys_lent keys.new.items ≡ keys_lent keys.old.items ++ keys_in (text_held text.now)) }
{
    if is_of_key(text.class) && !text.subject.text.is_empty() {
        keys.push((text.subject.text, text.subject.name))?;
    }
    Ok(())
}

/// The texts that are what a key sends.
fn keys_of<'a, A: Allocator>(
    alloc: A,
    texts: &[KnownText<'a>],
) -> Result<Vec<(&'a [u8], &'a [u8]), A>, AllocError>
    ensures { IfOk result (λ keys. keys_lent keys.items ≡ flat_map keys_in (texts_held texts.now)) }
{
    let mut keys = Vec::new(alloc);
    'texts: for text in texts {
        add_key(&mut keys, text)?;
    }
    Ok(keys)
}

/// Whether a text is the first part of a longer one.
fn is_first_part(text: &[u8], other: &[u8]) -> bool
    ensures { result ≡ is_first_part text.now other.now }
{
    text.len() < other.len() && other.starts_with(text)
}

impl<'r, 'a, A: Allocator + Copy> Report<'r, 'a, A> {
    /// Adds a remark on two keys.
    fn push_two(
        &mut self,
        one: (&'a [u8], &'a [u8]),
        other: (&'a [u8], &'a [u8]),
        finding: Finding,
    ) -> Result<(), AllocError>
        ensures { OnOk result
            (GainsThese (on_two (key_lent one.entry) (key_lent other.entry) finding) self.old self.new) }
    {
        let one = NamedText {
            name: one.1,
            text: one.0,
        };
        let other = NamedText {
            name: other.1,
            text: other.0,
        };
        self.push_on_two(one, other, finding)
    }

    /// Adds the remark on a key and the next one.
    fn push_neighbours(
        &mut self,
        one: (&'a [u8], &'a [u8]),
        other: (&'a [u8], &'a [u8]),
    ) -> Result<(), AllocError>
        ensures { OnOk result (GainsThese
            (on_neighbours (key_lent one.entry) (key_lent other.entry)) self.old self.new) }
    {
        if is_first_part(one.0, other.0) {
            return self.push_two(one, other, Finding::KeyPrefix);
        }
        if one.0 == other.0 {
            return self.push_two(one, other, Finding::AlikeKeys);
        }
        Ok(())
    }

    /// Adds the remarks on each key and the next one.
    fn push_row(&mut self, row: &[(&'a [u8], &'a [u8])]) -> Result<(), AllocError>
        ensures { OnOk result
            (GainsThese (on_row (keys_lent row.now)) self.old self.new) }
    {
        'keys: for next in 1..row.len() {
            self.push_neighbours(row[next - 1], row[next])?;
        }
        Ok(())
    }

    /// Adds the remarks on keys of which one sends the first part of what another one sends, and on those that send the same.
    pub fn push_keys(&mut self) -> Result<(), AllocError>
        ensures { OnOk result
            (Gains (AreKeyRemarks self.old.on.entry) self.old self.new) }
    {
        let mut keys = keys_of(self.allocator(), self.texts())?;
        keys.sort_unstable();
        self.push_row(keys.as_slice())?;
        Ok(())
    }
}
