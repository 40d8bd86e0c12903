//! Names with bytes that no name should have: controls, what is no UTF-8, and aliases by which no file can be found.

ghost use Rattle.std.specs.Prelude.{◌≡◌, ◌≤◌, ◌-◌, ◌↔◌, ◌&&◌, [], IfOk, IsTrue, OnOk, drop, is_none, length, take};
ghost use Rattle.ti_control.specs.Entries.{starts_control, starts_unfit};
ghost use Rattle.ti_words.specs.Spelling.{part_names};
ghost use Rattle.ti_rules.specs.Lines.{AreAll};
ghost use Rattle.ti_rules.specs.Marks.{first_place};
ghost use Rattle.ti_rules.specs.NameBytes.{AreAliases, AreNameByteRemarks, IsAliasReport, IsFit, IsOwnNameReport, IsRepeatedReport, IsUtf8Report, first_empty, is_bar, long_names, on_names, parted};
ghost use Rattle.ti_rules.specs.inner.Growing.{Gains, GainsThese};
ghost use Rattle.ti_rules.specs.inner.Lent.{texts_lent};

use crate::finding::Finding;
use crate::names::{NameKind, names_of};
use crate::remark::{About, Evidence, NamedText};
use crate::report::Report;
use std::alloc::{AllocError, Allocator};
use ti_control::{
    aliases_len, first_control, first_empty_after, first_malformed, first_unfit, starts_empty,
};

/// The most bytes of the names of an entry.
const MOST_NAME_BYTES: usize = 512;

/// The place of the first control.
fn control_place(names: &[u8]) -> Option<usize>
    ensures { result ≡ first_place starts_control names.now }
{
    first_control(names)
}

/// The place of the first space or slash.
fn unfit_place(aliases: &[u8]) -> Option<usize>
    ensures { result ≡ first_place starts_unfit aliases.now }
{
    first_unfit(aliases)
}

/// The place of the first empty alias.
fn first_empty(aliases: &[u8]) -> Option<usize>
    ensures { result ≡ first_empty aliases.now }
{
    if starts_empty(aliases) {
        return Some(0);
    }
    match first_empty_after(aliases) {
        Some(at) => Some(at + 1),
        None => None,
    }
}

/// The names before the description.
fn aliases_of(names: &[u8]) -> &[u8]
    ensures { AreAliases names.now result.now }
{
    let end = aliases_len(names);
    &names[..end]
}

/// Whether a byte stands between names.
fn is_bar(byte: u8) -> bool
    ensures { result ≡ is_bar byte }
{
    byte == b'|'
}

/// The bytes from one place to another.
fn part_of(bytes: &[u8], start: usize, end: usize) -> &[u8]
    requires low { start ≤ end }
    requires high { end ≤ length bytes.now }
    ensures { result.now ≡ take (end - start) (drop start bytes.now) }
{
    &bytes[start..end]
}

/// Returns the parts between `|`.
fn parts_of<'a, A: Allocator>(alloc: A, bytes: &'a [u8]) -> Result<Vec<&'a [u8], A>, AllocError>
    ensures { IfOk result (λ parts. texts_lent parts.items ≡ parted [] bytes.now) }
{
    let mut parts = Vec::new(alloc);
    let mut start = 0;
    'bytes: for place in 0..bytes.len() {
        if !is_bar(bytes[place]) {
            continue;
        }
        parts.push(part_of(bytes, start, place))?;
        start = place + 1;
    }
    parts.push(part_of(bytes, start, bytes.len()))?;
    Ok(parts)
}

/// Whether there is neither place.
fn is_neither(one: Option<usize>, other: Option<usize>) -> bool
    ensures { result ≡ is_none one && is_none other }
{
    one.is_none() && other.is_none()
}

/// Whether a name is UTF-8 without a control.
fn is_fit(name: &[u8]) -> bool
    ensures { IsTrue result ↔ IsFit name.now }
{
    is_neither(first_malformed(name), control_place(name))
}

impl<'r, 'a, A: Allocator + Copy> Report<'r, 'a, A> {
    /// Adds the remark on a place of the names.
    fn push_on_names(&mut self, found: Option<usize>, finding: Finding) -> Result<(), AllocError>
        ensures { OnOk result
            (GainsThese (on_names self.old.on.entry.names finding found) self.old self.new) }
    {
        let Some(place) = found else {
            return Ok(());
        };
        let text = self.names();
        let name = b"names".as_slice();
        let mut places = Vec::new(self.allocator());
        places.push(place)?;
        let about = About::Text(NamedText { name, text });
        self.push(about, places, finding, Evidence::None)
    }

    /// Adds the remark on names that are no UTF-8.
    fn push_malformed_names(&mut self) -> Result<(), AllocError>
        ensures { OnOk result (Gains (IsUtf8Report self.old.on.entry.names) self.old self.new) }
    {
        let names = self.names();
        let found = first_malformed(names);
        self.push_on_names(found, Finding::NamesMalformed)?;
        Ok(())
    }

    /// Adds the remarks on aliases.
    fn push_aliases(&mut self) -> Result<(), AllocError>
        ensures { OnOk result (Gains (IsAliasReport self.old.on.entry.names) self.old self.new) }
    {
        let names = self.names();
        let aliases = aliases_of(names);
        self.push_on_names(first_empty(aliases), Finding::EmptyAlias)?;
        self.push_on_names(unfit_place(aliases), Finding::UnfitAlias)?;
        Ok(())
    }

    /// Adds the remarks on aliases that stand twice.
    fn push_repeated_aliases(&mut self) -> Result<(), AllocError>
        ensures { OnOk result (Gains (IsRepeatedReport self.old.on.entry.names) self.old self.new) }
    {
        let names = self.names();
        let aliases = aliases_of(names);
        let parts = parts_of(self.allocator(), aliases)?;
        self.push_each(NameKind::Alias, parts.as_slice())?;
        Ok(())
    }

    /// Adds the remark on names that are too long.
    fn push_long_names(&mut self) -> Result<(), AllocError>
        ensures { OnOk result
            (GainsThese (long_names self.old.on.entry.names) self.old self.new) }
    {
        let text = self.names();
        if text.len() > MOST_NAME_BYTES {
            let name = b"names".as_slice();
            let subject = NamedText { name, text };
            return self.push_on_values(&subject, Finding::LongNames, Evidence::None);
        }
        Ok(())
    }

    /// Adds the remark on a name of an extended capability.
    fn push_own_name(&mut self, name: &'a [u8]) -> Result<(), AllocError>
        ensures { OnOk result (Gains (IsOwnNameReport name.now) self.old self.new) }
    {
        if is_fit(name) {
            return Ok(());
        }
        self.push_on_name(name, Finding::OwnNameControl)?;
        Ok(())
    }

    /// The same of some names.
    fn push_own_names(&mut self, names: &[&'a [u8]]) -> Result<(), AllocError>
        ensures { OnOk result
            (Gains (AreAll IsOwnNameReport (texts_lent names.now)) self.old self.new) }
    {
        'names: for name in names {
            self.push_own_name(*name)?;
        }
        Ok(())
    }

    /// The same of all names of extended capabilities.
    fn push_all_own_names(&mut self) -> Result<(), AllocError>
        ensures { OnOk result (Gains
            (AreAll IsOwnNameReport (part_names self.old.on.entry.extended)) self.old self.new) }
    {
        let names = names_of(self.allocator(), &self.entry().extended())?;
        self.push_own_names(names.as_slice())?;
        Ok(())
    }

    /// Adds the remarks on the bytes of names.
    pub fn push_name_bytes(&mut self) -> Result<(), AllocError>
        ensures { OnOk result (Gains (AreNameByteRemarks self.old.on.entry) self.old self.new) }
    {
        let control = control_place(self.names());
        self.push_on_names(control, Finding::NamesControl)?;
        self.push_malformed_names()?;
        self.push_aliases()?;
        self.push_repeated_aliases()?;
        self.push_long_names()?;
        self.push_all_own_names()?;
        Ok(())
    }
}
