//! The names of extended capabilities: each should stand once, and be none of terminfo(5).

ghost use Rattle.std.specs.Prelude.{◌≡◌, ◌++◌, [], IfOk, OnOk, get_or, length};
ghost use Rattle.ti_entry.specs.Finding.{names_of as the_names_of};
ghost use Rattle.ti_rules.specs.Lines.{AreReports};
ghost use Rattle.ti_rules.specs.Names.{AreNameRemarks, IsNameReport, on_again, on_new, on_standard_name};
ghost use Rattle.ti_rules.specs.inner.Growing.{Gains, GainsThese};
ghost use Rattle.ti_rules.specs.inner.Lent.{texts_lent};
ghost use Rattle.ti_words.specs.Spelling.{part_names};

use crate::finding::Finding;
use crate::report::Report;
use std::alloc::{AllocError, Allocator};
use std::collections::BTreeSet;
use ti_entry::Extended;
use ti_names::NameTable;
use ti_words::Kind;

/// Which names stand.
#[derive(Clone, Copy)]
pub enum NameKind {
    /// Those of extended capabilities.
    Own,
    /// Those of the entry.
    Alias,
}

/// Adds the names of a kind.
fn add_names<'a, A: Allocator>(
    names: &mut Vec<&'a [u8], A>,
    extended: &Extended<'a>,
    kind: Kind,
) -> Result<(), AllocError>
    ensures { OnOk result (texts_lent names.new.items
        ≡ texts_lent names.old.items ++ the_names_of extended.now kind) }
{
    'names: for index in 0..extended.count_of(kind) {
        names.push(extended.name_or_empty(kind, index))?;
    }
    Ok(())
}

/// The names of flags, then of numbers, then of texts.
pub fn names_of<'a, A: Allocator>(
    alloc: A,
    extended: &Extended<'a>,
) -> Result<Vec<&'a [u8], A>, AllocError>
    ensures { IfOk result (λ names. texts_lent names.items ≡ part_names extended.now) }
{
    let mut names = Vec::new(alloc);
    add_names(&mut names, extended, Kind::Flag)?;
    add_names(&mut names, extended, Kind::Number)?;
    add_names(&mut names, extended, Kind::Text)?;
    Ok(names)
}

impl<'r, 'a, A: Allocator + Copy> Report<'r, 'a, A> {
    /// Adds the remark on a name that is one of terminfo(5).
    fn push_standard(&mut self, name: &'a [u8]) -> Result<(), AllocError>
        ensures { OnOk result (GainsThese (on_standard_name name.now) self.old self.new) }
    {
        if NameTable::All.find_bytes(name).is_some() {
            return self.push_on_name(name, Finding::StandardName);
        }
        Ok(())
    }

    /// Adds the remark on a name that stands the first time.
    fn push_new(&mut self, kind: NameKind, name: &'a [u8]) -> Result<(), AllocError>
        ensures { OnOk result (GainsThese (on_new kind name.now) self.old self.new) }
    {
        match kind {
            NameKind::Own => self.push_standard(name),
            NameKind::Alias => Ok(()),
        }
    }

    /// Adds the remark on a name that stands again.
    fn push_again(&mut self, kind: NameKind, name: &'a [u8]) -> Result<(), AllocError>
        ensures { OnOk result (GainsThese (on_again kind name.now) self.old self.new) }
    {
        match kind {
            NameKind::Own => self.push_on_name(name, Finding::RepeatedName),
            NameKind::Alias => self.push_on_name(name, Finding::RepeatedAlias),
        }
    }

    /// Adds the remarks on names.
    pub fn push_each(&mut self, kind: NameKind, names: &[&'a [u8]]) -> Result<(), AllocError>
        ensures { OnOk result (Gains (AreReports (IsNameReport kind (texts_lent names.now)) 0
            (texts_lent names.now)) self.old self.new) }
    {
        let mut seen = BTreeSet::new(self.allocator());
        'names: for name in names {
            if seen.insert(*name)? {
                self.push_new(kind, name)?;
            } else {
                self.push_again(kind, name)?;
            }
        }
        Ok(())
    }

    /// Adds the remarks on the names of extended capabilities.
    pub fn push_names(&mut self) -> Result<(), AllocError>
        ensures { OnOk result
            (Gains (AreNameRemarks self.old.on.entry.extended) self.old self.new) }
    {
        let names = names_of(self.allocator(), &self.entry().extended())?;
        self.push_each(NameKind::Own, names.as_slice())?;
        Ok(())
    }
}
