//! Two texts of which one should undo the other.

ghost use Rattle.std.specs.Prelude.{◌≡◌, OnOk, map};
ghost use Rattle.std.specs.List.{flat_map};
ghost use Rattle.ti_lint.specs.Pairs.{names_of};
ghost use Rattle.ti_words.specs.Texts.{text_value};
ghost use Rattle.ti_rules.specs.Pairs.{all_pair_remarks, equal_pair, pair_remarks, standard_label};
ghost use Rattle.ti_rules.specs.inner.Growing.{GainsThese};

use crate::finding::Finding;
use crate::lookup::text_named;
use crate::remark::NamedText;
use crate::report::Report;
use std::alloc::{AllocError, Allocator};
use ti_lint::{toggling_pairs, undoing_pairs};
use ti_names::NameTable;
use ti_words::Text;

/// Returns the name of the standard text at an index.
pub fn standard_label(index: usize) -> &'static str
    ensures { result.now ≡ standard_label index }
{
    NameTable::All.text_name(index).unwrap_or("")
}

impl<'r, 'a, A: Allocator + Copy> Report<'r, 'a, A> {
    /// Adds a remark on two texts, if both are there, are the same and send something.
    fn push_equal(
        &mut self,
        finding: Finding,
        names: (&'static str, &'static str),
        texts: (Text<'a>, Text<'a>),
    ) -> Result<(), AllocError>
        ensures { OnOk result (GainsThese (equal_pair finding names.entry.0.now names.entry.1.now
            (text_value texts.entry.0) (text_value texts.entry.1)) self.old self.new) }
    {
        let (Text::Value(one), Text::Value(other)) = texts else {
            return Ok(());
        };
        if one.is_empty() || one != other {
            return Ok(());
        }
        let one = NamedText {
            name: names.0.as_bytes(),
            text: one,
        };
        let other = NamedText {
            name: names.1.as_bytes(),
            text: other,
        };
        self.push_on_two(one, other, finding)
    }

    /// Adds the remarks on each pair of texts.
    fn push_pairs_of(
        &mut self,
        finding: Finding,
        pairs: &[(&'static str, &'static str)],
    ) -> Result<(), AllocError>
        ensures { OnOk result (GainsThese
            (flat_map (pair_remarks finding self.old.on.entry) (map names_of pairs.now)) self.old self.new) }
    {
        let entry = self.entry();
        'pairs: for (one, other) in pairs {
            let texts = (text_named(entry, one), text_named(entry, other));
            self.push_equal(finding, (*one, *other), texts)?;
        }
        Ok(())
    }

    /// Adds the remarks on each pair of texts of which one should undo the other, and on those that start and end a mode.
    pub fn push_pairs(&mut self) -> Result<(), AllocError>
        ensures { OnOk result
            (GainsThese (all_pair_remarks self.old.on.entry) self.old self.new) }
    {
        self.push_pairs_of(Finding::EqualPair, undoing_pairs())?;
        self.push_pairs_of(Finding::ToggledPair, toggling_pairs())?;
        Ok(())
    }
}
