//! The variables into which the texts of an entry store.

ghost use Rattle.std.specs.Prelude.{ℕ, ◌↔◌};
ghost use Rattle.ti_cap.specs.Refusal.{IsFaultless};
ghost use Rattle.ti_lint.specs.Variables.{HasOnlyLetters, HasVariable, IsStored};
ghost use Rattle.ti_rules.specs.Reports.{AreStored, StoresAs};
ghost use Rattle.ti_rules.specs.inner.Held.{texts_held};

use crate::subject::KnownText;
use ti_cap::Capability;
use ti_lint::{Variables, stored_by};
use ti_names::Class;

/// The variables into which a text stores, if it is a capability.
fn stored_in(text: &[u8]) -> Variables
    ensures exact { (which : ℕ) → HasVariable result which
        ↔ (IsFaultless text.now × IsStored text.now which) }
    ensures only { HasOnlyLetters result }
{
    match Capability::parse(text) {
        Ok(capability) => stored_by(&capability),
        Err(_) => Variables::NONE,
    }
}

/// The same of a text of a class: only one with parameters is expanded.
fn stored_as(text: &[u8], class: Class) -> Variables
    ensures exact { (which : ℕ) → HasVariable result which ↔ StoresAs class text.now which }
    ensures only { HasOnlyLetters result }
{
    match class {
        Class::Parameterized(_) => stored_in(text),
        _ => Variables::NONE,
    }
}

/// The variables into which some of the texts of an entry store.
pub fn stored_by_texts(texts: &[KnownText<'_>]) -> Variables
    ensures { AreStored (texts_held texts.now) result }
{
    let mut stored = Variables::NONE;
    'texts: for text in texts {
        stored = stored.union(stored_as(text.subject.text, text.class));
    }
    stored
}
