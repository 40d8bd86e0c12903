//! A draft of an entry that was read.
//!
//! The capabilities are gone over once, and each list takes its memory at once. Names and texts stay where the entry has
//! them.

ghost use Rattle.std.specs.Prelude.{◌≡◌, IsOk, IfOk, OnOk};
ghost use Rattle.ti_words.specs.Items.{item_value, subject_value};
ghost use Rattle.ti_words.specs.Value.{bare};
ghost use Rattle.ti_entry.specs.Drafts.{with_item};

use crate::entry::Entry;
use std::alloc::{AllocError, Allocator};
use ti_draft::Draft;
use ti_words::{Item, Subject};

/// Adds a capability after the others of its kind and part.
fn add_item<'a, A: Allocator>(
    draft: &mut Draft<'a, A>,
    subject: Subject<'a>,
    item: Item<'a>,
) -> Result<(), AllocError>
    ensures { OnOk result (draft.new
        ≡ with_item draft.old (subject_value subject.entry, item_value item.entry)) }
{
    match subject {
        Subject::Standard(_, _) => match item {
            Item::Flag(flag) => draft.push_flag(flag),
            Item::Number(number) => draft.push_number(number),
            Item::Text(text) => draft.push_text(text),
        },
        Subject::Extended(_, name) => match item {
            Item::Flag(flag) => draft.push_extended_flag(name, flag),
            Item::Number(number) => draft.push_extended_number(name, number),
            Item::Text(text) => draft.push_extended_text(name, text),
        },
    }
}

/// Takes memory for the capabilities of an entry; without one it needs none.
fn reserve<A: Allocator>(draft: &mut Draft<'_, A>, entry: &Entry<'_>) -> Result<(), AllocError>
    ensures same { OnOk result (draft.new ≡ draft.old) }
    ensures no_memory { entry.now ≡ bare entry.now.width entry.now.names → IsOk result }
{
    let extended = entry.extended();
    draft.reserve(entry.flag_count(), entry.number_count(), entry.text_count())?;
    draft.reserve_extended(
        extended.flag_count(),
        extended.number_count(),
        extended.text_count(),
    )
}

impl<'a> Entry<'a> {
    /// A draft that says what the entry says. An entry with no capability needs no memory.
    ///
    /// # Errors
    ///
    /// Memory was refused.
    pub fn draft<A: Allocator + Copy>(&self, alloc: A) -> Result<Draft<'a, A>, AllocError>
        ensures draft { IfOk result (λ draft. draft ≡ self.now) }
        // Without a capability it needs no memory.
        ensures no_memory { self.now ≡ bare self.now.width self.now.names → IsOk result }
    {
        let mut draft = Draft::new(alloc, self.names(), self.width());
        reserve(&mut draft, self)?;
        let mut items = self.items();
        'items: while let Some((subject, item)) = items.next() {
            add_item(&mut draft, subject, item)?;
        }
        Ok(draft)
    }
}
