//! The texts of an entry: those of which it is known what they are, and the others.

ghost use Rattle.std.specs.Prelude.{◌≡◌, ◌++◌, IfOk, OnOk};
ghost use Rattle.ti_words.specs.Items.{item_value, subject_value};
ghost use Rattle.ti_rules.specs.Subjects.{is_standard as the_is_standard, known_text, known_texts as the_known_texts, subject_class as the_subject_class, subject_name as the_subject_name, unknown_text, unknown_texts as the_unknown_texts};
ghost use Rattle.ti_rules.specs.inner.Held.{texts_held, unknowns_held};

use crate::pairs::standard_label;
use crate::remark::NamedText;
use std::alloc::{AllocError, Allocator};
use ti_entry::Entry;
use ti_lint::extended_class_of;
use ti_names::{Class, class_of};
use ti_words::{Item, Subject};

/// A text that is there, and what it is.
#[derive(Clone, Copy)]
pub struct KnownText<'a> {
    pub subject: NamedText<'a>,
    pub class: Class,
    /// It is one of terminfo(5).
    pub standard: bool,
}

/// Returns the class of a text, if it is known.
fn subject_class(subject: Subject<'_>) -> Option<Class>
    ensures { result ≡ the_subject_class (subject_value subject.entry) }
{
    match subject {
        Subject::Standard(_, index) => class_of(index),
        Subject::Extended(_, name) => extended_class_of(name),
    }
}

/// Returns the name of a text.
fn subject_name(subject: Subject<'_>) -> &[u8]
    ensures { result.now ≡ the_subject_name (subject_value subject.entry) }
{
    match subject {
        Subject::Standard(_, index) => standard_label(index).as_bytes(),
        Subject::Extended(_, name) => name,
    }
}

/// Whether a text is one of terminfo(5).
fn is_standard(subject: Subject<'_>) -> bool
    ensures { result ≡ the_is_standard (subject_value subject.entry) }
{
    match subject {
        Subject::Standard(_, _) => true,
        Subject::Extended(_, _) => false,
    }
}

/// Adds a capability, if it is such a text.
fn add_text<'a, A: Allocator>(
    texts: &mut Vec<KnownText<'a>, A>,
    subject: Subject<'a>,
    item: Item<'a>,
) -> Result<(), AllocError>
    ensures { OnOk result (texts_held texts.new.items
        ≡ texts_held texts.old.items ++ known_text (subject_value subject.entry, item_value item.entry)) }
{
    if let (Some(class), Some(text)) = (subject_class(subject), item.text()) {
        let name = subject_name(subject);
        texts.push(KnownText {
            subject: NamedText { name, text },
            class,
            standard: is_standard(subject),
        })?;
    }
    Ok(())
}

/// The texts of an entry of which it is known what they are, in the order of its capabilities.
pub fn known_texts<'a, A: Allocator>(
    alloc: A,
    entry: &Entry<'a>,
) -> Result<Vec<KnownText<'a>, A>, AllocError>
    ensures { IfOk result (λ texts. texts_held texts.items ≡ the_known_texts entry.now) }
{
    let mut texts = Vec::new(alloc);
    let mut items = entry.items();
    'items: while let Some((subject, item)) = items.next() {
        add_text(&mut texts, subject, item)?;
    }
    Ok(texts)
}

/// Adds a capability, if it is a text of which it is not known what it is.
fn add_unknown<'a, A: Allocator>(
    texts: &mut Vec<NamedText<'a>, A>,
    subject: Subject<'a>,
    item: Item<'a>,
) -> Result<(), AllocError>
    ensures { OnOk result (unknowns_held texts.new.items
        ≡ unknowns_held texts.old.items ++ unknown_text (subject_value subject.entry, item_value item.entry)) }
{
    if let (None, Some(text)) = (subject_class(subject), item.text()) {
        let name = subject_name(subject);
        texts.push(NamedText { name, text })?;
    }
    Ok(())
}

/// The texts of an entry of which it is not known what they are, in the order of its capabilities.
pub fn unknown_texts<'a, A: Allocator>(
    alloc: A,
    entry: &Entry<'a>,
) -> Result<Vec<NamedText<'a>, A>, AllocError>
    ensures { IfOk result (λ texts. unknowns_held texts.items ≡ the_unknown_texts entry.now) }
{
    let mut texts = Vec::new(alloc);
    let mut items = entry.items();
    'items: while let Some((subject, item)) = items.next() {
        add_unknown(&mut texts, subject, item)?;
    }
    Ok(texts)
}
