//! The names of capabilities in the lines on an entry.

ghost use Rattle.std.specs.Prelude.{◌≡◌, ◌++◌, OnOk};
ghost use Rattle.ti_words.specs.Items.{subject_value};
ghost use Rattle.ti_escape.specs.Notation.{label_notation};
ghost use Rattle.ti_listing.specs.Labels.{label_of, subject_label, subject_word as the_subject_word};

use crate::plain_name::is_plain_name;
use itoa::Buffer;
use std::alloc::{AllocError, Allocator};
use ti_escape::push_label as push_escaped;
use ti_line::{NameForm, Naming};
use ti_names::NameTable;
use ti_words::{Kind, Subject};

/// Returns the word before the label: the kind, with a `+` if the entry names the capability itself.
pub fn subject_word(subject: Subject<'_>) -> &'static [u8]
    ensures { result.now ≡ the_subject_word (subject_value subject.entry) }
{
    match subject {
        Subject::Standard(Kind::Flag, _) => b"flag ",
        Subject::Standard(Kind::Number, _) => b"number ",
        Subject::Standard(Kind::Text, _) => b"text ",
        Subject::Extended(Kind::Flag, _) => b"flag+ ",
        Subject::Extended(Kind::Number, _) => b"number+ ",
        Subject::Extended(Kind::Text, _) => b"text+ ",
    }
}

/// Writes the label of a standard capability.
fn push_standard_label<A: Allocator>(
    out: &mut Vec<u8, A>,
    table: NameTable,
    kind: Kind,
    index: usize,
) -> Result<(), AllocError>
    ensures { OnOk result (out.new.items ≡ out.old.items ++ label_of table kind index) }
{
    match table.name_at(kind, index) {
        Some(name) => out.extend_from_slice(name.as_bytes()),
        None => {
            let mut digits = Buffer::new();
            out.extend_from_slice(b"#")?;
            out.extend_from_slice(digits.format(index).as_bytes())
        }
    }
}

/// Writes a name in the notation, with its spaces escaped too. Most names are their own notation.
#[tactic(auto, using(crate::proofs::PlainNameLemmas::plain_label))]
fn push_name<A: Allocator>(out: &mut Vec<u8, A>, name: &[u8]) -> Result<(), AllocError>
    ensures { OnOk result (out.new.items ≡ out.old.items ++ label_notation name.now) }
{
    if is_plain_name(name) {
        out.extend_from_slice(name)
    } else {
        push_escaped(out, name)
    }
}

/// Writes what a capability is called: a standard one by a table of names, or by `#` and its index if it has no name there,
/// and an extended one by its own name.
///
/// # Errors
///
/// Memory was refused.
pub fn push_label<A: Allocator>(
    out: &mut Vec<u8, A>,
    naming: Naming,
    subject: Subject<'_>,
) -> Result<(), AllocError>
    ensures { OnOk result (out.new.items
        ≡ out.old.items ++ subject_label naming (subject_value subject.entry)) }
{
    match subject {
        Subject::Standard(kind, index) => push_standard_label(out, naming.table, kind, index),
        Subject::Extended(_, name) => match naming.form {
            NameForm::Raw => out.extend_from_slice(name),
            NameForm::Notation => push_name(out, name),
        },
    }
}
