//! The classes of the standard texts: which have parameters and how many, which are sent as they stand, and which are
//! never sent.

ghost use Rattle.std.specs.Prelude.{◌≡◌, map};
ghost use Rattle.ti_names.specs.NameLists.{all_texts, class_at};

use crate::table::CLASSES;

/// The class of a text.
#[derive(Clone, Copy, Debug, PartialEq, Eq)]
pub enum Class {
    /// A capability with so many parameters, which is expanded before it is sent.
    Parameterized(u8),
    /// Sent as it stands, so that `%` is a byte like others.
    Plain,
    /// The bytes that a key sends.
    Key,
    /// The label of a function key.
    Label,
    /// A list in a form of its own, such as the pairs of `acsc`.
    List,
    /// The name of a file.
    File,
    /// One character.
    Character,
    /// A pattern of what the terminal answers.
    Input,
}

/// Returns the class of the standard text at an index of an entry, such as `cup` at 10, which has two parameters.
pub fn class_of(index: usize) -> Option<Class>
    ensures value { result ≡ class_at index }
{
    classes().get(index).copied()
}

/// The classes of all texts.
fn classes() -> &'static [Class]
    ensures { result.now ≡ map (λ row. row.1) all_texts }
{
    &CLASSES
}
