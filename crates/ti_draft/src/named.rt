//! Capabilities of an extended part, each with its name, in the order in which they were added.
//!
//! Contracts see one list of names with what they name. The names and the rest lie in two vectors, so that each is lent
//! as a slice of its own. A name is kept as a text that is there, since it is written as one.

ghost use Rattle.std.specs.Prelude.{◌≡◌, ◌++◌, ◌∷◌, [], map, IsOk, OnOk, OnErr};
ghost use Rattle.ti_words.specs.Texts.{text_value, TextOf};
ghost use Rattle.ti_words.specs.Spelling.{name_in, mark_in};

use std::alloc::{AllocError, Allocator};
use std::marker::Model;
use ti_words::Text;

/// Names with what they name.
#[derive(Drop)]
pub(crate) struct Named<'a, T, A: Allocator> {
    names: Vec<Text<'a>, A>,
    marks: Vec<T, A>,
}

impl<'a, T, A: Allocator> Model for Named<'a, T, A> {
    ghost use Rattle.std.specs.Prelude.{◌≡◌, ℕ, List, length, map};
    ghost use Rattle.std.specs.List.{zip};
    ghost use Rattle.ti_words.specs.Texts.{text_value, TextOf};
    ghost use Rattle.ti_draft.specs.Lists.{name_of};

    ghost Value = { List (List ℕ × T) };

    ghost view = { λ n. zip (map name_of n.names.items) n.marks.items };

    ghost invariant = { λ n. (length n.names.items ≡ length n.marks.items)
        × (map text_value n.names.items ≡ map TextOf (map name_of n.names.items)) };
}

impl<'a, T, A: Allocator> Named<'a, T, A> {
    /// None yet, which takes no memory.
    pub(crate) fn new(alloc: A) -> Self
    where
        A: Copy,
        ensures { result ≡ [] }
    {
        Named {
            names: Vec::new(alloc),
            marks: Vec::new(alloc),
        }
    }

    /// Adds one at the end; without memory for it the list is unchanged.
    pub(crate) fn push(&mut self, name: &'a [u8], mark: T) -> Result<(), AllocError>
    where
        T: Drop,
        ensures added { OnOk result (self.new ≡ self.old ++ (name.now, mark) ∷ []) }
        ensures unchanged { OnErr result (self.new ≡ self.old) }
    {
        let count = self.names.len();
        self.names.push(Text::Value(name))?;
        match self.marks.push(mark) {
            Ok(()) => Ok(()),
            Err(refused) => {
                self.names.truncate(count);
                Err(AllocError::from(refused))
            }
        }
    }

    /// Takes memory for so many more at once.
    pub(crate) fn reserve(&mut self, more: usize) -> Result<(), AllocError>
        ensures same { self.new ≡ self.old }
        ensures no_memory { more ≡ 0 → IsOk result }
    {
        self.names.reserve_exact(more)?;
        self.marks.reserve_exact(more)
    }

    /// The names.
    pub(crate) fn names(&self) -> &[Text<'a>]
        ensures { map text_value result.now ≡ map TextOf (map name_in self.now) }
    {
        self.names.as_slice()
    }

    /// Returns their values.
    pub(crate) fn marks(&self) -> &[T]
        ensures { result.now ≡ map mark_in self.now }
    {
        self.marks.as_slice()
    }
}
