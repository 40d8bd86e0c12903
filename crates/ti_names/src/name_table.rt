//! The names of capabilities in three tables: the common ones, all of `term.h`, and all long ones.
//!
//! Each table takes its names from the same rows, and an index is that of a row. A name is compared with that of the only
//! capability that can have it. After each name of a row stands a NUL. No call takes memory.

ghost use Rattle.std.specs.Prelude.{◌≡◌, ℕ, List, Some, map, option_map};
ghost use Rattle.std.specs.Option.{option_or};
ghost use Rattle.ti_words.specs.declared.Kind.TheVariants as kinds;
ghost use Rattle.ti_names.specs.declared.name_table.NameTable.TheVariants as tables;
ghost use Rattle.ti_names.specs.AllNames.{IsNameAt, IsNamedIn, IsPlaceOf, has_index, listed, place_in, with_nul};
ghost use Rattle.ti_names.specs.NameLists.{rows};
ghost use Rattle.ti_names.specs.inner.Hints.{IsOnlyPlace};

use crate::hint::only_place;
use crate::table::{
    COMMON_FLAGS, COMMON_NUMBERS, COMMON_TEXTS, FLAGS, LONG_FLAGS, LONG_NUMBERS, LONG_TEXTS,
    NUMBERS, TEXTS,
};
use ti_words::Kind;

/// A table of names of capabilities.
#[derive(Clone, Copy, Debug, PartialEq, Eq)]
pub enum NameTable {
    /// The 114 names that `flag_name`, `number_name`, `text_name` and `find` know.
    Common,
    /// The names of all 44 flags, 39 numbers and 414 texts of the header `term.h` of ncurses 6.4.
    All,
    /// The long names of the same capabilities (terminfo(5)), such as `cursor_address` for `cup`.
    Long,
}

impl NameTable {
    /// The name of the capability of a kind at an index of an entry, such as `cup` of the text at 10, if the table has one.
    #[inline(always)]
    pub fn name_at(self, kind: Kind, index: usize) -> Option<&'static str>
        ensures { IsNameAt self kind index (option_map (λ name. name.now) result) }
    {
        if !self.has(kind, index) {
            return None;
        }
        let listed = self.list_of(kind).get(index).copied()?;
        without_nul(listed)
    }

    /// The name of the flag at an index of an entry, such as `bw` at 0, if the table has one.
    pub fn flag_name(self, index: usize) -> Option<&'static str>
        ensures { IsNameAt self kinds.Flag index (option_map (λ name. name.now) result) }
    {
        self.name_at(Kind::Flag, index)
    }

    /// The name of the number at an index of an entry, such as `cols` at 0, if the table has one.
    pub fn number_name(self, index: usize) -> Option<&'static str>
        ensures { IsNameAt self kinds.Number index (option_map (λ name. name.now) result) }
    {
        self.name_at(Kind::Number, index)
    }

    /// The name of the text at an index of an entry, such as `cup` at 10, if the table has one.
    pub fn text_name(self, index: usize) -> Option<&'static str>
        ensures { IsNameAt self kinds.Text index (option_map (λ name. name.now) result) }
    {
        self.name_at(Kind::Text, index)
    }

    /// The kind and index of the capability that has a name, if the table has it: `cup` is the text at 10.
    ///
    /// # Examples
    ///
    /// ```rust
    /// assert!(rt; NameTable::All.find("cup") == Some((Kind::Text, 10)));
    /// assert!(rt; NameTable::Long.find("cursor_address") == Some((Kind::Text, 10)));
    /// ```
    pub fn find(self, name: &str) -> Option<(Kind, usize)>
        ensures { IsPlaceOf self name.now result }
    {
        self.find_bytes(name.as_bytes())
    }

    /// The same for a name as bytes, which need not be text.
    #[inline(always)]
    pub fn find_bytes(self, name: &[u8]) -> Option<(Kind, usize)>
        ensures { IsPlaceOf self name.now result }
    {
        self.look_at(only_place(name), name)
    }

    /// Whether the table has the name at an index of a kind, if there is one.
    fn has(self, kind: Kind, index: usize) -> bool
        ensures { result ≡ has_index self kind index }
    {
        match self {
            NameTable::Common => common_of(kind).get(index).copied().unwrap_or(false),
            NameTable::All | NameTable::Long => true,
        }
    }

    /// The list that has the names of a kind in the table.
    #[tactic(auto, unfolding(crate::specs::NameLists::all_flags, crate::specs::NameLists::all_numbers, crate::specs::NameLists::all_texts))]
    fn list_of(self, kind: Kind) -> &'static [&'static str]
        ensures { map (λ name. name.now) result.now ≡ map with_nul (listed self kind) }
    {
        match self {
            NameTable::Common | NameTable::All => match kind {
                Kind::Flag => &FLAGS,
                Kind::Number => &NUMBERS,
                Kind::Text => &TEXTS,
            },
            NameTable::Long => match kind {
                Kind::Flag => &LONG_FLAGS,
                Kind::Number => &LONG_NUMBERS,
                Kind::Text => &LONG_TEXTS,
            },
        }
    }

    /// The place of a name: the only one that can have it, if it does.
    #[inline(always)]
    fn look_at(self, place: (Kind, usize), name: &[u8]) -> Option<(Kind, usize)>
        requires { IsOnlyPlace name.now place }
        ensures { result ≡ place_in self name.now }
    {
        let (kind, index) = place;
        match self.name_at(kind, index) {
            Some(known) if known.as_bytes() == name => Some(place),
            _ => None,
        }
    }
}

/// The kind and the index of the capability that has a name: a short one, such as `cup`, or a long one, such as
/// `cursor_address`.
pub fn find_short_or_long(name: &[u8]) -> Option<(Kind, usize)>
    ensures { result ≡ option_or (place_in tables.All name.now) (place_in tables.Long name.now) }
{
    let place = only_place(name);
    match NameTable::All.look_at(place, name) {
        Some(found) => Some(found),
        None => NameTable::Long.look_at(place, name),
    }
}

/// A name as a list holds it, without the NUL after it.
fn without_nul(listed: &'static str) -> Option<&'static str>
    ensures { (name : List ℕ) → listed.now ≡ with_nul name
        → option_map (λ name. name.now) result ≡ Some name }
{
    listed.strip_suffix('\0')
}

/// Which names of a kind are common.
#[tactic(auto, unfolding(crate::specs::NameLists::all_flags, crate::specs::NameLists::all_numbers, crate::specs::NameLists::all_texts))]
fn common_of(kind: Kind) -> &'static [bool]
    ensures { result.now ≡ map (λ row. row.2) (rows kind) }
{
    match kind {
        Kind::Flag => &COMMON_FLAGS,
        Kind::Number => &COMMON_NUMBERS,
        Kind::Text => &COMMON_TEXTS,
    }
}
