//! Capabilities of an entry by any of their names.

ghost use Rattle.std.specs.Prelude.{◌≡◌};
ghost use Rattle.ti_words.specs.Items.{item_value};
ghost use Rattle.ti_entry.specs.Finding.{IsPosition};
ghost use Rattle.ti_entry.specs.Items.{item_at};

use crate::entry::Entry;
use ti_names::find_short_or_long;
use ti_words::{Item, Kind};

/// Where an entry has a capability: the kind and the index among the standard ones, or among those that it names itself.
#[derive(Clone, Copy, Debug, PartialEq, Eq)]
pub enum Position {
    /// A capability of terminfo(5). The entry may have fewer of the kind.
    Standard(Kind, usize),
    /// A capability of the extended part.
    Extended(Kind, usize),
}

impl<'a> Entry<'a> {
    /// The place of the capability with a name: a short name of terminfo(5), such as `cup`, else a long one, such as
    /// `cursor_address`, else the first of the entry's own names that is equal.
    ///
    /// # Examples
    ///
    /// ```rust
    /// assert!(rt; entry.position(b"bel") == Some(Position::Standard(Kind::Text, 1)));
    /// assert!(rt; entry.position(b"E3") == Some(Position::Extended(Kind::Text, 0)));
    /// ```
    pub fn position(&self, name: &[u8]) -> Option<Position>
        ensures { IsPosition self.now name.now result }
    {
        if let Some((kind, index)) = find_short_or_long(name) {
            return Some(Position::Standard(kind, index));
        }
        let (kind, index) = self.extended().find(name)?;
        Some(Position::Extended(kind, index))
    }
    /// The value at a position.
    pub fn item_at(&self, position: Position) -> Item<'a>
        ensures { item_value result ≡ item_at self.now position }
    {
        match position {
            Position::Standard(kind, index) => self.standard().item(kind, index),
            Position::Extended(kind, index) => self.extended().without_names().item(kind, index),
        }
    }
}
