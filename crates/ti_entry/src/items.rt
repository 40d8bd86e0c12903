//! The capabilities of an entry as one list: flags, numbers and texts of terminfo(5), and then those that it names itself.
//!
//! A step takes a few instructions and no memory. A text that starts within the one before it ends where that does, and
//! its NUL is not looked for again, so a pass is linear in the entry.

ghost use Rattle.std.specs.Prelude.{◌≡◌, ◌∷◌, [], IfNone, IfSome, drop};
ghost use Rattle.ti_words.specs.Items.{item_value, items, listed_value, subject_value};
ghost use Rattle.ti_entry.specs.Items.{IsItemOf, item_in};

use crate::entry::Entry;
use crate::part_view::PartView;
use std::marker::Model;
use ti_layout::Texts;
use ti_words::{Item, Kind, Subject};

/// The rest of the list of an entry's capabilities.
#[derive(Drop)]
pub struct Items<'e, 'a> {
    entry: &'e Entry<'a>,
    place: usize,
    standard: Texts<'a>,
    extended: Texts<'a>,
}

impl<'e, 'a> Model for Items<'e, 'a> {
    ghost use Rattle.std.specs.Prelude.{◌≡◌, List, drop};
    ghost use Rattle.ti_words.specs.Items.{Listed, items};
    ghost use Rattle.ti_words.specs.Spelling.{without_names};

    ghost Value = { List Listed };

    ghost view = { λ i. drop i.place (items i.entry.now) };

    ghost invariant = { λ i. (i.standard ≡ i.entry.now.standard.texts)
        × (i.extended ≡ (without_names i.entry.now.extended).texts) };
}

/// The value of the capability of a kind at an index, its texts read one after another.
#[inline(always)]
fn item_of<'a>(part: &PartView<'a>, texts: &mut Texts<'a>, kind: Kind, index: usize) -> Item<'a>
    requires { texts.old ≡ part.now.texts }
    ensures value { item_value result ≡ item_in part.now kind index }
    ensures same { texts.new ≡ texts.old }
{
    match kind {
        Kind::Flag | Kind::Number => part.item(kind, index),
        Kind::Text => Item::Text(texts.text(index)),
    }
}

impl<'a> Items<'_, 'a> {
    /// The next capability and its value, or none at the end.
    #[inline]
    pub fn next(&mut self) -> Option<(Subject<'a>, Item<'a>)>
        ensures some { IfSome result (λ listed. self.old ≡ listed_value listed ∷ self.new) }
        ensures none { IfNone result ((self.old ≡ []) × (self.new ≡ [])) }
    {
        let (place, part) = (self.place, self.entry.standard());
        let before = part.count();
        if place < before {
            self.place += 1;
            let (kind, index) = part.at(place);
            let item = item_of(&part, &mut self.standard, kind, index);
            return Some((Subject::Standard(kind, index), item));
        }
        let extended = self.entry.extended();
        let without_names = extended.without_names();
        if place - before >= without_names.count() {
            return None;
        }
        self.place += 1;
        let (kind, index) = without_names.at(place - before);
        let item = item_of(&without_names, &mut self.extended, kind, index);
        let name = extended.name_or_empty(kind, index);
        Some((Subject::Extended(kind, name), item))
    }
}

impl<'a> Iterator for Items<'_, 'a> {
    ghost use Rattle.std.specs.Iterator.{YieldsFirstBy, item_count};
    ghost use Rattle.ti_words.specs.Items.{listed_value};

    type Item = (Subject<'a>, Item<'a>);

    ghost next_gives = { YieldsFirstBy listed_value (λ items. items) };

    ghost remaining = { item_count (λ items. items) };

    fn next(&mut self) -> Option<(Subject<'a>, Item<'a>)> {
        Items::next(self)
    }
}

impl<'a> Entry<'a> {
    /// Its capabilities in the order of a listing: each flag, number and text of terminfo(5), and then each that it names
    /// itself, those too that are absent or cancelled.
    ///
    /// # Examples
    ///
    /// ```rust
    /// let mut items = entry.items();
    /// assert!(rt; items.next() == Some((Subject::Standard(Kind::Flag, 0), Item::Flag(Flag::Yes))));
    /// ```
    pub fn items(&self) -> Items<'_, 'a>
        ensures { result ≡ items self.now }
    {
        self.items_from(0)
    }

    /// The same from a place of the list on; none at or above their count.
    pub fn items_from(&self, place: usize) -> Items<'_, 'a>
        ensures { result ≡ drop place (items self.now) }
    {
        Items {
            entry: self,
            place,
            standard: self.standard().texts(),
            extended: self.extended().without_names().texts(),
        }
    }

    /// The value of a capability. One that the entry does not have is absent; of several of a kind with one name the first
    /// counts.
    pub fn item(&self, subject: Subject<'_>) -> Item<'a>
        ensures { IsItemOf self.now (subject_value subject.entry) (item_value result) }
    {
        match subject {
            Subject::Standard(kind, index) => self.standard().item(kind, index),
            Subject::Extended(kind, name) => {
                let extended = self.extended();
                match extended.find_of(kind, name) {
                    Some(index) => extended.without_names().item(kind, index),
                    None => Item::none_of(kind),
                }
            }
        }
    }
}
