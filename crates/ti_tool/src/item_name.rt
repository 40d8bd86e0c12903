//! The value of the capability that a name means.

ghost use Rattle.std.specs.Prelude.{◌≡◌, ℕ, ◌++◌, IfSome, IfNone, List, option_map};
ghost use Rattle.ti_json.specs.Rows.{kind_word};
ghost use Rattle.ti_words.specs.Items.{item_value};
ghost use Rattle.ti_words.specs.declared.Kind.{Kind};
ghost use Rattle.ti_tool.specs.declared.item_name.Names.TheVariants.{Texts};
ghost use Rattle.ti_tool.specs.ItemNames.{IsItemCalled, IsKindLabel, IsPlaceCalled, IsPositionBy, IsWordLabel};

use ti_entry::{Entry, Position};
use ti_line::index_of_label;
use ti_names::NameTable;
use ti_words::{Item, Kind};

/// The names that are known.
#[derive(Clone, Copy)]
pub enum Names {
    /// A text: `#` and one to five digits give its index; else it has the name in a table, or an extended one has it.
    Texts(NameTable),
    /// A capability of any kind: `flag#`, `number#`, `text#` or `#` and one to five digits give its index, `#` that of a
    /// text; else the name is a short one of terminfo(5), a long one, or an extended one.
    All,
}

/// The kind whose word a name begins with, and what stands after it.
fn after_kind(name: &str) -> Option<(Kind, &str)>
    ensures some { IfSome result (λ p. name.now ≡ kind_word p.0 ++ p.1.now) }
    ensures none { IfNone result ((kind : Kind) (label : List ℕ) → ¬ (name.now ≡ kind_word kind ++ label)) }
{
    if let Some(label) = name.strip_prefix("flag") {
        return Some((Kind::Flag, label));
    }
    if let Some(label) = name.strip_prefix("number") {
        return Some((Kind::Number, label));
    }
    match name.strip_prefix("text") {
        Some(label) => Some((Kind::Text, label)),
        None => None,
    }
}

/// The kind and the index that a name such as `flag#10` has.
fn place_after_word(name: &str) -> Option<(Kind, usize)>
    ensures some { IfSome result (λ p. IsWordLabel name.now p.0 p.1) }
    ensures none { IfNone result ((kind : Kind) (index : ℕ) → ¬ IsWordLabel name.now kind index) }
{
    match after_kind(name) {
        Some((kind, label)) => match index_of_label(label) {
            Some(index) => Some((kind, index)),
            None => None,
        },
        None => None,
    }
}

/// The kind and the index that a name such as `#10` or `text#10` has.
fn place_of_label(name: &str, names: Names) -> Option<(Kind, usize)>
    ensures some { IfSome result (λ p. IsKindLabel names name.now p.0 p.1) }
    ensures none { IfNone result ((kind : Kind) (index : ℕ) → ¬ IsKindLabel names name.now kind index) }
{
    match index_of_label(name) {
        Some(index) => Some((Kind::Text, index)),
        None => match names {
            Names::Texts(_) => None,
            Names::All => place_after_word(name),
        },
    }
}

/// The place of the text that has a name in a table, or else of the first extended one.
fn text_position(entry: &Entry<'_>, name: &str, table: NameTable) -> Option<Position>
    ensures { IsPositionBy (Texts table) entry.now name.now result }
{
    if let Some((Kind::Text, index)) = table.find(name) {
        return Some(Position::Standard(Kind::Text, index));
    }
    match entry.extended().find_text(name.as_bytes()) {
        Some(index) => Some(Position::Extended(Kind::Text, index)),
        None => None,
    }
}

/// The place of the capability that a name means.
fn place_called(entry: &Entry<'_>, name: &str, names: Names) -> Option<Position>
    ensures { IsPlaceCalled names name.now entry.now result }
{
    if let Some((kind, index)) = place_of_label(name, names) {
        return Some(Position::Standard(kind, index));
    }
    match names {
        Names::Texts(table) => text_position(entry, name, table),
        Names::All => entry.position(name.as_bytes()),
    }
}

/// The value of the capability that a name means.
pub fn item_called<'a>(entry: &Entry<'a>, name: &str, names: Names) -> Option<Item<'a>>
    ensures { IsItemCalled names name.now entry.now (option_map item_value result) }
{
    match place_called(entry, name, names) {
        Some(place) => Some(entry.item_at(place)),
        None => None,
    }
}
