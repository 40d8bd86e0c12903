//! A capability and its value, of any kind (term(5)).

ghost use Rattle.std.specs.Prelude.{◌≡◌, option_map};
ghost use Rattle.ti_words.specs.Items.{is_there as the_is_there, item_value, kind_of, none_of, text_in};

use crate::{Flag, Kind, Number, Text};

/// Which capability of an entry.
#[derive(Clone, Copy, Debug, PartialEq, Eq)]
pub enum Subject<'a> {
    /// One of terminfo(5), by its kind and its index.
    Standard(Kind, usize),
    /// One that the entry names itself, by its kind and its name, without the NUL after it.
    Extended(Kind, &'a [u8]),
}

impl Subject<'_> {
    /// Returns its kind.
    pub fn kind(self) -> Kind
        ensures { result ≡ kind_of self.entry }
    {
        match self {
            Subject::Standard(kind, _) | Subject::Extended(kind, _) => kind,
        }
    }
}

/// The value of a capability.
#[derive(Clone, Copy, Debug, PartialEq, Eq)]
pub enum Item<'a> {
    Flag(Flag),
    Number(Number),
    Text(Text<'a>),
}

impl<'a> Item<'a> {
    /// The value of a capability that an entry does not have.
    pub fn none_of(kind: Kind) -> Self
        ensures { item_value result ≡ none_of kind }
    {
        match kind {
            Kind::Flag => Item::Flag(Flag::No),
            Kind::Number => Item::Number(Number::Absent),
            Kind::Text => Item::Text(Text::Absent),
        }
    }

    /// The bytes of a text that is there.
    pub fn text(self) -> Option<&'a [u8]>
        ensures { option_map (λ bytes. bytes.now) result ≡ text_in (item_value self.entry) }
    {
        match self {
            Item::Text(Text::Value(bytes)) => Some(bytes),
            Item::Text(Text::Absent | Text::Cancelled) | Item::Flag(_) | Item::Number(_) => None,
        }
    }

    /// Whether the terminal has it: a flag that is set, a number or a text with a value.
    pub fn is_there(self) -> bool
        ensures { result ≡ the_is_there (item_value self.entry) }
    {
        match self {
            Item::Flag(flag) => matches!(flag, Flag::Yes),
            Item::Number(number) => matches!(number, Number::Value(_)),
            Item::Text(text) => matches!(text, Text::Value(_)),
        }
    }
}
