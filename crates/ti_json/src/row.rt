//! The rows of an entry, of which lines and objects of JSON show the same.

ghost use Rattle.std.specs.Prelude.{◌≡◌};
ghost use Rattle.ti_words.specs.Items.{item_value};
ghost use Rattle.ti_json.specs.Rows.{content_of, content_value, is_absent as the_is_absent, state_word};

use ti_cap::CapRefused;
use ti_words::{Flag, Item, Number, Subject, Text, Width};

/// The topic of a row.
#[derive(Clone, Copy)]
pub enum Topic<'a> {
    /// The format of the entry.
    Format,
    /// Its names.
    Names,
    /// A capability.
    Capability(Subject<'a>),
}

/// The state of a capability without a value.
#[derive(Clone, Copy)]
pub enum ValueState {
    /// Nothing.
    Absent,
    /// The entry takes the capability back.
    Cancelled,
    /// The entry marks a flag as missing.
    Missing,
}

impl ValueState {
    /// The word for the state.
    pub fn word(self) -> &'static str
        ensures { result.now ≡ state_word self }
    {
        match self {
            ValueState::Absent => "absent",
            ValueState::Cancelled => "cancelled",
            ValueState::Missing => "missing",
        }
    }
}

/// The content of a row.
#[derive(Clone, Copy)]
pub enum Content<'a> {
    /// There is no value.
    State(ValueState),
    /// A flag is set.
    Set,
    /// The value of a number.
    Number(i32),
    /// The format.
    Format(Width),
    /// The names.
    Names(&'a [u8]),
    /// The bytes of a text.
    Text(&'a [u8]),
    /// The limits of a text, which as a capability has no fault.
    Limits {
        /// The most values on its stack.
        depth: usize,
        /// The most bytes of its output.
        bound: u64,
    },
    /// Why a text is no capability.
    Fault(CapRefused),
}

impl<'a> Content<'a> {
    /// The content of an item.
    #[inline(always)]
    pub fn of(item: Item<'a>) -> Content<'a>
        ensures { content_value result ≡ content_of (item_value item.entry) }
    {
        match item {
            Item::Flag(Flag::Yes) => Content::Set,
            Item::Number(Number::Value(value)) => Content::Number(value),
            Item::Text(Text::Value(bytes)) => Content::Text(bytes),
            Item::Flag(Flag::No) | Item::Number(Number::Absent) | Item::Text(Text::Absent) => {
                Content::State(ValueState::Absent)
            }
            Item::Flag(Flag::Missing) => Content::State(ValueState::Missing),
            Item::Flag(Flag::Cancelled)
            | Item::Number(Number::Cancelled)
            | Item::Text(Text::Cancelled) => Content::State(ValueState::Cancelled),
        }
    }

    /// Whether the entry does not have it.
    #[inline(always)]
    pub fn is_absent(self) -> bool
        ensures { result ≡ the_is_absent (content_value self.entry) }
    {
        matches!(self, Content::State(ValueState::Absent))
    }
}
