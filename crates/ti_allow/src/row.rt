//! A row of a table of functions, and what it holds.

ghost use Rattle.std.specs.Prelude.{◌≡◌};
ghost use Rattle.std.specs.List.{list_all, list_any};
ghost use Rattle.ti_allow.specs.Rows.{admits, admits_mode, are_bytes, are_listed, are_modes, asks_so, has_head, has_mode, has_numbers, has_value, is_allowed, is_byte, is_first, is_free, is_kind, is_number_in, is_of, is_one_of, is_within, stands, texts_of};

use crate::standing::Standing;
use ti_parser::{Function, FunctionKind, FunctionNumber, Intermediates};

/// Numbers from the least to the greatest.
#[derive(Clone, Copy, Debug, PartialEq, Eq)]
pub struct Span(pub u16, pub u16);

/// Which values a number may have.
#[derive(Clone, Copy, Debug, PartialEq, Eq)]
pub enum Values {
    /// Every one.
    Free,
    /// Those of the span.
    In(Span),
    /// None: there is no such number.
    Never,
}

/// Which numbers a function may have.
#[derive(Clone, Copy, Debug, PartialEq, Eq)]
pub enum Numbers {
    /// None.
    Without,
    /// A first one, and others.
    Listed(Values, Values),
    /// One of these among them.
    Some(Span),
    /// Modes, each of which is in the span of such a row.
    Mode(Span),
}

/// Which functions of a kind a row is of.
#[derive(Clone, Copy, Debug, PartialEq, Eq)]
pub enum Head {
    /// All.
    Any,
    /// Those with this first intermediate byte.
    Begins(u8),
    /// The one with this marker, these intermediate bytes, and this letter.
    Exactly(Option<u8>, Intermediates, Option<u8>),
}

/// Whether a string has a `?` in its body.
#[derive(Clone, Copy, Debug, PartialEq, Eq)]
pub enum Asking {
    /// It may have one.
    Either,
    /// It has none.
    Never,
    /// It has one.
    Always,
}

/// A row of a table of functions.
#[derive(Clone, Copy, Debug, PartialEq, Eq)]
pub struct Row {
    /// The kind of the functions.
    pub kind: FunctionKind,
    /// Which of that kind.
    pub head: Head,
    /// Their numbers.
    pub numbers: Numbers,
    /// Whether they are requests.
    pub asking: Asking,
    /// Where they may stand.
    pub standing: Standing,
}

/// Whether a value is in a span.
fn is_within(value: u16, span: Span) -> bool
    ensures { result ≡ is_within value span }
{
    span.0 <= value && value <= span.1
}

/// Whether a number is known to be in a span.
fn is_number_in(span: Span, number: FunctionNumber) -> bool
    ensures { result ≡ is_number_in span number }
{
    match number {
        FunctionNumber::Absent => is_within(0, span),
        FunctionNumber::Known(value) => is_within(value, span),
        FunctionNumber::Large | FunctionNumber::Any => false,
    }
}

impl Values {
    /// Whether a number may come.
    fn has(self, number: FunctionNumber) -> bool
        ensures { result ≡ has_value self number }
    {
        match self {
            Values::Free => true,
            Values::In(span) => is_number_in(span, number),
            Values::Never => false,
        }
    }

    /// Whether every number may come.
    fn is_free(self) -> bool
        ensures { result ≡ is_free self }
    {
        match self {
            Values::Free => true,
            Values::In(_) | Values::Never => false,
        }
    }
}

/// Whether all numbers may come.
fn are_all(values: Values, numbers: &[FunctionNumber]) -> bool
    ensures { result ≡ list_all (has_value values) numbers.now }
{
    numbers.iter().all(|number| values.has(*number))
}

/// Whether the first number and the others may come.
fn are_listed(first: Values, others: Values, numbers: &[FunctionNumber]) -> bool
    ensures { result ≡ are_listed first others numbers.now }
{
    match numbers {
        [] => first.has(FunctionNumber::Absent),
        [number, rest @ ..] => first.has(*number) && are_all(others, rest),
    }
}

/// Whether one of the numbers is in the span.
fn has_some(span: Span, numbers: &[FunctionNumber]) -> bool
    ensures { result ≡ list_any (is_number_in span) numbers.now }
{
    numbers.iter().any(|number| is_number_in(span, *number))
}

impl Numbers {
    /// Whether a function has such numbers.
    pub(crate) fn has(self, function: &Function) -> bool
        ensures { result ≡ has_numbers self function.now }
    {
        let numbers = function.numbers.as_slice();
        match self {
            Numbers::Without => numbers.is_empty(),
            Numbers::Listed(first, others) => are_listed(first, others, numbers)
                && (others.is_free() || !function.is_overfull),
            Numbers::Some(span) => has_some(span, numbers),
            Numbers::Mode(_) => false,
        }
    }

    /// Whether a number is such a mode.
    fn has_mode(self, mode: FunctionNumber) -> bool
        ensures { result ≡ has_mode self mode }
    {
        match self {
            Numbers::Mode(span) => is_number_in(span, mode),
            _ => false,
        }
    }
}

/// Whether a byte is the first of the intermediate ones.
fn is_first(byte: u8, intermediates: Intermediates) -> bool
    ensures { result ≡ is_first byte intermediates }
{
    match intermediates {
        Intermediates::Empty | Intermediates::Many => false,
        Intermediates::Single(one) => one == byte,
        Intermediates::Pair(one, _) => one == byte,
    }
}

/// Whether two kinds are one.
fn is_kind(one: FunctionKind, other: FunctionKind) -> bool
    ensures { result ≡ is_kind one other }
{
    one == other
}

/// Whether two intermediate bytes are the same.
fn are_bytes(one: Intermediates, other: Intermediates) -> bool
    ensures { result ≡ are_bytes one other }
{
    one == other
}

/// Whether two bytes are the same, or neither is there.
fn is_byte(one: Option<u8>, other: Option<u8>) -> bool
    ensures { result ≡ is_byte one other }
{
    one == other
}

impl Head {
    /// Whether a function is one of these.
    fn has(self, function: &Function) -> bool
        ensures { result ≡ has_head self function.now }
    {
        match self {
            Head::Any => true,
            Head::Begins(byte) => is_first(byte, function.intermediates),
            Head::Exactly(marker, intermediates, letter) => {
                is_byte(marker, function.marker)
                    && are_bytes(intermediates, function.intermediates)
                    && is_byte(letter, function.letter)
            }
        }
    }
}

impl Asking {
    /// Whether a string with a `?`, or one without, may come.
    fn holds(self, asks: bool) -> bool
        ensures { result ≡ asks_so self asks }
    {
        match self {
            Asking::Either => true,
            Asking::Never => !asks,
            Asking::Always => asks,
        }
    }
}

/// Whether a name is in a list.
fn is_one_of(names: &[&str], name: &[u8]) -> bool
    ensures { result ≡ is_one_of (texts_of names.now) name.now }
{
    'names: for known in names {
        if known.as_bytes() == name {
            return true;
        }
    }
    false
}

/// Whether the string with a name is among those where a function may stand.
pub(crate) fn stands(standing: Standing, name: &[u8]) -> bool
    ensures { result ≡ stands standing name.now }
{
    match standing {
        Standing::Everywhere => true,
        _ => is_one_of(standing.names(), name),
    }
}

impl Row {
    /// Whether a function has the row's kind and head, and is a request if the row says so.
    pub(crate) fn is_of(&self, function: &Function) -> bool
        ensures { result ≡ is_of self.now function.now }
    {
        is_kind(self.kind, function.kind)
            && self.head.has(function)
            && self.asking.holds(function.asks)
    }

    /// Whether the row allows a function in the string with a name.
    fn admits(&self, name: &[u8], function: &Function) -> bool
        ensures { result ≡ admits name.now function.now self.now }
    {
        self.is_of(function) && stands(self.standing, name) && self.numbers.has(function)
    }

    /// Whether the row allows a mode of a function in the string with a name.
    fn admits_mode(&self, name: &[u8], function: &Function, mode: FunctionNumber) -> bool
        ensures { result ≡ admits_mode name.now function.now mode self.now }
    {
        self.is_of(function) && stands(self.standing, name) && self.numbers.has_mode(mode)
    }
}

/// Whether some row allows a mode of a function.
fn is_mode(rows: &[Row], name: &[u8], function: &Function, mode: FunctionNumber) -> bool
    ensures { result ≡ list_any (admits_mode name.now function.now mode) rows.now }
{
    rows.iter().any(|row| row.admits_mode(name, function, mode))
}

/// Whether some row allows each of the modes of a function.
fn are_all_modes(rows: &[Row], name: &[u8], function: &Function, modes: &[FunctionNumber]) -> bool
    ensures { result ≡ list_all (λ mode. list_any (admits_mode name.now function.now mode) rows.now) modes.now }
{
    modes
        .iter()
        .all(|mode| is_mode(rows, name, function, *mode))
}

/// Whether the numbers of a function are modes, and some row allows each.
fn are_modes(rows: &[Row], name: &[u8], function: &Function) -> bool
    ensures { result ≡ are_modes rows.now name.now function.now function.now.numbers }
{
    let modes = function.numbers.as_slice();
    !modes.is_empty() && are_all_modes(rows, name, function, modes)
}

/// Whether one row allows a function.
fn is_admitted(rows: &[Row], name: &[u8], function: &Function) -> bool
    ensures { result ≡ list_any (admits name.now function.now) rows.now }
{
    rows.iter().any(|row| row.admits(name, function))
}

/// Whether the rows of a table allow a function in the string with a name.
#[tactic(auto, unfolding(crate::specs::Rows::is_allowed))]
pub(crate) fn is_allowed_by(rows: &[Row], name: &[u8], function: &Function) -> bool
    ensures { result ≡ is_allowed rows.now name.now function.now }
{
    if is_admitted(rows, name, function) {
        return true;
    }
    !function.is_overfull && are_modes(rows, name, function)
}
