//! Which values may be on the stack, over all paths that come to a place. Each call takes constant time.
//!
//! Places are counted from the top of the stack, so that a push and a pop move all of them alike, whatever the height on each
//! path.

ghost use Rattle.std.specs.Prelude.{◌≡◌, ◌<◌, ◌≤◌};
ghost use Rattle.ti_cap.specs.Height.{pops, pushes};
ghost use Rattle.ti_cap.specs.Sources.{source, takes_text};
ghost use Rattle.ti_lint.specs.inner.Facts.{agrees, has_bit, has_kind, is_other_below};
ghost use Rattle.ti_lint.specs.inner.Values.{after_values, dropped, either_values, moved, pushed, source_of};

use crate::expected::TextParameters;
use crate::outlook::{pops, pushes};
use ti_cap::{Conversion, Token};

/// Where a value comes from: one of the parameters that may be texts, or anything else, which is a number.
#[derive(Clone, Copy, PartialEq, Eq)]
pub enum Source {
    First,
    Second,
    Third,
    Other,
}

/// For each source the places at which some path has a value from it: bit 0 is for the top of the stack.
#[derive(Clone, Copy)]
pub struct Values {
    first: u64,
    second: u64,
    third: u64,
    other: u64,
}

impl Values {
    /// The empty stack.
    pub const NONE: Values = Values {
        first: 0,
        second: 0,
        third: 0,
        other: 0,
    };

    /// Returns the union of two.
    pub fn union(self, other: Values) -> Values
        ensures { result ≡ either_values self other }
    {
        Values {
            first: self.first | other.first,
            second: self.second | other.second,
            third: self.third | other.third,
            other: self.other | other.other,
        }
    }

    /// The values after a token.
    pub fn after(self, token: Token) -> Values
        ensures { result ≡ after_values token self }
    {
        Values {
            first: moved(token, Source::First, self.first),
            second: moved(token, Source::Second, self.second),
            third: moved(token, Source::Third, self.third),
            other: moved(token, Source::Other, self.other),
        }
    }

    /// Whether one of the values that a token pops is on no path of the kind that it takes.
    pub fn is_other_for(self, token: Token, texts: TextParameters) -> bool
        ensures { result ≡ is_other_below (pops token) texts (takes_text token) self }
    {
        let wanted = takes_text(token);
        match pops(token) {
            0 => false,
            1 => !self.has_kind(0, texts, wanted),
            _ => !self.has_kind(0, texts, wanted) || !self.has_kind(1, texts, wanted),
        }
    }

    /// Whether some path has a value of the kind at a place.
    fn has_kind(self, place: u8, texts: TextParameters, wanted: bool) -> bool
        requires { place < 64 }
        ensures { result ≡ has_kind texts wanted self place }
    {
        agrees(wanted, texts.first) && has(self.first, place)
            || agrees(wanted, texts.second) && has(self.second, place)
            || (agrees(wanted, texts.third) && has(self.third, place)
                || !wanted && has(self.other, place))
    }
}

/// Whether a bit is 1.
fn has(mask: u64, place: u8) -> bool
    requires { place < 64 }
    ensures { result ≡ has_bit mask place }
{
    mask >> place & 1 == 1
}

/// Whether a value is of the kind that is wanted, a text or a number.
fn agrees(wanted: bool, is_text: bool) -> bool
    ensures { result ≡ agrees wanted is_text }
{
    if wanted { is_text } else { !is_text }
}

/// Whether a token takes the value on top of the stack as a text.
fn takes_text(token: Token) -> bool
    ensures { result ≡ takes_text token }
{
    match token {
        Token::Length => true,
        Token::Print(format) => match format.conversion {
            Conversion::Text => true,
            _ => false,
        },
        _ => false,
    }
}

/// Where the value comes from that a token pushes.
fn source_of(token: Token) -> Source
    ensures { result ≡ source_of (source token) }
{
    match token {
        Token::Param(1) => Source::First,
        Token::Param(2) => Source::Second,
        Token::Param(3) => Source::Third,
        _ => Source::Other,
    }
}

/// The places after so many pops.
fn dropped(count: usize, mask: u64) -> u64
    requires { count ≤ 2 }
    ensures { result ≡ dropped count mask }
{
    match count {
        0 => mask,
        1 => mask >> 1,
        _ => mask >> 1 >> 1,
    }
}

/// The places after a push, if there is one; the new value is at the top.
fn pushed(count: usize, is_top: bool, mask: u64) -> u64
    requires { count ≤ 1 }
    ensures { result ≡ pushed count is_top mask }
{
    match (count, is_top) {
        (0, _) => mask,
        (_, true) => mask << 1 | 1,
        (_, false) => mask << 1,
    }
}

/// The places of the values from a source after a token.
fn moved(token: Token, one: Source, mask: u64) -> u64
    ensures { result ≡ moved token one mask }
{
    let is_top = one == source_of(token);
    pushed(pushes(token), is_top, dropped(pops(token), mask))
}
