//! A parser with what is known of the padding marks around it.

ghost use Rattle.std.specs.Prelude.{◌≡◌, ◌∷◌, [], ℕ, List, None};
ghost use Rattle.ti_parser.specs.declared.padding.Front.{Front};
ghost use Rattle.ti_parser.specs.declared.padding.Marks.{Marks};
ghost use Rattle.std.specs.Bool.{OnTrue};
ghost use Rattle.ti_parser.specs.Machine.{after_text};
ghost use Rattle.ti_parser.specs.Padding.{beyond_dollar};
ghost use Rattle.ti_parser.specs.inner.Colors.{IsColor};
ghost use Rattle.ti_parser.specs.inner.Texts.{IsInText, based};
ghost use Rattle.ti_parser.specs.inner.Receivers.{ComesAt, CoverMore, CoversMoment, Moment, ahead_by, may_begin, move_of, next_ahead, outside, sends_on, skips_on};

use crate::configuration::{Configuration, Detail};
use crate::padding::{Front, Marks, Part, Turn, turn_of};
use crate::state::State;

/// What is known of the bytes to come.
#[derive(Clone, Copy, Debug, PartialEq, Eq)]
pub(crate) enum Ahead {
    /// Nothing.
    Unknown,
    /// A `>` is among them.
    Closed,
    /// None is.
    Unclosed,
    /// They do not complete a mark that has come so far.
    Unmarked(Part),
}

/// What a byte does that begins no mark.
#[derive(Clone, Copy, Debug, PartialEq, Eq)]
pub(crate) enum Move {
    /// It does not come, by what is known.
    Gone,
    /// It is dropped.
    Skips(Front, Ahead),
    /// The parser takes it.
    Sends(Front, Ahead),
}

/// A parser, where the next byte stands, and what is known of the bytes to come.
#[derive(Drop)]
pub(crate) struct Receiver {
    /// Where the next byte stands.
    pub front: Front,
    /// What is known of it and those after it. In a mark: that they complete it.
    pub ahead: Ahead,
    /// The parser.
    pub parser: Configuration,
    /// The place of the token with which it left the ground state.
    pub opened: Option<usize>,
}

/// What is known after a byte, by what it does to a mark that is none.
fn ahead_by(turn: Turn, byte: u8) -> Option<Ahead>
    ensures { result ≡ ahead_by turn byte }
{
    match turn {
        Turn::Holds(part) => Some(Ahead::Unmarked(part)),
        Turn::Ends => {
            if byte == b'>' {
                None
            } else {
                Some(Ahead::Unclosed)
            }
        }
        Turn::Breaks => Some(Ahead::Unknown),
    }
}

/// What is known after a byte, if it may come.
fn next_ahead(marks: Marks, ahead: Ahead, byte: u8) -> Option<Ahead>
    ensures { result ≡ next_ahead marks ahead byte }
{
    match ahead {
        Ahead::Unknown => Some(Ahead::Unknown),
        Ahead::Closed => {
            if byte == b'>' {
                Some(Ahead::Unknown)
            } else {
                Some(Ahead::Closed)
            }
        }
        Ahead::Unclosed => {
            if byte == b'>' {
                None
            } else {
                Some(Ahead::Unclosed)
            }
        }
        Ahead::Unmarked(part) => ahead_by(turn_of(marks, part, byte), byte),
    }
}

/// The parser takes a byte that may come.
fn sends_on(front: Front, ahead: Option<Ahead>) -> Move
    ensures { result ≡ sends_on front ahead }
{
    match ahead {
        None => Move::Gone,
        Some(ahead) => Move::Sends(front, ahead),
    }
}

/// A byte of a mark is dropped.
fn skips_on(turn: Turn, byte: u8) -> Move
    ensures { result ≡ skips_on turn byte }
{
    match turn {
        Turn::Holds(part) => Move::Skips(Front::Mark(part), Ahead::Unknown),
        Turn::Ends => {
            if byte == b'>' {
                Move::Skips(Front::Text, Ahead::Unknown)
            } else {
                Move::Skips(Front::Text, Ahead::Closed)
            }
        }
        Turn::Breaks => Move::Gone,
    }
}

/// Where the byte after a `$` stands that begins no mark.
fn beyond_dollar(marks: Marks) -> Front
    ensures { result ≡ beyond_dollar marks }
{
    match marks {
        Marks::Tputs => Front::Literal,
        _ => Front::Text,
    }
}

/// Whether a byte may begin a mark.
pub(crate) fn may_begin(marks: Marks, front: Front, byte: u8) -> bool
    ensures { result ≡ may_begin marks front byte }
{
    match (marks, front) {
        (Marks::Untouched, _) => false,
        (_, Front::Text) => byte == b'$',
        _ => false,
    }
}

/// What a byte does, if it begins no mark.
pub(crate) fn move_of(marks: Marks, front: Front, ahead: Ahead, byte: u8) -> Move
    ensures { result ≡ move_of marks front ahead byte }
{
    match front {
        Front::Mark(part) => skips_on(turn_of(marks, part, byte), byte),
        _ => {
            if may_begin(marks, front, byte) {
                Move::Sends(beyond_dollar(marks), Ahead::Unmarked(Part::Dollar))
            } else {
                sends_on(Front::Text, next_ahead(marks, ahead, byte))
            }
        }
    }
}

/// What is still known with less detail: not that no mark comes.
fn reduced(ahead: Ahead, detail: Detail) -> Ahead
    ensures { (marks : Marks) (front : Front) (rest : List ℕ) → ComesAt marks front ahead rest → ComesAt marks front result rest }
{
    match (detail, ahead) {
        (Detail::Whole, _) => ahead,
        (_, Ahead::Unmarked(_)) => Ahead::Unknown,
        _ => ahead,
    }
}

/// Whether what is known is known by the other, too.
fn has_less(ahead: Ahead, other: Ahead) -> bool
    ensures { OnTrue result ((marks : Marks) (front : Front) (rest : List ℕ) → ComesAt marks front other rest → ComesAt marks front ahead rest) }
{
    match ahead {
        Ahead::Unknown => true,
        _ => ahead == other,
    }
}

impl Receiver {
    ghost use Rattle.ti_parser.specs.declared.receiver.Receiver.{Receiver};

    /// A parser outside of marks.
    pub(crate) fn new() -> Receiver
        ensures { result ≡ outside }
    {
        Receiver {
            front: Front::Text,
            ahead: Ahead::Unknown,
            parser: Configuration::new(),
            opened: None,
        }
    }

    /// The same parser elsewhere.
    pub(crate) fn placed(&self, front: Front, ahead: Ahead) -> Receiver
        ensures { result ≡ record self.now { front = front; ahead = ahead } }
    {
        Receiver {
            front,
            ahead,
            parser: self.parser.duplicate(),
            opened: self.opened,
        }
    }

    /// The same receiver.
    pub(crate) fn duplicate(&self) -> Receiver
        ensures { result ≡ self.now }
    {
        Receiver {
            front: self.front,
            ahead: self.ahead,
            parser: self.parser.duplicate(),
            opened: self.opened,
        }
    }

    /// The parser after a byte of text, outside of marks.
    pub(crate) fn after_text(&self) -> Receiver
        ensures { result ≡ based (record self.now { parser = after_text self.now.parser }) }
    {
        Receiver {
            front: Front::Text,
            ahead: Ahead::Unknown,
            parser: self.parser.after_text(),
            opened: self.opened,
        }
    }

    /// Notes that the parser left the ground state at this place, if it stands elsewhere and was in it before.
    pub(crate) fn note_place(&mut self, place: usize)
        ensures { (m : Moment) → CoversMoment self.old m → CoversMoment self.new m }
    {
        self.opened = match (self.parser.state, self.opened) {
            (State::Ground, _) => None,
            (_, Some(before)) => Some(before),
            (_, None) => Some(place),
        };
    }

    /// Whether it is the same parser at the same place, and no more is known of the bytes to come than of the other's.
    pub(crate) fn stands_for(&self, other: &Receiver) -> bool
        ensures { OnTrue result (CoverMore (other.now ∷ []) (self.now ∷ [])) }
    {
        if self.front != other.front || !has_less(self.ahead, other.ahead) {
            return false;
        }
        if !self.parser.is_same(&other.parser) {
            return false;
        }
        true
    }

    /// Whether it takes text as text, outside of marks.
    pub(crate) fn is_in_text(&self) -> bool
        ensures { OnTrue result (IsInText self.now) }
    {
        match (self.front, self.ahead) {
            (Front::Text, Ahead::Unknown) => self.parser.state.is_text(),
            _ => false,
        }
    }

    /// Whether an escape came last that cut a string off, unless a `\` comes next, and whether a `>` has to come, or need not.
    pub(crate) fn is_cut(&self, is_closed: bool) -> bool {
        match (self.front, self.ahead, self.parser.state) {
            (Front::Mark(_), _, _) => false,
            (_, Ahead::Closed, State::AfterCut) => is_closed,
            (_, _, State::AfterCut) => !is_closed,
            _ => false,
        }
    }

    /// Whether it is in a color of the Linux console, outside of marks.
    pub(crate) fn is_color(&self) -> bool
        ensures { OnTrue result (IsColor self.now) }
    {
        match self.parser.state {
            State::Palette => match (self.front, self.ahead) {
                (Front::Text, Ahead::Unknown) => true,
                _ => false,
            },
            _ => false,
        }
    }

    /// Forgets numbers, and that no mark comes.
    pub(crate) fn reduce(&mut self, detail: Detail)
        ensures { (m : Moment) → CoversMoment self.old m → CoversMoment self.new m }
    {
        self.parser.reduce(detail);
        self.ahead = reduced(self.ahead, detail);
    }
}
