//! One pass over the tokens of a capability, along all its paths.

ghost use Rattle.std.specs.Prelude.{◌≡◌, ◌++◌, ◌∷◌, [], IfOk, OnOk, vec_len};
ghost use Rattle.ti_cap.specs.declared.mode.Mode.{Mode};
ghost use Rattle.ti_expand.specs.State.{State};
ghost use Rattle.ti_parser.specs.Paths.{AreData, IsCover, IsKnown, KnowsOn, Leads, nothing_waits};
ghost use Rattle.ti_parser.specs.inner.Receivers.{CoverMore, can_end, ends_text, outside};
ghost use Rattle.ti_parser.specs.Tops.{popped, tops_at_start};
ghost use Rattle.ti_parser.specs.declared.paths.Outcome.TheVariants as outcome;
ghost use Rattle.ti_parser.specs.declared.reading.Reception.{Reception};
ghost use Rattle.ti_parser.specs.inner.Paths.{EndMore, IsLeft, IsTested, IsTurned, LeadsAll};

use crate::configuration::Configuration;
use crate::function::Function;
use crate::padding::Front;
use crate::parsers::{Lost, note_places};
use crate::point::{OpenPoints, Point, nowhere, pop_open, push_open, union};
use crate::reading::{Coding, Reception};
use crate::receiver::{Ahead, Receiver};
use crate::tops::Tops;
use crate::write::write;
use std::alloc::{AllocError, Allocator};
use ti_cap::{Capability, Token};

/// What a pass knows.
#[derive(Drop)]
struct Paths<A: Allocator> {
    /// The paths that run here.
    here: Point<A>,
    /// What waits in the open conditionals, the innermost last.
    opens: Vec<OpenPoints<A>, A>,
    /// What was handed out.
    sent: Vec<Function, A>,
    /// The place of the token that completed each of these.
    places: Vec<usize, A>,
    /// The place of the token that is met.
    place: usize,
    /// Where an escape cuts a string off.
    cuts: Cuts,
}

/// Whether a byte after an escape within a string shows that the escape cuts the string off: it is not the `\` that ends it, nor a
/// `$`, which may begin a padding mark.
fn cuts_off(coding: Coding, byte: u8) -> bool {
    match (coding, byte) {
        (_, b'\\' | b'$') | (Coding::Bytes, 0xdc) => false,
        _ => true,
    }
}

/// Whether a token after an escape within a string shows that the escape cuts it off: by its byte, or by the digits of a number.
fn may_cut(coding: Coding, token: &Token) -> bool {
    match token {
        Token::Byte(byte) => cuts_off(coding, *byte),
        Token::Print(_) => true,
        _ => false,
    }
}

/// The first tokens by which an escape is seen to cut a string off.
#[derive(Clone, Copy)]
struct Cuts {
    /// The place of the first.
    seen: Option<usize>,
    /// The place of the first that counts only if a `>` comes after it, which completes a padding mark before it.
    awaited: Option<usize>,
}

impl Cuts {
    /// The same after a token that comes to some parsers.
    fn after(self, coding: Coding, parsers: &[Receiver], token: &Token, place: usize) -> Cuts {
        let cuts = may_cut(coding, token);
        let found = cuts && parsers.iter().any(|parser| parser.is_cut(false));
        let awaits = cuts && parsers.iter().any(|parser| parser.is_cut(true));
        let completes = matches!(token, Token::Byte(b'>'));
        Cuts {
            seen: match (self.seen, self.awaited) {
                (None, Some(awaited)) if completes => Some(awaited),
                (None, _) if found => Some(place),
                _ => self.seen,
            },
            awaited: match self.awaited {
                None if awaits => Some(place),
                _ => self.awaited,
            },
        }
    }
}

impl<A: Allocator + Copy> Paths<A> {
    /// A conditional begins.
    fn enter(&mut self, alloc: A) -> Result<(), Lost>
        ensures opens { OnOk result (self.new.opens.items ≡ self.old.opens.items ++ nothing_waits ∷ []) }
        ensures parsers { OnOk result (self.new.here.parsers.items ≡ self.old.here.parsers.items) }
        ensures tops { OnOk result (self.new.here.tops ≡ self.old.here.tops) }
        ensures sent { OnOk result (self.new.sent.items ≡ self.old.sent.items) }
    {
        let waiting = OpenPoints::new(nowhere(alloc), nowhere(alloc));
        push_open(&mut self.opens, waiting)?;
        Ok(())
    }

    /// A test ends: some paths fail here, and go on after the `%e` or `%;` to come.
    fn test(&mut self, alloc: A) -> Result<(), Lost>
        ensures opens { OnOk result (IsTested
            (record { parsers = self.new.here.parsers.items; tops = self.new.here.tops })
            self.old.opens.items self.new.opens.items) }
        ensures parsers { OnOk result (self.new.here.parsers.items ≡ self.old.here.parsers.items) }
        ensures tops { OnOk result (self.new.here.tops ≡ popped self.old.here.tops) }
        ensures sent { OnOk result (self.new.sent.items ≡ self.old.sent.items) }
    {
        self.here.tops = self.here.tops.popped();
        let (failed, done) = pop_open(&mut self.opens)?;
        let failed = union(alloc, failed, &self.here)?;
        push_open(&mut self.opens, OpenPoints::new(failed, done))?;
        Ok(())
    }

    /// A body ends: its paths wait for the `%;`, and those of its failed test go on.
    fn turn(&mut self, alloc: A) -> Result<(), Lost>
        ensures opens { OnOk result (IsTurned
            (record { parsers = self.old.here.parsers.items; tops = self.old.here.tops }) self.old.opens.items
            (record { parsers = self.new.here.parsers.items; tops = self.new.here.tops }) self.new.opens.items) }
        ensures sent { OnOk result (self.new.sent.items ≡ self.old.sent.items) }
    {
        let (failed, done) = pop_open(&mut self.opens)?;
        let done = union(alloc, done, &self.here)?;
        self.here = failed;
        push_open(&mut self.opens, OpenPoints::new(nowhere(alloc), done))?;
        Ok(())
    }

    /// A conditional ends: what waits in it joins what is here.
    fn leave(&mut self, alloc: A) -> Result<(), Lost>
        ensures opens { OnOk result (IsLeft
            (record { parsers = self.old.here.parsers.items; tops = self.old.here.tops }) self.old.opens.items
            (record { parsers = self.new.here.parsers.items; tops = self.new.here.tops }) self.new.opens.items) }
        ensures sent { OnOk result (self.new.sent.items ≡ self.old.sent.items) }
    {
        let (failed, done) = pop_open(&mut self.opens)?;
        let waited = union(alloc, failed, &done)?;
        let all = union(alloc, waited, &self.here)?;
        self.here = all;
        Ok(())
    }
}

impl<A: Allocator + Copy> Paths<A> {
    /// Goes on over a token.
    fn take(&mut self, alloc: A, reception: Reception, token: &Token) -> Result<(), Lost>
        ensures { OnOk result (KnowsOn reception token.now
            (record { here = record { parsers = self.old.here.parsers.items; tops = self.old.here.tops }; opens = self.old.opens.items; sent = self.old.sent.items })
            (record { here = record { parsers = self.new.here.parsers.items; tops = self.new.here.tops }; opens = self.new.opens.items; sent = self.new.sent.items })) }
    {
        match token {
            Token::CondOpen => {
                self.enter(alloc)?;
                Ok(())
            }
            Token::CondThen => {
                self.test(alloc)?;
                Ok(())
            }
            Token::CondElse => {
                self.turn(alloc)?;
                Ok(())
            }
            Token::CondClose => {
                self.leave(alloc)?;
                Ok(())
            }
            _ => {
                let coding = reception.reading.coding;
                self.cuts = self
                    .cuts
                    .after(coding, &self.here.parsers, token, self.place);
                let mut parsers = write(alloc, reception, &self.here, token, &mut self.sent)?;
                note_places(&mut parsers, self.place);
                self.here = Point {
                    parsers,
                    tops: self.here.tops.after(token),
                };
                Ok(())
            }
        }
    }

    /// Ends all conditionals that are open.
    fn close(&mut self, alloc: A) -> Result<(), Lost>
        ensures { OnOk result ((reception : Reception) (mode : Mode) (s : State) → AreData s → IsKnown reception
            (record { here = record { parsers = self.old.here.parsers.items; tops = self.old.here.tops }; opens = self.old.opens.items; sent = self.old.sent.items }) mode s
            → Leads reception self.new.here.parsers.items self.new.sent.items s.output) }
    {
        'opens: while !self.opens.is_empty() {
            self.leave(alloc)?;
        }
        Ok(())
    }

    /// Goes over all tokens of a capability.
    fn pass(
        &mut self,
        alloc: A,
        reception: Reception,
        capability: &Capability<'_>,
    ) -> Result<(), Lost>
        requires here { CoverMore (outside ∷ []) self.old.here.parsers.items }
        requires tops { self.old.here.tops ≡ tops_at_start reception.first_character }
        requires opens { self.old.opens.items ≡ [] }
        ensures { OnOk result (LeadsAll reception capability.now self.new.here.parsers.items self.new.sent.items) }
    {
        let mut tape = capability.tape();
        while let Some(token) = tape.token() {
            self.take(alloc, reception, &token)?;
            let count = self.sent.len();
            self.places.resize(count, self.place)?;
            self.place = tape.at();
        }
        self.close(alloc)?;
        Ok(())
    }
}

/// How far the paths of a capability were followed.
#[derive(Clone, Copy, Debug, PartialEq, Eq)]
pub enum Outcome {
    /// To their ends.
    Whole,
    /// Up to a byte that is computed.
    ComputedByte,
    /// Up to a place with too many parsers.
    NotTried,
}

/// What the paths of a capability send.
#[derive(Drop)]
pub struct Sent<A: Allocator> {
    /// The functions that a parser hands out.
    pub functions: Vec<Function, A>,
    /// For each of these the place in the capability of the token that completes it, where it was first handed out.
    pub places: Vec<usize, A>,
    /// The configurations in which it can end, if the paths were followed to their ends.
    pub ends: Vec<Configuration, A>,
    /// For each of these the place in the capability of the token with which the parser last left the ground state, if it is not in it.
    pub opened: Vec<Option<usize>, A>,
    /// The place of the first token by which an escape is seen to cut a string off, if there is one.
    pub cut: Option<usize>,
    /// How far the paths were followed.
    pub outcome: Outcome,
}

/// Whether a text may end, by what is known of the bytes to come.
fn ends_text(ahead: Ahead) -> bool
    ensures { result ≡ ends_text ahead }
{
    match ahead {
        Ahead::Closed => false,
        _ => true,
    }
}

/// Whether a receiver may be at the end of a text.
fn can_end(receiver: &Receiver) -> bool
    ensures { result ≡ can_end receiver.now.front receiver.now.ahead }
{
    match receiver.front {
        Front::Mark(_) => false,
        _ => ends_text(receiver.ahead),
    }
}

/// Adds the parser of a receiver, if it may be at the end of a text.
fn end<A: Allocator>(
    ends: &mut Vec<Configuration, A>,
    opened: &mut Vec<Option<usize>, A>,
    receiver: &Receiver,
) -> Result<(), AllocError>
    ensures { OnOk result (EndMore (receiver.now ∷ []) ends.old.items ends.new.items) }
{
    if can_end(receiver) {
        ends.push(receiver.parser.duplicate())?;
        opened.push(receiver.opened)?;
        Ok(())
    } else {
        Ok(())
    }
}

/// Adds the parsers at the end of a text.
fn end_all<A: Allocator>(
    ends: &mut Vec<Configuration, A>,
    opened: &mut Vec<Option<usize>, A>,
    receivers: &[Receiver],
) -> Result<(), AllocError>
    ensures { OnOk result (EndMore receivers.now [] ends.new.items) }
{
    for receiver in receivers {
        end(ends, opened, receiver)?;
    }
    Ok(())
}

/// The functions that a parser hands out for what a capability writes, and the configurations in which it can end: for all
/// parameters and variables, on all paths, unless the outcome says that they were not followed to their ends.
pub fn functions_of<A: Allocator + Copy>(
    alloc: A,
    reception: Reception,
    capability: &Capability<'_>,
) -> Result<Sent<A>, AllocError>
    ensures places { IfOk result (λ sent. vec_len sent.places ≡ vec_len sent.functions) }
    ensures opened { IfOk result (λ sent. vec_len sent.opened ≡ vec_len sent.ends) }
    ensures cover { IfOk result (λ sent. sent.outcome ≡ outcome.Whole
        → IsCover reception capability.now sent.ends.items sent.functions.items) }
{
    let mut parsers = Vec::new(alloc);
    parsers.push(Receiver::new())?;
    let mut paths = Paths {
        here: Point {
            parsers,
            tops: Tops::at_start(reception.first_character),
        },
        opens: Vec::new(alloc),
        sent: Vec::new(alloc),
        places: Vec::new(alloc),
        place: 0,
        cuts: Cuts {
            seen: None,
            awaited: None,
        },
    };
    let outcome = match paths.pass(alloc, reception, capability) {
        Ok(()) => Outcome::Whole,
        Err(Lost::ComputedByte) => Outcome::ComputedByte,
        Err(Lost::NotTried) => Outcome::NotTried,
        Err(Lost::Memory(refused)) => return Err(refused),
    };
    let mut ends = Vec::new(alloc);
    let mut opened = Vec::new(alloc);
    end_all(&mut ends, &mut opened, &paths.here.parsers)?;
    opened.resize(ends.len(), None)?;
    let cut = paths.cuts.seen;
    let functions = paths.sent;
    let mut places = paths.places;
    places.resize(functions.len(), paths.place)?;
    Ok(Sent {
        functions,
        places,
        ends,
        opened,
        cut,
        outcome,
    })
}
