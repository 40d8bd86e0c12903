//! The places of a text at which something is wrong.

ghost use Rattle.std.specs.Prelude.{◌≤◌, ◌↔◌, length, IsTrue, IfOk};
ghost use Rattle.ti_lint.specs.Plain.{IsMeantToExpand};
ghost use Rattle.ti_rules.specs.Marks.{AreMarked, ArePlacesFrom, ArePlacesOf, IsSought};
ghost use Rattle.ti_rules.specs.Texts.{AreEscapes};

use std::alloc::{AllocError, Allocator};
use ti_cap::Capability;
use ti_lint::{
    PlacedFinding, TokenFinding, is_double_percent, is_false_mark, is_mark, is_meant_to_expand,
};

/// The places at which a finding was found.
pub fn places_of<A: Allocator>(
    alloc: A,
    founds: &[PlacedFinding],
    finding: TokenFinding,
) -> Result<Vec<usize, A>, AllocError>
    ensures { IfOk result (λ places. ArePlacesOf finding founds.now places.items) }
{
    let mut places = Vec::new(alloc);
    'founds: for found in founds {
        if found.finding == finding {
            places.push(found.place)?;
        }
    }
    Ok(places)
}

/// The places of the tokens of a capability that are meant to be expanded.
fn places_to_expand<A: Allocator>(
    alloc: A,
    capability: &Capability<'_>,
) -> Result<Vec<usize, A>, AllocError>
    ensures { IfOk result (λ places.
        AreMarked (λ spot token. IsMeantToExpand token) capability.now places.items) }
{
    let mut places = Vec::new(alloc);
    let mut tape = capability.tape();
    let mut place = 0;
    'tokens: while let Some(token) = tape.token() {
        if is_meant_to_expand(token) {
            places.push(place)?;
        }
        place = tape.at();
    }
    Ok(places)
}

/// The places of the tokens that are meant to be expanded, if the text is a capability.
pub fn escapes_of<A: Allocator>(alloc: A, text: &[u8]) -> Result<Vec<usize, A>, AllocError>
    ensures { IfOk result (λ places. AreEscapes text.now places.items) }
{
    match Capability::parse(text) {
        Ok(capability) => places_to_expand(alloc, &capability),
        Err(_) => Ok(Vec::new(alloc)),
    }
}

/// The bytes that a rule looks for in a text.
#[derive(Clone, Copy)]
pub enum Sought {
    /// Two percent signs.
    Percents,
    /// A padding mark.
    Mark,
    /// A start of a padding mark that is none.
    FalseMark,
}

/// Whether it stands at a place.
fn stands_at(text: &[u8], sought: Sought, place: usize) -> bool
    requires { place ≤ length text.now }
    ensures exact { IsTrue result ↔ IsSought text.now sought place }
{
    match sought {
        Sought::Percents => is_double_percent(text, place),
        Sought::Mark => is_mark(text, place),
        Sought::FalseMark => is_false_mark(text, place),
    }
}

/// The places at which it stands.
pub fn places_at<A: Allocator>(
    alloc: A,
    text: &[u8],
    sought: Sought,
) -> Result<Vec<usize, A>, AllocError>
    ensures { IfOk result
        (λ places. ArePlacesFrom (IsSought text.now sought) 0 places.items) }
{
    let mut places = Vec::new(alloc);
    'places: for place in 0..text.len() {
        if stands_at(text, sought, place) {
            places.push(place)?;
        }
    }
    Ok(places)
}
