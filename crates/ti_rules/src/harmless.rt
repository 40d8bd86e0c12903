//! Strings in which nothing was found, kept so that each is looked at once for all entries that share it.
//!
//! What is kept saves time alone. Each string has a place by its bytes, and drives out the one that was there.

ghost use Rattle.std.specs.Prelude.{◌≡◌, IfOk, true};
ghost use Rattle.ti_allow.specs.Harmless.{IsSilent};
ghost use Rattle.ti_rules.specs.Controls.{Keeps};
ghost use Rattle.ti_rules.specs.inner.Held.{sending_as, sending_held};

use crate::sending::{Sending, found_in};
use std::alloc::{AllocError, Allocator};
use std::marker::Model;
use ti_allow::Found;

/// How many places there are.
const PLACES: u64 = 1024;

/// The most bytes of a string that is kept, so that all that are kept have 128 KB.
const MOST_KEPT_BYTES: usize = 128;

/// A string under its name, in which nothing was found as it is sent.
#[derive(Drop)]
struct HarmlessText<A: Allocator> {
    name: Vec<u8, A>,
    text: Vec<u8, A>,
    is_expanded: bool,
}

impl<A: Allocator> Model for HarmlessText<A> {
    ghost use Rattle.std.specs.Prelude.{ℕ, Bool, List};
    ghost use Rattle.ti_rules.specs.Controls.{Keeps};
    ghost use Rattle.ti_rules.specs.inner.Held.{sending_as};

    ghost Value = { List ℕ × List ℕ × Bool };

    ghost view = { λ h. (h.name.items, h.text.items, h.is_expanded) };

    ghost invariant = { λ h. Keeps h.name.items (sending_as h.is_expanded h.text.items) };
}

/// The strings that are kept, each at its place.
#[derive(Drop)]
pub struct Harmless<A: Allocator> {
    places: Vec<Option<HarmlessText<A>>, A>,
}

impl<A: Allocator> HarmlessText<A> {
    /// Whether it is this string under this name, sent so.
    fn is_of(&self, name: &[u8], sending: Sending<'_>) -> bool
        ensures { result ≡ true → Keeps name.now (sending_held sending.entry) }
    {
        if self.name.as_slice() != name {
            return false;
        }
        match (sending, self.is_expanded) {
            (Sending::Expanded(text), true) | (Sending::AsItStands(text), false) => {
                self.text.as_slice() == text
            }
            _ => false,
        }
    }
}

/// The bytes of a string, and whether it is given parameters.
fn parts_of(sending: Sending<'_>) -> (&[u8], bool)
    ensures { sending_held sending.entry ≡ sending_as result.1 result.0.now }
{
    match sending {
        Sending::Expanded(text) => (text, true),
        Sending::AsItStands(text) => (text, false),
    }
}

/// The place of a string under its name, by FNV-1a (RFC 9923).
fn place_of(name: &[u8], text: &[u8]) -> usize {
    let mut hash = 0xcbf2_9ce4_8422_2325u64;
    for byte in name.iter().chain(text) {
        hash = (hash ^ u64::from(*byte)).wrapping_mul(0x100_0000_01b3);
    }
    (hash % PLACES) as usize
}

impl<A: Allocator + Copy> Harmless<A> {
    /// None so far, which takes no memory.
    pub fn new(alloc: A) -> Self {
        Harmless {
            places: Vec::new(alloc),
        }
    }

    /// Whether a string is kept.
    fn has(&self, name: &[u8], sending: Sending<'_>) -> bool
        ensures { result ≡ true → Keeps name.now (sending_held sending.entry) }
    {
        let (text, _) = parts_of(sending);
        match self.places.get(place_of(name, text)) {
            Some(Some(kept)) => kept.is_of(name, sending),
            _ => false,
        }
    }

    /// Keeps a string in which nothing was found.
    fn keep(&mut self, alloc: A, name: &[u8], sending: Sending<'_>) -> Result<(), AllocError>
        requires { Keeps name.now (sending_held sending) }
    {
        let (text, is_expanded) = parts_of(sending);
        if text.len() > MOST_KEPT_BYTES {
            return Ok(());
        }
        'places: for _ in self.places.len()..PLACES as usize {
            self.places.push(None)?;
        }
        let kept = HarmlessText {
            name: name.to_vec(alloc)?,
            text: text.to_vec(alloc)?,
            is_expanded,
        };
        if let Some(place) = self.places.get_mut(place_of(name, text)) {
            *place = Some(kept);
        }
        Ok(())
    }

    /// What a string can do beside what the table has for its name.
    pub fn found_in(
        &mut self,
        alloc: A,
        name: &[u8],
        sending: Sending<'_>,
    ) -> Result<Vec<Found, A>, AllocError>
        ensures { IfOk result (λ found. IsSilent found.items → Keeps name.now (sending_held sending.entry)) }
    {
        if self.has(name, sending) {
            return Ok(Vec::new(alloc));
        }
        let found = found_in(alloc, name, sending)?;
        if found.is_empty() {
            self.keep(alloc, name, sending)?;
        }
        Ok(found)
    }
}
