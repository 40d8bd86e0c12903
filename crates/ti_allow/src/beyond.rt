//! What a string can send, held against the table.

ghost use Rattle.std.specs.Prelude.{◌≡◌, List, ℕ, true, IfOk, OnOk};
ghost use Rattle.std.specs.Bool.{OnTrue};
ghost use Rattle.std.specs.List.{AllByRecursion};
ghost use Rattle.ti_allow.specs.Harmless.{AreAllowed, AreBeyond, IsBeyond, IsClean, IsSilent, OnlyTable, OnlyTableAlways, OnlyTableIn, OnlyTableOf, first_character};
ghost use Rattle.ti_allow.specs.Narrow.{are_narrow};
ghost use Rattle.ti_allow.specs.Rows.{is_allowed};
ghost use Rattle.ti_allow.specs.declared.row.Row.{Row};
ghost use Rattle.ti_cap.specs.Tree.{tokens};
ghost use Rattle.ti_expand.specs.Expands.{ForTree};
ghost use Rattle.ti_parser.specs.declared.paths.Outcome.TheVariants as outcomes;

use crate::allowed::ALLOWED;
use crate::narrow::is_narrow;
use crate::table::is_allowed;
use std::alloc::{AllocError, Allocator};
use ti_cap::Capability;
use ti_parser::{
    Begun, Coding, Configuration, FirstCharacter, Function, Marks, Outcome, Reading, Reception,
    State, Within, functions_of,
};

/// What a string can send, or do, that is not in the table.
#[derive(Drop)]
pub enum Found {
    /// A function, and the place of the token that completes it.
    Function(Function, usize),
    /// A byte that is computed, so that nothing is known of what follows.
    ComputedByte,
    /// An end within a function or a character, and the place of the token that opened it, if it is a function.
    Open(State, Option<usize>),
    /// A string that an escape cuts off, and the place of the token that shows it.
    Cut(usize),
    /// More forms than are followed.
    NotTried,
}

impl Found {
    /// Whether both say the same.
    fn is_same(&self, other: &Found) -> bool {
        match (self, other) {
            (Found::Function(one, place), Found::Function(two, its)) => place == its
                && one.is_same(two),
            (Found::Open(one, place), Found::Open(two, its)) => one == two && place == its,
            (Found::Cut(place), Found::Cut(its)) => place == its,
            (Found::ComputedByte, Found::ComputedByte) | (Found::NotTried, Found::NotTried) => true,
            _ => false,
        }
    }
}

/// Adds what is found, if it is new.
fn add<A: Allocator>(found: &mut Vec<Found, A>, new: Found) -> Result<(), AllocError>
    ensures some { OnOk result (IsSilent found.new.items → ⊥) }
    ensures beyond { OnOk result ((rows : List Row) (name : List ℕ) → AreBeyond rows name found.old.items
        → IsBeyond rows name new → AreBeyond rows name found.new.items) }
{
    if !found.iter().any(|old| old.is_same(&new)) {
        found.push(new)?;
    }
    Ok(())
}

/// Adds a function that the string with a name may not send.
fn add_function<A: Allocator>(
    found: &mut Vec<Found, A>,
    name: &[u8],
    function: &Function,
    place: usize,
) -> Result<(), AllocError>
    ensures before { OnOk result (IsSilent found.new.items → IsSilent found.old.items) }
    ensures beyond { OnOk result (AreBeyond ALLOWED name.now found.old.items → AreBeyond ALLOWED name.now found.new.items) }
    ensures allowed { OnOk result (IsSilent found.new.items → is_allowed ALLOWED name.now function.now ≡ true) }
{
    if is_allowed(name, function) {
        return Ok(());
    }
    add(found, Found::Function(function.duplicate(), place))
}

/// The place of the function at an index.
fn place_at(places: &[usize], index: usize) -> usize {
    places.get(index).copied().unwrap_or(0)
}

/// Adds the functions that the string with a name may not send.
fn add_functions<A: Allocator>(
    found: &mut Vec<Found, A>,
    name: &[u8],
    functions: &[Function],
    places: &[usize],
) -> Result<(), AllocError>
    ensures before { OnOk result (IsSilent found.new.items → IsSilent found.old.items) }
    ensures beyond { OnOk result (AreBeyond ALLOWED name.now found.old.items → AreBeyond ALLOWED name.now found.new.items) }
    ensures allowed { OnOk result (IsSilent found.new.items → AreAllowed ALLOWED name.now functions.now) }
{
    let mut index = 0usize;
    'functions: for function in functions {
        add_function(found, name, function, place_at(places, index))?;
        index = index.saturating_add(1);
    }
    Ok(())
}

/// Whether a parser is outside of functions, with no character begun.
fn is_clean(end: &Configuration) -> bool
    ensures { OnTrue result (IsClean end.now) }
{
    end.state == State::Ground && end.begun == Begun::Nothing
}

/// Adds an end within a function or a character.
fn add_end<A: Allocator>(
    found: &mut Vec<Found, A>,
    end: &Configuration,
    opened: Option<usize>,
) -> Result<(), AllocError>
    ensures before { OnOk result (IsSilent found.new.items → IsSilent found.old.items) }
    ensures beyond { OnOk result ((name : List ℕ) → AreBeyond ALLOWED name found.old.items → AreBeyond ALLOWED name found.new.items) }
    ensures clean { OnOk result (IsSilent found.new.items → IsClean end.now) }
{
    if is_clean(end) {
        return Ok(());
    }
    add(found, Found::Open(end.state, opened))
}

/// Where the end at an index was opened.
fn opened_at(opened: &[Option<usize>], index: usize) -> Option<usize> {
    opened.get(index).copied().flatten()
}

/// Adds the ends within a function or a character.
fn add_ends<A: Allocator>(
    found: &mut Vec<Found, A>,
    ends: &[Configuration],
    opened: &[Option<usize>],
) -> Result<(), AllocError>
    ensures before { OnOk result (IsSilent found.new.items → IsSilent found.old.items) }
    ensures beyond { OnOk result ((name : List ℕ) → AreBeyond ALLOWED name found.old.items → AreBeyond ALLOWED name found.new.items) }
    ensures clean { OnOk result (IsSilent found.new.items → AllByRecursion IsClean ends.now) }
{
    let mut index = 0usize;
    'ends: for end in ends {
        add_end(found, end, opened_at(opened, index))?;
        index = index.saturating_add(1);
    }
    Ok(())
}

/// Adds the ends within a function or a character, or why the paths were not followed to their ends.
fn add_outcome<A: Allocator>(
    found: &mut Vec<Found, A>,
    outcome: Outcome,
    ends: &[Configuration],
    opened: &[Option<usize>],
) -> Result<(), AllocError>
    ensures before { OnOk result (IsSilent found.new.items → IsSilent found.old.items) }
    ensures beyond { OnOk result ((name : List ℕ) → AreBeyond ALLOWED name found.old.items → AreBeyond ALLOWED name found.new.items) }
    ensures clean { OnOk result (IsSilent found.new.items → AllByRecursion IsClean ends.now) }
    ensures whole { OnOk result (IsSilent found.new.items → outcome ≡ outcomes.Whole) }
{
    match outcome {
        Outcome::Whole => add_ends(found, ends, opened),
        Outcome::ComputedByte => add(found, Found::ComputedByte),
        Outcome::NotTried => add(found, Found::NotTried),
    }
}

/// Adds that a string is cut off.
fn add_cut<A: Allocator>(found: &mut Vec<Found, A>, cut: Option<usize>) -> Result<(), AllocError>
    ensures before { OnOk result (IsSilent found.new.items → IsSilent found.old.items) }
    ensures beyond { OnOk result ((name : List ℕ) → AreBeyond ALLOWED name found.old.items → AreBeyond ALLOWED name found.new.items) }
{
    match cut {
        None => Ok(()),
        Some(place) => add(found, Found::Cut(place)),
    }
}

/// Adds what a string can send, received in one way, that its name does not allow.
fn add_received<A: Allocator + Copy>(
    alloc: A,
    found: &mut Vec<Found, A>,
    reception: Reception,
    name: &[u8],
    capability: &Capability<'_>,
) -> Result<(), AllocError>
    ensures before { OnOk result (IsSilent found.new.items → IsSilent found.old.items) }
    ensures beyond { OnOk result (AreBeyond ALLOWED name.now found.old.items → AreBeyond ALLOWED name.now found.new.items) }
    ensures table { OnOk result (IsSilent found.new.items → OnlyTable ALLOWED name.now reception capability.now) }
{
    let sent = functions_of(alloc, reception, capability)?;
    add_functions(found, name, &sent.functions, &sent.places)?;
    add_cut(found, sent.cut)?;
    add_outcome(found, sent.outcome, &sent.ends, &sent.opened)?;
    Ok(())
}

/// What the first parameter of the string with a name may be, if `%c` prints it.
fn first_character(name: &[u8]) -> FirstCharacter
    ensures { result ≡ first_character name.now }
{
    if name == b"rep".as_slice() {
        FirstCharacter::Printable
    } else if name == b"S0".as_slice() {
        FirstCharacter::Designator
    } else {
        FirstCharacter::Any
    }
}

/// The same in one reading, without the padding marks that `tputs` of ncurses takes out, and without those of `ti_pad`.
#[tactic(auto, unfolding(crate::specs::Harmless::OnlyTableIn))]
fn add_read<A: Allocator + Copy>(
    alloc: A,
    found: &mut Vec<Found, A>,
    reading: Reading,
    name: &[u8],
    capability: &Capability<'_>,
) -> Result<(), AllocError>
    ensures before { OnOk result (IsSilent found.new.items → IsSilent found.old.items) }
    ensures beyond { OnOk result (AreBeyond ALLOWED name.now found.old.items → AreBeyond ALLOWED name.now found.new.items) }
    ensures table { OnOk result (IsSilent found.new.items → OnlyTableIn ALLOWED name.now reading capability.now) }
{
    add_received(
        alloc,
        found,
        Reception {
            reading,
            marks: Marks::Tputs,
            first_character: first_character(name),
        },
        name,
        capability,
    )?;
    add_received(
        alloc,
        found,
        Reception {
            reading,
            marks: Marks::TiPad,
            first_character: first_character(name),
        },
        name,
        capability,
    )?;
    Ok(())
}

/// The same in both readings of a coding.
#[tactic(auto, unfolding(crate::specs::Harmless::OnlyTableOf))]
fn add_coded<A: Allocator + Copy>(
    alloc: A,
    found: &mut Vec<Found, A>,
    coding: Coding,
    name: &[u8],
    capability: &Capability<'_>,
) -> Result<(), AllocError>
    ensures before { OnOk result (IsSilent found.new.items → IsSilent found.old.items) }
    ensures beyond { OnOk result (AreBeyond ALLOWED name.now found.old.items → AreBeyond ALLOWED name.now found.new.items) }
    ensures table { OnOk result (IsSilent found.new.items → OnlyTableOf ALLOWED name.now coding capability.now) }
{
    add_read(
        alloc,
        found,
        Reading {
            coding,
            within: Within::StartsAnew,
        },
        name,
        capability,
    )?;
    add_read(
        alloc,
        found,
        Reading {
            coding,
            within: Within::GoesOn,
        },
        name,
        capability,
    )?;
    Ok(())
}

/// The same of a capability that each coding reads alike, and in which no mark can come: as the law `always` says, two passes do.
fn add_narrow<A: Allocator + Copy>(
    alloc: A,
    found: &mut Vec<Found, A>,
    name: &[u8],
    capability: &Capability<'_>,
) -> Result<(), AllocError>
    requires { ForTree capability.now (λ tree. are_narrow (tokens tree) ≡ true) }
    ensures beyond { OnOk result (AreBeyond ALLOWED name.now found.old.items → AreBeyond ALLOWED name.now found.new.items) }
    ensures table { OnOk result (IsSilent found.new.items → OnlyTableAlways ALLOWED name.now capability.now) }
{
    add_received(
        alloc,
        found,
        Reception {
            reading: Reading {
                coding: Coding::Utf8,
                within: Within::StartsAnew,
            },
            marks: Marks::Tputs,
            first_character: first_character(name),
        },
        name,
        capability,
    )?;
    add_received(
        alloc,
        found,
        Reception {
            reading: Reading {
                coding: Coding::Utf8,
                within: Within::GoesOn,
            },
            marks: Marks::Tputs,
            first_character: first_character(name),
        },
        name,
        capability,
    )?;
    Ok(())
}

/// The same of any other.
#[tactic(auto, unfolding(crate::specs::Harmless::OnlyTableAlways))]
fn add_wide<A: Allocator + Copy>(
    alloc: A,
    found: &mut Vec<Found, A>,
    name: &[u8],
    capability: &Capability<'_>,
) -> Result<(), AllocError>
    ensures beyond { OnOk result (AreBeyond ALLOWED name.now found.old.items → AreBeyond ALLOWED name.now found.new.items) }
    ensures table { OnOk result (IsSilent found.new.items → OnlyTableAlways ALLOWED name.now capability.now) }
{
    add_coded(alloc, found, Coding::Utf8, name, capability)?;
    add_coded(alloc, found, Coding::Utf8WithC1, name, capability)?;
    add_coded(alloc, found, Coding::Bytes, name, capability)?;
    Ok(())
}

/// The same in each reading.
fn add_all<A: Allocator + Copy>(
    alloc: A,
    found: &mut Vec<Found, A>,
    name: &[u8],
    capability: &Capability<'_>,
) -> Result<(), AllocError>
    ensures beyond { OnOk result (AreBeyond ALLOWED name.now found.old.items → AreBeyond ALLOWED name.now found.new.items) }
    ensures table { OnOk result (IsSilent found.new.items → OnlyTableAlways ALLOWED name.now capability.now) }
{
    if is_narrow(capability) {
        add_narrow(alloc, found, name, capability)
    } else {
        add_wide(alloc, found, name, capability)
    }
}

/// What the string with a name can send, or do, that is not in the table: on all paths, for all variables and parameters whose texts
/// are data, in each reading, as `tputs` of ncurses and as `ti_pad` send it. If nothing is found, it keeps to the table.
///
/// # Errors
///
/// Memory was refused.
pub fn beyond_table<A: Allocator + Copy>(
    alloc: A,
    name: &[u8],
    capability: &Capability<'_>,
) -> Result<Vec<Found, A>, AllocError>
    ensures only_table { IfOk result (λ found. IsSilent found.items → OnlyTableAlways ALLOWED name.now capability.now) }
    ensures beyond { IfOk result (λ found. AreBeyond ALLOWED name.now found.items) }
{
    let mut found = Vec::new(alloc);
    add_all(alloc, &mut found, name, capability)?;
    Ok(found)
}
