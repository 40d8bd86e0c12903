//! The attributes of `sgr`.

ghost use Rattle.std.specs.Prelude.{◌≡◌, ◌<◌, ◌^◌, ◌↔◌, ℕ, map, IfOk, IsTrue};
ghost use Rattle.std.specs.Int.{bit_at};
ghost use Rattle.ti_values.specs.Attributes.{IsCombinationAt, LacksAttribute, attributes, is_different as the_is_different, is_ignored, lacks_part as the_lacks_part};
ghost use Rattle.ti_values.specs.Findings.{IsFirstOf, sent_at as the_sent_at};
ghost use Rattle.ti_values.specs.Sent.{texts_of, without_marks as text_without_marks};
ghost use Rattle.ti_values.specs.Renditions.{lacks as the_lacks, parameters, shifts};
ghost use Rattle.ti_values.specs.inner.Rows.{row_of, slices_of};

use crate::lacking::{lacks, lacks_new};
use crate::list::sent_at;
use crate::rendition::{are_parts, parameters_of, shifts_of};
use crate::sent::without_marks;
use std::alloc::{AllocError, Allocator};

/// The texts and the sets.
static ATTRIBUTES: [(&str, u16); 9] = [
    ("smso", 1),
    ("smul", 2),
    ("rev", 4),
    ("blink", 8),
    ("dim", 16),
    ("bold", 32),
    ("invis", 64),
    ("prot", 128),
    ("smacs", 256),
];

/// The names of the texts that start the nine attributes, each with the set of this attribute alone.
#[tactic(auto, unfolding(crate::specs::Attributes::attributes))]
pub fn attributes() -> &'static [(&'static str, u16)]
    ensures names { map row_of result.now ≡ attributes }
{
    &ATTRIBUTES
}

/// Whether the same is sent for a set as for no attribute, of what is sent for all sets.
pub fn is_ignored<A: Allocator>(sent: &[Vec<u8, A>], set: u16) -> bool
    ensures exact { result ≡ is_ignored (texts_of sent.now) set }
{
    sent_at(sent, usize::from(set)) == sent_at(sent, 0)
}

/// Whether what is sent lacks a parameter of a rendition that a text has.
fn lacks_parameter<A: Allocator + Copy>(
    alloc: A,
    sent: &[u8],
    text: &[u8],
) -> Result<bool, AllocError>
    ensures { IfOk result
        (λ lacking. lacking ≡ the_lacks (parameters sent.now) (parameters text.now)) }
{
    let mine = parameters_of(alloc, sent)?;
    let theirs = parameters_of(alloc, text)?;
    Ok(lacks(mine.as_slice(), theirs.as_slice()))
}

/// Whether what is sent lacks a shift that a text has.
fn lacks_shift<A: Allocator + Copy>(alloc: A, sent: &[u8], text: &[u8]) -> Result<bool, AllocError>
    ensures { IfOk result
        (λ lacking. lacking ≡ the_lacks (shifts sent.now) (shifts text.now)) }
{
    let mine = shifts_of(alloc, sent)?;
    let theirs = shifts_of(alloc, text)?;
    Ok(lacks(mine.as_slice(), theirs.as_slice()))
}

/// Whether what is sent lacks a part of a text, if both are renditions and shifts alone.
fn lacks_part<A: Allocator + Copy>(alloc: A, sent: &[u8], text: &[u8]) -> Result<bool, AllocError>
    ensures { IfOk result (λ lacking. lacking ≡ the_lacks_part sent.now text.now) }
{
    if !are_parts(sent) || !are_parts(text) {
        return Ok(false);
    }
    Ok(lacks_parameter(alloc, sent, text)? || lacks_shift(alloc, sent, text)?)
}

/// Whether for the set of one attribute something else is sent than the text that starts it: of what is sent for all sets, that for
/// this one is not ignored, and lacks a parameter of a rendition or a shift that the text has. Nothing is said of a terminal whose
/// attributes are anything but renditions and shifts.
///
/// # Errors
///
/// Memory was refused.
pub fn is_different<A: Allocator + Copy>(
    alloc: A,
    sent: &[Vec<u8, A>],
    set: u16,
    text: &[u8],
) -> Result<bool, AllocError>
    ensures exact { IfOk result (λ different. different
        ≡ the_is_different (texts_of sent.now) set (text_without_marks text.now)) }
{
    if is_ignored(sent, set) {
        return Ok(false);
    }
    let text = without_marks(alloc, text)?;
    lacks_part(alloc, sent_at(sent, usize::from(set)), text.as_slice())
}

/// Whether a set has an attribute.
fn has_attribute(set: usize, attribute: usize) -> bool
    requires { attribute < 9 }
    ensures { IsTrue result ↔ (bit_at set attribute ≡ 1) }
{
    set >> attribute & 1 == 1
}

/// The set of one attribute.
fn alone(attribute: usize) -> usize
    requires { attribute < 9 }
    ensures { result ≡ 2 ^ attribute }
{
    1 << attribute
}

/// The parameters of what is sent for no attribute, and of what is sent for a set.
#[derive(Drop)]
struct Compared<'s, A: Allocator> {
    old: Vec<&'s [u8], A>,
    mine: Vec<&'s [u8], A>,
}

/// These of a set.
fn compare_with_none<A: Allocator + Copy>(
    alloc: A,
    sent: &[Vec<u8, A>],
    set: usize,
) -> Result<Compared<'_, A>, AllocError>
    ensures old { IfOk result (λ both. slices_of both.old.items ≡ parameters (the_sent_at (texts_of sent.now) 0)) }
    ensures mine { IfOk result (λ both. slices_of both.mine.items ≡ parameters (the_sent_at (texts_of sent.now) set)) }
{
    let old = parameters_of(alloc, sent_at(sent, 0))?;
    let mine = parameters_of(alloc, sent_at(sent, set))?;
    Ok(Compared { old, mine })
}

/// Whether what is sent for a set with an attribute lacks a parameter that the attribute alone adds.
fn lacks_attribute<A: Allocator + Copy>(
    alloc: A,
    sent: &[Vec<u8, A>],
    both: &Compared<'_, A>,
    set: usize,
    attribute: usize,
) -> Result<bool, AllocError>
    requires attribute { attribute < 9 }
    requires old { slices_of both.now.old.items ≡ parameters (the_sent_at (texts_of sent.now) 0) }
    requires mine { slices_of both.now.mine.items ≡ parameters (the_sent_at (texts_of sent.now) set) }
    ensures { IfOk result (λ lacking.
        IsTrue lacking ↔ LacksAttribute (texts_of sent.now) set attribute) }
{
    if !has_attribute(set, attribute) {
        return Ok(false);
    }
    let theirs = parameters_of(alloc, sent_at(sent, alone(attribute)))?;
    Ok(lacks_new(both.old.as_slice(), both.mine.as_slice(), theirs.as_slice()))
}

/// Whether it does so for some attribute.
fn lacks_some<A: Allocator + Copy>(
    alloc: A,
    sent: &[Vec<u8, A>],
    set: usize,
) -> Result<bool, AllocError>
    ensures { IfOk result (λ lacking. IsTrue lacking
        ↔ ((attribute : ℕ) × (attribute < 9) × LacksAttribute (texts_of sent.now) set attribute)) }
{
    let both = compare_with_none(alloc, sent, set)?;
    'attributes: for attribute in 0..9 {
        if lacks_attribute(alloc, sent, &both, set, attribute)? {
            return Ok(true);
        }
    }
    Ok(false)
}

/// The first set for which what is sent lacks a parameter of a rendition that one of its attributes alone adds to what is sent for
/// none, of what is sent for all sets.
///
/// # Errors
///
/// Memory was refused.
pub fn first_combination<A: Allocator + Copy>(
    alloc: A,
    sent: &[Vec<u8, A>],
) -> Result<Option<usize>, AllocError>
    ensures exact { IfOk result (IsFirstOf (IsCombinationAt (texts_of sent.now))) }
{
    'sets: for set in 0..sent.len() {
        if lacks_some(alloc, sent, set)? {
            return Ok(Some(set));
        }
    }
    Ok(None)
}
