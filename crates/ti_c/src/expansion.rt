//! Expanding a capability for C.

ghost use Rattle.std.specs.Prelude.{◌≡◌, ◌≤◌, ◌<◌, ◌⊎◌, ℕ, [], length, take, drop, IfSome, IfNone};
ghost use Rattle.std.specs.Bool.{OnFalse, OnTrue};
ghost use Rattle.ti_cap.specs.Refusal.{IsFaultless};
ghost use Rattle.ti_expand.specs.Sound.{IsSoundValue};
ghost use Rattle.ti_expand.specs.declared.values.Value.TheVariants.{Num};
ghost use Rattle.ti_expand.specs.State.{values_of};
ghost use Rattle.ti_expand.specs.Expands.{text_len, AreShort, IsExpansion, IsBytesFault, IsRefusalTextOrRoom};
ghost use Rattle.ti_c.specs.Numbers.{done, too_many_parameters};
ghost use Rattle.ti_c.specs.Given.{value_given, values_given, IsExpansionFault, IsToldAs};

use crate::faults::{DONE, OUT_TOO_SMALL, TEXT_TOO_LONG, TOO_MANY_PARAMETERS, capability_number};
use ti_cap::{CapRefused, Capability};
use ti_expand::{
    BytesFault, ExpandFault, Value, Vars, expand_at_once, expand_checked, expand_plain,
};

/// A parameter: the number if `is_text` is 0, else the text.
#[repr(C)]
#[derive(Clone, Copy, Debug)]
pub struct Parameter<'a> {
    pub text: &'a [u8],
    pub number: i32,
    pub is_text: u8,
}

/// How an expansion went, or where its fault stands.
#[repr(C)]
#[derive(Clone, Copy, Debug)]
pub struct PlacedRun {
    /// The counts of bytes written and tokens run.
    pub counts: ti_expand::Run,
    /// Of a capability's fault the place in its bytes; else the parameter whose text is too long, counted from 1, or the
    /// bytes that the output needs.
    pub place: usize,
}

/// Puts the value of a parameter into a place. Each case writes there itself, since a value that is made first is copied.
fn put_value<'a>(value: &mut Value<'a>, parameter: &Parameter<'a>)
    ensures { value.new ≡ value_given parameter.now }
{
    if parameter.is_text == 0 {
        *value = Value::Num(parameter.number);
    } else {
        *value = Value::Text(parameter.text);
    }
}

/// Puts the values of the parameters over nine zeros. An array that is returned is copied.
fn put_values<'a>(values: &mut [Value<'a>; 9], parameters: &[Parameter<'a>])
    requires few { length parameters.now ≤ 9 }
    requires zeros { values.old ≡ values_given [] }
    ensures { values.new ≡ values_given parameters.now }
{
    for i in 0..parameters.len() {
        put_value(&mut values[i], &parameters[i]);
    }
}

/// Whether a parameter is a text.
#[inline(always)]
fn is_text(parameter: &Parameter<'_>) -> bool
    ensures len { OnFalse result (text_len (value_given parameter.now) ≡ 0) }
    ensures sound { OnFalse result (IsSoundValue 0 (value_given parameter.now)) }
    ensures number { OnFalse result (value_given parameter.now ≡ Num parameter.now.number) }
{
    // A number fits 32 bits.
    let _number = parameter.number;
    parameter.is_text != 0
}

/// Whether one of them is a text. Each is looked at, which takes less than to stop at the first.
#[inline(always)]
fn has_text(parameters: &[Parameter<'_>]) -> bool
    requires few { length parameters.now ≤ 9 }
    ensures { OnFalse result (AreShort (values_given parameters.now) 0) }
{
    let mut found = false;
    for parameter in parameters {
        found |= is_text(parameter);
    }
    found
}

/// Expands a capability without escapes, if no parameter is a text and if there is room. Nothing is made of the parameters.
#[inline(always)]
fn expand_if_plain(
    capability: &[u8],
    parameters: &[Parameter<'_>],
    variables: &Vars,
    out: &mut [u8],
) -> Option<ti_expand::Run>
    requires few { length parameters.now ≤ 9 }
    ensures kept { IfNone result (out.new ≡ out.old) }
    ensures accepted { IfSome result (λ _. IsFaultless capability.now) }
    ensures faultless { IfSome result (λ _. (fault : BytesFault)
        → ¬ IsBytesFault capability.now (values_given parameters.now) (length out.old) fault) }
    ensures expansion { IfSome result (λ counts. IsExpansion capability.now
        (values_given parameters.now) variables.now variables.now
        (take counts.written out.new) counts) }
    ensures rest { IfSome result
        (λ counts. drop counts.written out.new ≡ drop counts.written out.old) }
{
    let plain = Capability::plain(capability)?;
    if has_text(parameters) {
        return None;
    }
    expand_plain(&plain, out)
}

/// Puts the numbers of the parameters over nine zeros, and returns whether none of them is a text.
#[inline(always)]
fn put_numbers(numbers: &mut [i32; 9], parameters: &[Parameter<'_>]) -> bool
    requires few { length parameters.now ≤ 9 }
    requires zeros { values_of numbers.old ≡ values_given [] }
    ensures values { OnTrue result (values_of numbers.new ≡ values_given parameters.now) }
    ensures short { OnTrue result (AreShort (values_of numbers.new) 0) }
{
    let mut found = false;
    for i in 0..parameters.len() {
        found |= is_text(&parameters[i]);
        numbers[i] = parameters[i].number;
    }
    !found
}

/// Expands a capability over numbers in one pass, if no parameter is a text and if that takes little room.
#[inline(always)]
fn expand_if_numbers(
    capability: &[u8],
    parameters: &[Parameter<'_>],
    variables: &mut Vars,
    out: &mut [u8],
    counts: &mut ti_expand::Run,
) -> bool
    requires few { length parameters.now ≤ 9 }
    ensures kept { OnFalse result
        ((variables.new ≡ variables.old) × (out.new ≡ out.old) × (counts.new ≡ counts.old)) }
    ensures accepted { OnTrue result (IsFaultless capability.now) }
    ensures faultless { OnTrue result ((fault : BytesFault)
        → ¬ IsBytesFault capability.now (values_given parameters.now) (length out.old) fault) }
    ensures expansion { OnTrue result (IsExpansion capability.now (values_given parameters.now)
        variables.old variables.new (take counts.new.written out.new) counts.new) }
    ensures rest { OnTrue result
        (drop counts.new.written out.new ≡ drop counts.new.written out.old) }
{
    let mut numbers = [0; 9];
    if !put_numbers(&mut numbers, parameters) {
        return false;
    }
    expand_at_once(capability, &numbers, variables, out, counts)
}

/// The number of a fault, with its place.
fn number_and_place(fault: BytesFault) -> (u32, usize)
    requires { IsRefusalTextOrRoom fault }
    ensures { IsToldAs fault result.0 result.1 }
{
    match fault {
        BytesFault::Refused(CapRefused { fault, place }) => (capability_number(fault), place),
        BytesFault::Failed(ExpandFault::TextTooLong { parameter }) => {
            (TEXT_TOO_LONG, parameter as usize)
        }
        BytesFault::Failed(ExpandFault::OutTooSmall { need }) => (OUT_TOO_SMALL, need as usize),
        BytesFault::Failed(ExpandFault::StackTooSmall { .. }) => unreachable!(),
        BytesFault::Failed(ExpandFault::Memory) => unreachable!(),
    }
}

/// Expands a capability into the caller's bytes, and returns 0 with the counts, or the number of the first fault with the
/// place: of the parameters, of the capability, of the expansion.
///
/// After a fault the variables and the output are as before, and nothing is written but the place. No place is written
/// after 0, or after too many parameters.
#[unsafe(no_mangle)]
pub extern "C" fn ti_expand<'a>(
    capability: &'a [u8],
    parameters: &[Parameter<'a>],
    variables: &mut Vars,
    out: &mut [u8],
    run: &mut PlacedRun,
) -> u32
    // A fault is the first in the order of the parameters, the capability and the expansion, and it is returned.
    ensures answer { (result ≡ done) ⊎ IsExpansionFault capability.now (values_given parameters.now)
        (length parameters.now) (length out.old) result run.new.place }
    ensures only { (number place : ℕ) → IsExpansionFault capability.now (values_given parameters.now)
        (length parameters.now) (length out.old) number place
        → (result ≡ number) × ((number ≡ too_many_parameters) ⊎ (run.new.place ≡ place)) }
    ensures few { result ≡ done → length parameters.now ≤ 9 }
    ensures many { 9 < length parameters.now
        → (result ≡ too_many_parameters) × (run.new ≡ run.old) }
    ensures accepted { result ≡ done → IsFaultless capability.now }
    ensures faultless { result ≡ done → (fault : BytesFault)
        → ¬ IsBytesFault capability.now (values_given parameters.now) (length out.old) fault }
    ensures kept { (result ≡ done) ⊎ ((variables.new ≡ variables.old) × (out.new ≡ out.old)) }
    ensures place { (result ≡ done) ⊎ (run.new ≡ record run.old { place = run.new.place }) }
    ensures untold { result ≡ done → run.new.place ≡ run.old.place }
    ensures expansion { result ≡ done → IsExpansion capability.now (values_given parameters.now)
        variables.old variables.new (take run.new.counts.written out.new) run.new.counts }
    ensures rest { result ≡ done
        → drop run.new.counts.written out.new ≡ drop run.new.counts.written out.old }
{
    if parameters.len() > 9 {
        return TOO_MANY_PARAMETERS;
    }
    if let Some(copied) = expand_if_plain(capability, parameters, variables, out) {
        run.counts = copied;
        return DONE;
    }
    if expand_if_numbers(capability, parameters, variables, out, &mut run.counts) {
        return DONE;
    }
    expand_values(capability, parameters, variables, out, run)
}

/// The same for at most nine parameters, over their values. It is a function of its own, so that they are made only if they
/// are needed.
#[inline(never)]
fn expand_values<'a>(
    capability: &'a [u8],
    parameters: &[Parameter<'a>],
    variables: &mut Vars,
    out: &mut [u8],
    run: &mut PlacedRun,
) -> u32
    requires few { length parameters.now ≤ 9 }
    ensures answer { (result ≡ done) ⊎ IsExpansionFault capability.now (values_given parameters.now)
        (length parameters.now) (length out.old) result run.new.place }
    ensures only { (number place : ℕ) → IsExpansionFault capability.now (values_given parameters.now)
        (length parameters.now) (length out.old) number place
        → (result ≡ number) × (run.new.place ≡ place) }
    ensures accepted { result ≡ done → IsFaultless capability.now }
    ensures faultless { result ≡ done → (fault : BytesFault)
        → ¬ IsBytesFault capability.now (values_given parameters.now) (length out.old) fault }
    ensures kept { (result ≡ done) ⊎ ((variables.new ≡ variables.old) × (out.new ≡ out.old)) }
    ensures place { (result ≡ done) ⊎ (run.new ≡ record run.old { place = run.new.place }) }
    ensures untold { result ≡ done → run.new.place ≡ run.old.place }
    ensures expansion { result ≡ done → IsExpansion capability.now (values_given parameters.now)
        variables.old variables.new (take run.new.counts.written out.new) run.new.counts }
    ensures rest { result ≡ done
        → drop run.new.counts.written out.new ≡ drop run.new.counts.written out.old }
{
    let mut values = [Value::Num(0); 9];
    put_values(&mut values, parameters);
    match expand_checked(capability, &values, variables, out) {
        Ok(counts) => {
            run.counts = counts;
            DONE
        }
        Err(fault) => {
            let (number, place) = number_and_place(fault);
            run.place = place;
            number
        }
    }
}
