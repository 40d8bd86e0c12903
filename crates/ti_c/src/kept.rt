//! A capability that C keeps: compiled once, and then expanded as often as needed.
//!
//! The caller keeps its steps, so each call tests them again: they may be any.

ghost use Rattle.std.specs.Prelude.{◌≡◌, ◌≤◌, ◌<◌, ◌⊎◌, ◌↔◌, ℕ, List, length, pos, replicate, take, IsTrue};
ghost use Rattle.ti_cap.specs.declared.language.Token.{Token};
ghost use Rattle.ti_cap.specs.Capability.{IsWellFormed};
ghost use Rattle.ti_cap.specs.Refusal.{IsFaultless};
ghost use Rattle.ti_cap.specs.Spelling.{Written};
ghost use Rattle.ti_expand.specs.Expands.{ForMeaning};
ghost use Rattle.ti_kept.specs.Kept.{IsKept, Fits, HasMarkStart, nine_of, take_variable};
ghost use Rattle.ti_expand.specs.State.{values_of};
ghost use Rattle.ti_c.specs.Numbers.{done, does_not_fit, no_variables, out_too_small, too_many_parameters};
ghost use Rattle.ti_c.specs.Given.{IsRefusedAs};

use crate::faults::{
    DOES_NOT_FIT, DONE, NO_VARIABLES, OUT_TOO_SMALL, TOO_MANY_PARAMETERS, capability_number,
};
use ti_expand::Vars;
use ti_kept::{CompileFault, Kept, expand_kept};

/// Compiles a capability, and returns 0, or the number of its fault with the place; or 204 if it does not fit, and then
/// `ti_expand` is the call. Nothing of it is written but after 0.
#[unsafe(no_mangle)]
pub extern "C" fn ti_compile<'a>(bytes: &'a [u8], kept: &mut Kept<'a>, place: &mut usize) -> u32
    ensures answer { (result ≡ done)
        ⊎ ((result ≡ does_not_fit) ⊎ IsRefusedAs bytes.now result place.new) }
    ensures only { (number other : ℕ) → IsRefusedAs bytes.now number other
        → (result ≡ number) × (place.new ≡ other) }
    // A capability is compiled if it fits for sure, and its steps are those of its bytes.
    ensures accepted { result ≡ done → IsFaultless bytes.now }
    ensures kept { result ≡ done → IsKept kept.new }
    ensures text { result ≡ done → kept.new.bytes.now ≡ bytes.now }
    ensures marked { result ≡ done → (kept.new.marked ≡ 1) ↔ HasMarkStart bytes.now }
    ensures varied { result ≡ done → (tokens : List Token) → Written tokens bytes.now
        → (kept.new.varied ≡ 1) ↔ IsTrue (take_variable tokens) }
    ensures unfit { result ≡ does_not_fit → IsFaultless bytes.now × (Fits bytes.now → ⊥) }
    ensures same { (result ≡ done) ⊎ (kept.new ≡ kept.old) }
    ensures untold { IsFaultless bytes.now → place.new ≡ place.old }
{
    match Kept::compile(bytes) {
        Ok(compiled) => {
            *kept = compiled;
            DONE
        }
        Err(CompileFault::Refused(refused)) => {
            *place = refused.place;
            capability_number(refused.fault)
        }
        Err(CompileFault::DoesNotFit) => DOES_NOT_FIT,
    }
}

/// Expands a compiled capability over numbers, and may write over all of the output. It returns 0 and how many bytes of the
/// output count; or 201 for more than nine parameters, or 203 for less room than the bound, and then nothing is written.
#[unsafe(no_mangle)]
pub extern "C" fn ti_expand_kept_over(
    kept: &Kept<'_>,
    parameters: &[i32],
    variables: &mut Vars,
    out: &mut [u8],
    written: &mut usize,
) -> u32
    ensures many { 9 < length parameters.now → result ≡ too_many_parameters }
    ensures small { length parameters.now ≤ 9 → length out.old < kept.now.bound
        → result ≡ out_too_small }
    ensures enough { length parameters.now ≤ 9 → kept.now.bound ≤ length out.old → result ≡ done }
    ensures same { (result ≡ done) ⊎ ((variables.new ≡ variables.old) × (out.new ≡ out.old)
        × (written.new ≡ written.old)) }
    // Whatever the steps are, what counts lies in the output.
    ensures within { result ≡ done → written.new ≤ length out.new }
    // If they are those of a capability, its expansion is what counts, and the variables are those after it.
    ensures tree { result ≡ done → IsKept kept.now → IsWellFormed kept.now.bytes.now }
    ensures output { result ≡ done → IsKept kept.now → ForMeaning kept.now.bytes.now variables.old
        (values_of (nine_of parameters.now))
        (λ end. take written.new out.new ≡ end.output) }
    ensures variables { result ≡ done → IsKept kept.now → ForMeaning kept.now.bytes.now
        variables.old (values_of (nine_of parameters.now))
        (λ end. variables.new ≡ end.variables) }
{
    if parameters.len() > 9 {
        return TOO_MANY_PARAMETERS;
    }
    match expand_kept(kept, parameters, variables, out) {
        Some(count) => {
            *written = count;
            DONE
        }
        None => OUT_TOO_SMALL,
    }
}

/// The same without variables, which are 0. It returns 205, and nothing is written, if there are at most nine parameters and
/// the capability has variables.
#[unsafe(no_mangle)]
pub extern "C" fn ti_expand_kept_alone(
    kept: &Kept<'_>,
    parameters: &[i32],
    out: &mut [u8],
    written: &mut usize,
) -> u32
    ensures many { 9 < length parameters.now → result ≡ too_many_parameters }
    ensures needed { length parameters.now ≤ 9 → 0 < kept.now.varied → result ≡ no_variables }
    ensures small { length parameters.now ≤ 9 → kept.now.varied ≡ 0
        → length out.old < kept.now.bound → result ≡ out_too_small }
    ensures enough { length parameters.now ≤ 9 → kept.now.varied ≡ 0
        → kept.now.bound ≤ length out.old → result ≡ done }
    ensures same { (result ≡ done) ⊎ ((out.new ≡ out.old) × (written.new ≡ written.old)) }
    ensures within { result ≡ done → written.new ≤ length out.new }
    ensures tree { result ≡ done → IsKept kept.now → IsWellFormed kept.now.bytes.now }
    ensures output { result ≡ done → IsKept kept.now → ForMeaning kept.now.bytes.now
        (replicate 52 (pos 0)) (values_of (nine_of parameters.now))
        (λ end. take written.new out.new ≡ end.output) }
{
    if parameters.len() <= 9 && kept.varied != 0 {
        return NO_VARIABLES;
    }
    let mut zeros = Vars::new();
    ti_expand_kept_over(kept, parameters, &mut zeros, out, written)
}
