//! Checking a capability for C.

ghost use Rattle.std.specs.Prelude.{◌≡◌, ◌⊎◌, ◌↔◌, ℕ};
ghost use Rattle.ti_cap.specs.Capability.{HasDepth, HasBound, HasNest, IsWellFormed};
ghost use Rattle.ti_cap.specs.Refusal.{IsFaultless};
ghost use Rattle.ti_cap.specs.Sources.{Has, IsNamed, IsTakenAsText};
ghost use Rattle.ti_c.specs.Numbers.{done};
ghost use Rattle.ti_c.specs.Given.{IsRefusedAs};

use crate::faults::{DONE, capability_number};
use ti_cap::Capability;

/// The limits of a capability, or the place of its fault.
#[repr(C)]
#[derive(Clone, Copy, Debug, PartialEq, Eq)]
pub struct Limits {
    /// The greatest number of values on the stack.
    pub depth: usize,
    /// The greatest number of conditionals that are open at once.
    pub nest: usize,
    /// The most bytes that it writes, for texts up to the length that was requested.
    pub bound: u64,
    /// Where the fault stands, in bytes from the start.
    pub place: usize,
    /// The parameters that it names, as a mask: bit N - 1 is for parameter N.
    pub named: u16,
    /// The parameters that it takes as texts, as a mask.
    pub texts: u16,
}

/// Checks bytes as a capability, and returns 0 with its limits, or the number of its fault with the place. Nothing else is
/// written in either case.
#[unsafe(no_mangle)]
pub extern "C" fn ti_check(capability: &[u8], longest_text: u16, limits: &mut Limits) -> u32
    ensures answer { (result ≡ done) ⊎ IsRefusedAs capability.now result limits.new.place }
    ensures only { (number place : ℕ) → IsRefusedAs capability.now number place
        → (result ≡ number) × (limits.new.place ≡ place) }
    // After a refusal nothing is written but the place, and else no place is.
    ensures place { (result ≡ done)
        ⊎ (limits.new ≡ record limits.old { place = limits.new.place }) }
    ensures untold { result ≡ done → limits.new.place ≡ limits.old.place }
    // Bytes are accepted if they have no fault, and only then.
    ensures accepted { result ≡ done → IsFaultless capability.now }
    ensures tree { result ≡ done → IsWellFormed capability.now }
    ensures depth { result ≡ done → HasDepth capability.now limits.new.depth }
    ensures nest { result ≡ done → HasNest capability.now limits.new.nest }
    ensures bound { result ≡ done → HasBound capability.now longest_text limits.new.bound }
    // The masks have exactly the parameters that some path names, and that some path takes as a text.
    ensures named { result ≡ done → (which : ℕ)
        → Has (record { mask = limits.new.named }) which ↔ IsNamed capability.now which }
    ensures texts { result ≡ done → (which : ℕ)
        → Has (record { mask = limits.new.texts }) which ↔ IsTakenAsText capability.now which }
{
    match Capability::parse(capability) {
        Ok(capability) => {
            limits.depth = capability.depth();
            limits.nest = capability.nest();
            limits.bound = capability.bound(longest_text);
            let parameters = capability.parameters();
            limits.named = parameters.named.mask;
            limits.texts = parameters.texts.mask;
            DONE
        }
        Err(refused) => {
            limits.place = refused.place;
            capability_number(refused.fault)
        }
    }
}
