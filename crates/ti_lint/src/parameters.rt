//! The parameters that a capability has and leaves out.

ghost use Rattle.std.specs.Prelude.{ℕ, ◌≤◌, ◌↔◌};
ghost use Rattle.ti_cap.specs.Sources.{Has, IsNamed};

use ti_cap::{Capability, ParameterSet};

/// Which of the parameters from 1 to `count`, or to 9 if that is less, no path pushes. It goes over the tokens once.
pub fn unused_parameters(capability: &Capability<'_>, count: u8) -> ParameterSet
    ensures exact { (which : ℕ) → Has result which
        ↔ ((1 ≤ which) × (which ≤ 9) × (which ≤ count) × ¬ IsNamed capability.now which) }
{
    let named = capability.parameters().named;
    let most = count.min(9);
    ParameterSet {
        mask: ((1 << most) - 1) & !named.mask,
    }
}
