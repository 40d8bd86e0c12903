//! The expansion of a capability, as the calls of the program need it.

ghost use Rattle.std.specs.Prelude.{◌≡◌, ◌⊎◌, IfOk, IfErr};
ghost use Rattle.ti_cap.specs.Refusal.{IsFaultless};
ghost use Rattle.ti_tool.specs.declared.fault.ToolFault.TheVariants as fault;
ghost use Rattle.ti_tool.specs.Results.{IsExpansion, IsUnexpanded};
ghost use Rattle.ti_tool.specs.inner.Dues.{IsExpandable};

use crate::fault::ToolFault;
use std::alloc::Allocator;
use ti_cap::Capability;
use ti_expand::{ExpandFault, Value, Vars, expand};

/// Returns the output of a capability with these parameters, if each variable starts as 0.
pub fn expansion_of<A: Allocator + Copy>(
    alloc: A,
    bytes: &[u8],
    parameters: &[Value<'_>; 9],
) -> Result<Vec<u8, A>, ToolFault>
    ensures accepted { IfOk result (λ v. IsFaultless bytes.now) }
    ensures output { IfOk result (λ v. IsExpansion bytes.now parameters.now v.items) }
    ensures refused { IfErr result
        (λ e. ((e ≡ fault.Memory) × IsExpandable bytes.now parameters.now)
        ⊎ IsUnexpanded bytes.now parameters.now e) }
{
    let capability = Capability::parse(bytes)?;
    let mut vars = Vars::new();
    match expand(alloc, &capability, parameters, &mut vars) {
        Ok(output) => Ok(output),
        Err(ExpandFault::TextTooLong { parameter }) => Err(ToolFault::TextTooLong(parameter)),
        Err(ExpandFault::Memory) => Err(ToolFault::Memory),
        // The stack and the output are its own, so that it returns neither of these.
        Err(ExpandFault::StackTooSmall { .. }) => Err(ToolFault::Memory),
        Err(ExpandFault::OutTooSmall { .. }) => Err(ToolFault::Memory),
    }
}
