//! The two calls that expand: into slices of exactly the promised size, and as a vector.

use std::alloc::Global;
use ti_base::MOST_VALUES;
use ti_cap::Capability;
use ti_expand::{ExpandFault, Value, Vars, expand, expand_into};
use ti_fixtures::{Unfound, only_if};

/// The capability that the bytes write.
pub fn capability_of<'a>(bytes: &'a [u8]) -> Result<Capability<'a>, Unfound> {
    Ok(Capability::parse(bytes).ok().ok_or("parse")?)
}

/// Writes what a capability does into a slice of exactly its bound.
pub fn write_in_slices(
    out: &mut Vec<u8>,
    bytes: &[u8],
    parameters: &[Value<'_>; 9],
    longest: u16,
    vars: &mut Vars,
) -> Result<(), Unfound> {
    let capability = capability_of(bytes)?;
    let mut stack = [Value::Num(0); MOST_VALUES];
    let depth = capability.depth();
    out.truncate(0);
    out.resize(capability.bound(longest) as usize, 0)?;
    let room = out.as_mut_slice();
    let run = expand_into(
        capability.tape(),
        parameters,
        vars,
        &mut stack[..depth],
        room,
    )?;
    out.truncate(run.written);
    Ok(())
}

/// Returns the output of a capability in a vector of its own.
pub fn into_vector(
    alloc: Global,
    bytes: &[u8],
    parameters: &[Value<'_>; 9],
    vars: &mut Vars,
) -> Result<Vec<u8>, Unfound> {
    Ok(expand(alloc, &capability_of(bytes)?, parameters, vars)?)
}

/// Writes what a capability does in both ways, which has to be the same.
pub fn write_in_both_ways(
    out: &mut Vec<u8>,
    bytes: &[u8],
    parameters: &[Value<'_>; 9],
    longest: u16,
) -> Result<(), Unfound> {
    write_in_slices(out, bytes, parameters, longest, &mut Vars::new())?;
    let other = into_vector(*out.allocator(), bytes, parameters, &mut Vars::new())?;
    only_if(out.as_slice() == other.as_slice())
}

/// Whether a capability writes this in both ways.
pub fn is_written(
    alloc: Global,
    bytes: &[u8],
    parameters: &[Value<'_>; 9],
    longest: u16,
    output: &[u8],
) -> bool {
    let mut out = Vec::new(alloc);
    write_in_both_ways(&mut out, bytes, parameters, longest).is_ok() && out.as_slice() == output
}

/// Why `expand_into` writes nothing into `out`, with room for so many values.
pub fn fault_of_slices<'a>(
    bytes: &'a [u8],
    parameters: &[Value<'a>; 9],
    vars: &mut Vars,
    stack: &mut [Value<'a>],
    out: &mut [u8],
) -> Option<ExpandFault> {
    match Capability::parse(bytes) {
        Ok(capability) => expand_into(capability.tape(), parameters, vars, stack, out).err(),
        Err(_) => None,
    }
}

/// Why `expand` writes nothing.
pub fn fault_of_vector(
    alloc: Global,
    bytes: &[u8],
    parameters: &[Value<'_>; 9],
    vars: &mut Vars,
) -> Option<ExpandFault> {
    match Capability::parse(bytes) {
        Ok(capability) => expand(alloc, &capability, parameters, vars).err(),
        Err(_) => None,
    }
}
