//! `cap`: one capability, expanded.
//!
//! Its memory grows once, and once more if the output is written in a form. Padding marks stay as they are.

ghost use Rattle.std.specs.Prelude.{Ok, MatchResult};
ghost use Rattle.ti_tool.specs.Results.{IsCappedAs};
ghost use Rattle.ti_tool.specs.Calls.{FailsAsDue};

use crate::expansion::expansion_of;
use crate::fault::ToolFault;
use crate::result::output_bytes;
use std::alloc::Allocator;
use ti_expand::Value;
use ti_line::Output;

/// The result of `cap` for an input.
pub fn cap_result<A: Allocator + Copy>(
    alloc: A,
    input: &[u8],
    parameters: &[Value<'_>; 9],
    output: Output,
) -> Result<Vec<u8, A>, ToolFault>
    ensures { MatchResult result
        (λ v. IsCappedAs parameters.now output input.now (Ok v.items))
        (FailsAsDue (IsCappedAs parameters.now output input.now)) }
{
    let plain = expansion_of(alloc, input, parameters)?;
    output_bytes(alloc, plain, output)
}
