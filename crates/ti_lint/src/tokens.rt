//! The tokens of a capability as a list.

ghost use Rattle.std.specs.Prelude.{IfOk};
ghost use Rattle.ti_cap.specs.Spelling.{Written};

use std::alloc::{AllocError, Allocator};
use ti_cap::{Capability, Token};

/// The tokens of a capability, in order.
pub fn tokens_of<A: Allocator>(
    alloc: A,
    capability: &Capability<'_>,
) -> Result<Vec<Token, A>, AllocError>
    ensures { IfOk result (λ list. Written list.items capability.now) }
{
    let mut tape = capability.tape();
    let mut tokens = Vec::new(alloc);
    while let Some(token) = tape.token() {
        tokens.push(token)?;
    }
    Ok(tokens)
}
