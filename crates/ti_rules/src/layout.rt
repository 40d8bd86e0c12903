//! Whether the bytes of an entry are those that are written of it.

ghost use Rattle.std.specs.Prelude.{◌≡◌, ◌↔◌, IfOk, IsTrue};
ghost use Rattle.ti_rules.specs.Whole.{is_canonical};

use std::alloc::{AllocError, Allocator};
use ti_entry::{EncodeFault, Entry, encode};

/// Whether the fault is that memory was refused.
fn is_memory(fault: EncodeFault) -> bool
    ensures { IsTrue result ↔ (fault ≡ EncodeFault.Memory) }
{
    fault == EncodeFault::Memory
}

/// Whether the bytes are those that are written of the entry. There are none of one with a fault, such as an entry whose
/// texts are too long for it unless they share bytes.
pub(crate) fn is_canonical<A: Allocator + Copy>(
    alloc: A,
    bytes: &[u8],
    entry: &Entry<'_>,
) -> Result<bool, AllocError>
    ensures { IfOk result (λ is. is ≡ is_canonical bytes.now entry.now) }
{
    let draft = entry.draft(alloc)?;
    match encode(alloc, &draft) {
        Ok(written) => Ok(bytes == written.as_slice()),
        Err(fault) => {
            if is_memory(fault) {
                return Err(AllocError);
            }
            Ok(false)
        }
    }
}
