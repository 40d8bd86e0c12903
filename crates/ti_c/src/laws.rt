//! A law of the definitions, stated as the contract of an empty function.

ghost use Rattle.ti_c.specs.Laws.{WrittenIsRead};

/// What is written of arrays that [`ti_read`](crate::entry::ti_read) filled, it reads into the same arrays again.
pub fn written_is_read()
    ensures { WrittenIsRead }
{}
