//! Parts that one text has, and another lacks.

ghost use Rattle.std.specs.Prelude.{◌≡◌};
ghost use Rattle.ti_values.specs.Renditions.{has as the_has, lacks as the_lacks, lacks_new as the_lacks_new};
ghost use Rattle.ti_values.specs.inner.Rows.{slices_of};

/// Whether a part is among some.
fn has(parts: &[&[u8]], part: &[u8]) -> bool
    ensures { result ≡ the_has (slices_of parts.now) part.now }
{
    'parts: for other in parts {
        if *other == part {
            return true;
        }
    }
    false
}

/// Whether some of theirs is not among mine.
pub fn lacks(mine: &[&[u8]], theirs: &[&[u8]]) -> bool
    ensures { result ≡ the_lacks (slices_of mine.now) (slices_of theirs.now) }
{
    'parts: for part in theirs {
        if !has(mine, part) {
            return true;
        }
    }
    false
}

/// Whether some of theirs is neither among the old ones nor among mine.
pub fn lacks_new(old: &[&[u8]], mine: &[&[u8]], theirs: &[&[u8]]) -> bool
    ensures { result
        ≡ the_lacks_new (slices_of old.now) (slices_of mine.now) (slices_of theirs.now) }
{
    'parts: for part in theirs {
        if !has(old, part) && !has(mine, part) {
            return true;
        }
    }
    false
}
