//! Labels, which name a capability by its index: `#10` or `text#10`.

ghost use Rattle.std.specs.Prelude.{ℕ, IfSome, IfNone};
ghost use Rattle.ti_line.specs.TextLabels.{IsLabel, IsTextLabel};

/// The most digits of an index.
const MOST_DIGITS: usize = 5;

/// The index that `#` and one to five digits mean.
pub fn index_of_label(name: &str) -> Option<usize>
    ensures some { IfSome result (IsLabel name.now) }
    ensures none { IfNone result ((index : ℕ) → ¬ IsLabel name.now index) }
{
    match name.strip_prefix("#") {
        Some(digits) => {
            if digits.len() > MOST_DIGITS || digits.starts_with('+') {
                return None;
            }
            digits.parse::<usize>().ok()
        }
        None => None,
    }
}

/// The index of the text that a label means; the word `text` may stand before it.
pub(crate) fn text_of_label(name: &str) -> Option<usize>
    ensures some { IfSome result (IsTextLabel name.now) }
    ensures none { IfNone result ((index : ℕ) → ¬ IsTextLabel name.now index) }
{
    match name.strip_prefix("text") {
        Some(label) => index_of_label(label),
        None => index_of_label(name),
    }
}
