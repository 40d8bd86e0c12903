//! The parameters of a capability, from the words of a command line.

ghost use Rattle.std.specs.Prelude.{◌≡◌, ℕ, ℤ, ◌<◌, ◌↔◌, length, IfSome, IfNone, IfOk};
ghost use Rattle.ti_expand.specs.declared.values.Value.{Value};
ghost use Rattle.ti_line.specs.Requests.{texts_of};
ghost use Rattle.ti_line.specs.Params.{AreNine, AreParams, IsFirstBad, IsNumber, IsParam};

use thiserror::Error;
use ti_expand::Value;

/// How many parameters a capability has.
pub(crate) const COUNT: usize = 9;

/// Why words are no parameters.
#[derive(Clone, Copy, Debug, PartialEq, Eq, Error)]
pub enum WordFault {
    /// There are more than nine words.
    #[error("TooMany")]
    TooMany,
    /// A word, counted from 1, has no value; each word before it has.
    #[error("BadWord {which}")]
    BadWord {
        /// Which word it is.
        which: usize,
    },
}

/// The number that an optional `-` and decimal digits mean, if it has 32 bits.
pub(crate) fn number(text: &str) -> Option<i32>
    ensures some { IfSome result (λ z. IsNumber text.now z) }
    ensures none { IfNone result ((z : ℤ) → ¬ IsNumber text.now z) }
{
    if text.starts_with('+') {
        return None;
    }
    text.parse::<i32>().ok()
}

/// A value that a word may mean.
pub(crate) trait FromWord<'a>: Copy {
    ghost use Rattle.std.specs.Prelude.{ℕ, List, IfSome, IfNone};

    ghost means: { List ℕ → Self → Type 0 };

    /// The value of a word, if it means one.
    fn from_word(word: &'a str) -> Option<Self>
        ensures some { IfSome result (λ value. means word.now value) }
        ensures none { IfNone result ((value : Self) → ¬ means word.now value) };
}

impl<'a> FromWord<'a> for Value<'a> {
    ghost use Rattle.ti_line.specs.Params.{IsParam};

    ghost means = { IsParam };

    fn from_word(word: &'a str) -> Option<Value<'a>> {
        if let Some(text) = word.strip_prefix("s:") {
            return Some(Value::Text(text.as_bytes()));
        }
        match word.strip_prefix("n:") {
            Some(text) => match number(text) {
                Some(number) => Some(Value::Num(number)),
                None => None,
            },
            None => None,
        }
    }
}

/// The nine values that words mean, of which those without a word are `missing`.
pub(crate) fn read_all<'a, V: FromWord<'a>>(
    words: &[&'a str],
    missing: V,
) -> Result<[V; COUNT], WordFault>
    ensures values { IfOk result (λ values. AreNine V.means missing (texts_of words.now) values) }
    ensures many { (result ≡ Err WordFault.TooMany) ↔ (9 < length words.now) }
    ensures bad { (which : ℕ) → result ≡ Err (WordFault.BadWord which)
        → IsFirstBad V.means which (texts_of words.now) }
{
    if words.len() > COUNT {
        return Err(WordFault::TooMany);
    }
    let mut values = [missing; COUNT];
    for (i, word) in words.iter().enumerate() {
        match V::from_word(word) {
            Some(value) => values[i] = value,
            None => return Err(WordFault::BadWord { which: i + 1 }),
        }
    }
    Ok(values)
}

/// The parameters that words mean: `n:` and a decimal number of 32 bits with a `-` before it or none, or `s:` and a
/// text. Those that are missing are the number 0.
///
/// More than nine words are refused before anything else, and else the first word that has no value.
pub fn read_params<'a>(words: &[&'a str]) -> Result<[Value<'a>; 9], WordFault>
    ensures values { IfOk result (λ values. AreParams (texts_of words.now) values) }
    ensures many { (result ≡ Err WordFault.TooMany) ↔ (9 < length words.now) }
    ensures bad { (which : ℕ) → result ≡ Err (WordFault.BadWord which)
        → IsFirstBad IsParam which (texts_of words.now) }
{
    read_all(words, Value::Num(0))
}
