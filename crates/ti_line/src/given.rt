//! The parameters of `get`, from the words of a command line: whether a number without a mark is a text is for the
//! capability to say.

ghost use Rattle.std.specs.Prelude.{◌≡◌, ℕ, ◌<◌, ◌↔◌, length, IfOk};
ghost use Rattle.ti_line.specs.Requests.{texts_of};
ghost use Rattle.ti_line.specs.Params.{IsFirstBad, IsGiven, IsGivenBy, IsMarked};

use crate::params::{FromWord, WordFault, number, read_all};
use ti_expand::Value;

/// A parameter of `get` as its word gives it.
#[derive(Clone, Copy, Debug)]
pub enum Param<'a> {
    /// The value of a word with a mark.
    Value(Value<'a>),
    /// A decimal number without a mark: a text if the capability takes it as one.
    Either {
        /// The number.
        number: i32,
        /// The word.
        text: &'a [u8],
    },
    /// A word without a mark that is no number of 32 bits.
    Word(&'a [u8]),
}

/// The parameters that words give to `get`.
#[derive(Clone, Copy, Debug)]
pub struct Given<'a> {
    /// The nine; missing ones are the number 0.
    pub params: [Param<'a>; 9],
}

/// Reads a word without a mark.
fn unmarked(word: &str) -> Param<'_>
    requires { ¬ IsMarked word.now }
    ensures { IsGiven word.now result }
{
    let text = word.as_bytes();
    match number(word) {
        Some(number) => Param::Either { number, text },
        None => Param::Word(text),
    }
}

impl<'a> FromWord<'a> for Param<'a> {
    ghost use Rattle.ti_line.specs.Params.{IsGiven};

    ghost means = { IsGiven };

    #[tactic(auto, using(crate::proofs::AreParamsLemmas::no_mark))]
    fn from_word(word: &'a str) -> Option<Param<'a>> {
        match Value::from_word(word) {
            Some(value) => Some(Param::Value(value)),
            None => match word.strip_prefix("n:") {
                Some(_) => None,
                None => Some(unmarked(word)),
            },
        }
    }
}

/// The parameters that words give to `get`, none if there are no words: `n:` and a number, `s:` and a text, or a word
/// without a mark. Those that are missing are the number 0.
///
/// More than nine words are refused before anything else, and else the first word with `n:` and no number of 32 bits.
pub fn read_given<'a>(words: &[&'a str]) -> Result<Option<Given<'a>>, WordFault>
    ensures given { IfOk result (λ given. IsGivenBy (texts_of words.now) given) }
    ensures many { (result ≡ Err WordFault.TooMany) ↔ (9 < length words.now) }
    ensures bad { (which : ℕ) → result ≡ Err (WordFault.BadWord which)
        → IsFirstBad IsGiven which (texts_of words.now) }
{
    if words.is_empty() {
        return Ok(None);
    }
    match read_all(words, Param::Value(Value::Num(0))) {
        Ok(params) => Ok(Some(Given { params })),
        Err(fault) => Err(fault),
    }
}
