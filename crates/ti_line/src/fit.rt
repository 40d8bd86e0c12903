//! Whether parameters fit the capability that terminfo(5), or another manual, names.

ghost use Rattle.std.specs.Prelude.{◌≡◌, MatchResult, length, List, ℕ};
ghost use Rattle.ti_line.specs.Fits.{Fit, FitsIn, IsMisfit, IsTaking, first_word as the_first_word, has_text_parameters as the_has_text_parameters, is_word as the_is_word, taken_at as the_taken_at, taken_by_name as the_taken_by_name, taken_by_own as the_taken_by_own, takes_texts as the_takes_texts};
ghost use Rattle.ti_line.specs.declared.fit.Takes.TheVariants.{Counted};

use crate::given::Param;
use crate::label::text_of_label;
use crate::no_request::LineFault;
use ti_lint::{extended_class_of, text_parameters};
use ti_names::{Class, NameTable, class_of, find_short_or_long};
use ti_words::Kind;

/// What the parameters of a capability can be, by its name.
#[derive(Clone, Copy)]
pub enum Takes {
    /// As many as terminfo(5) gives a text.
    Counted {
        /// The index of the text.
        text: usize,
        /// How many they are.
        count: u8,
    },
    /// Numbers alone.
    Numbers,
    /// Nothing is known of them.
    Anything,
}

/// What a text of terminfo(5) takes.
fn taken_at(text: usize) -> Takes
    ensures { result ≡ the_taken_at text }
{
    match class_of(text) {
        Some(Class::Parameterized(count)) => Takes::Counted { text, count },
        Some(_) => Takes::Numbers,
        None => Takes::Anything,
    }
}

/// Whether a text of an entry's own has a parameter that is a text.
fn has_text_parameters(name: &[u8]) -> bool
    ensures { result ≡ the_has_text_parameters name.now }
{
    let texts = text_parameters(name);
    texts.first || texts.second || texts.third
}

/// What a text of an entry's own takes, of which user_caps(5), tmux(1) or screen(1) says what it is.
fn taken_by_own(name: &[u8]) -> Takes
    ensures { result ≡ the_taken_by_own name.now }
{
    match extended_class_of(name) {
        Some(_) if !has_text_parameters(name) => Takes::Numbers,
        _ => Takes::Anything,
    }
}

/// What the capability with a name takes.
fn taken_by_name(name: &[u8]) -> Takes
    ensures { result ≡ the_taken_by_name name.now }
{
    match find_short_or_long(name) {
        Some((Kind::Text, text)) => taken_at(text),
        Some(_) => Takes::Numbers,
        None => taken_by_own(name),
    }
}

/// What the capability takes that a name or a label means.
fn taken(name: &str) -> Takes
    ensures { IsTaking name.now result }
{
    match text_of_label(name) {
        Some(text) => taken_at(text),
        None => taken_by_name(name.as_bytes()),
    }
}

/// Whether a text takes texts after its first parameter: a function key, or its label.
fn takes_texts(text: usize) -> bool
    ensures { result ≡ the_takes_texts text }
{
    match NameTable::All.text_name(text) {
        Some(name) => matches!(name, "pfkey" | "pfloc" | "pfx" | "pln" | "pfxl"),
        None => false,
    }
}

/// Whether a parameter is a word without a mark that is no number.
fn is_word(param: Param<'_>) -> bool
    ensures { result ≡ the_is_word param.entry }
{
    matches!(param, Param::Word(_))
}

/// The place of the first word without a mark that is no number, counted from 1.
fn first_word(params: &[Param<'_>]) -> Option<usize>
    ensures { result ≡ the_first_word params.now }
{
    for (i, param) in params.iter().enumerate() {
        if is_word(*param) {
            return Some(i + 1);
        }
    }
    None
}

/// That so many words, of which these are the parameters, fit a text that takes so many.
fn fit_count(text: usize, count: u8, words: usize, params: &[Param<'_>]) -> Result<(), LineFault>
    requires { length params.now ≡ 9 }
    ensures { MatchResult result (λ u. FitsIn (Counted text count) words params.now)
        (λ why. (name : List ℕ) → IsTaking name (Counted text count) → IsMisfit name words params.now why) }
{
    if words > usize::from(count) {
        let is_named = params.get(usize::from(count)).copied().is_some_and(is_word);
        return Err(LineFault::Surplus {
            text,
            takes: count,
            given: words,
            is_named,
        });
    }
    let numbers = if takes_texts(text) {
        &params[..1]
    } else {
        params
    };
    match first_word(numbers) {
        Some(which) => Err(LineFault::NoNumber { text, which }),
        None => Ok(()),
    }
}

/// That so many words, of which these are the parameters, fit the capability with a name.
pub(crate) fn fit(name: &str, words: usize, params: &[Param<'_>]) -> Result<(), LineFault>
    requires { length params.now ≡ 9 }
    ensures { MatchResult result (λ u. Fit name.now words params.now)
        (IsMisfit name.now words params.now) }
{
    match taken(name) {
        Takes::Counted { text, count } => fit_count(text, count, words, params),
        Takes::Numbers => match first_word(params) {
            Some(which) => Err(LineFault::OnlyNumbers { which }),
            None => Ok(()),
        },
        Takes::Anything => Ok(()),
    }
}
