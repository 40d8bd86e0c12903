//! Findings on a conditional, by the tokens of its parts.
//!
//! A test is looked at alone, so that the cost is linear, but for tests that are repeated: the test of an arm is compared with
//! those of all arms before it. So the cost grows with the arms of a conditional times the tokens of it, which is at most
//! 33 million short steps in a capability of the greatest length.

ghost use Rattle.std.specs.Prelude.{◌≡◌, ◌↔◌, ◌<◌, ◌≤◌, ◌++◌, ◌∷◌, List, IsTrue, Some, length, IfSome, IfNone};
ghost use Rattle.ti_base.specs.Limits.{most_capability_bytes};
ghost use Rattle.ti_lint.specs.Conditionals.{EndsWithTest, HasEarlier, HasNoEffect, IsConstantTest, IsFoundAmong, IsRepeatedTest, computed, is_constant, only_computes, starts_test, values_left};
ghost use Rattle.ti_cap.specs.declared.language.Token.{Token};
ghost use Rattle.ti_lint.specs.declared.token_finding.TokenFinding.{TokenFinding};
ghost use Rattle.ti_lint.specs.inner.Conditionals.{ConstantsFrom, LeavesValue, ends_at, height_of, idle_after, may_end, test_length};

use crate::facts::found_if;
use crate::outlook::{pops, pushes};
use crate::token_finding::TokenFinding;
use ti_cap::Token;

/// Whether a token only pushes a value, or makes one of those that it pops.
fn only_computes(token: Token) -> bool
    ensures { result ≡ only_computes token }
{
    match token {
        Token::Param(_) | Token::Constant(_) | Token::Load(_) | Token::Length | Token::Compute(_) =>
            true,
        _ => false,
    }
}

/// Whether a token is a constant or an operation on numbers.
fn is_constant(token: Token) -> bool
    ensures { result ≡ is_constant token }
{
    match token {
        Token::Constant(_) | Token::Compute(_) => true,
        _ => false,
    }
}

/// Whether a test follows a token.
fn starts_test(token: Token) -> bool
    ensures { result ≡ starts_test token }
{
    match token {
        Token::CondOpen | Token::CondElse => true,
        _ => false,
    }
}

/// The height after a token that only computes, if it pops no more values than there are.
fn computed(height: usize, token: Token) -> Option<usize>
    requires { height ≤ most_capability_bytes }
    ensures { result ≡ computed height token }
{
    if only_computes(token) && pops(token) <= height {
        return Some(height - pops(token) + pushes(token));
    }
    None
}

/// How many values a test leaves, if it only computes.
fn values_left(test: &[Token]) -> Option<usize>
    requires { length test.now ≤ most_capability_bytes }
    ensures { result ≡ values_left (Some 0) test.now }
{
    let mut height = 0;
    for token in test {
        height = computed(height, *token)?;
    }
    Some(height)
}

/// Whether a test is left with a value for its `%t`.
fn leaves_value(test: &[Token]) -> bool
    requires { length test.now ≤ most_capability_bytes }
    ensures { IsTrue result ↔ LeavesValue test.now }
{
    match values_left(test) {
        Some(count) => count > 0,
        None => false,
    }
}

/// The place from which on tokens are constants and operations alone.
fn constants_start(before: &[Token]) -> usize
    ensures { ConstantsFrom before.now result }
{
    let mut start = before.len();
    'back: while start > 0 {
        if !is_constant(before[start - 1]) {
            break 'back;
        }
        start -= 1;
    }
    start
}

/// The test of constants and operations alone that tokens end with, if they end with one.
pub fn constant_test(before: &[Token]) -> Option<&[Token]>
    requires few { length before.now ≤ most_capability_bytes }
    ensures test { IfSome result
        (λ test. (found : IsConstantTest before.now) × (found.test ≡ test.now)) }
    ensures none { IfNone result (¬ IsConstantTest before.now) }
{
    let start = constants_start(before);
    if start > 0 && starts_test(before[start - 1]) && leaves_value(&before[start..]) {
        return Some(&before[start..]);
    }
    None
}

/// Whether tokens end with a test of constants and operations alone.
fn ends_with_constants(before: &[Token]) -> bool
    requires { length before.now ≤ most_capability_bytes }
    ensures { IsTrue result ↔ IsConstantTest before.now }
{
    constant_test(before).is_some()
}

/// How many tokens a test has that only computes and leaves a value for its `%t`.
fn test_length(after: &[Token]) -> Option<usize>
    requires { length after.now ≤ most_capability_bytes }
    ensures { result ≡ test_length (Some 0) 0 after.now }
{
    let mut height = 0;
    for (count, token) in after.iter().enumerate() {
        if let Token::CondThen = token {
            return if height > 0 { Some(count) } else { None };
        }
        height = computed(height, *token)?;
    }
    None
}

/// Whether tokens end with a test.
fn ends_with_test(before: &[Token], test: &[Token]) -> bool
    requires { LeavesValue test.now }
    ensures { IsTrue result ↔ EndsWithTest before.now test.now }
{
    if before.len() <= test.len() {
        return false;
    }
    let start = before.len() - test.len();
    starts_test(before[start - 1]) && &before[start..] == test
}

/// Whether an earlier arm has a test, of the conditional that is open after these tokens.
fn has_earlier(before: &[Token], test: &[Token]) -> bool
    requires few { length before.now ≤ most_capability_bytes }
    requires leaves { LeavesValue test.now }
    ensures { IsTrue result ↔ HasEarlier before.now test.now }
{
    let mut place = before.len();
    let mut closed: usize = 0;
    'back: while place > 0 {
        place -= 1;
        match before[place] {
            Token::CondClose => closed += 1,
            Token::CondOpen => {
                if closed == 0 {
                    return false;
                }
                closed -= 1;
            }
            Token::CondThen => {
                if closed == 0 && ends_with_test(&before[..place], test) {
                    return true;
                }
            }
            _ => {}
        }
    }
    false
}

/// Whether the test after a `%e` is that of an earlier arm of its conditional.
fn is_repeated(before: &[Token], after: &[Token]) -> bool
    requires few { length before.now ≤ most_capability_bytes }
    requires few_after { length after.now ≤ most_capability_bytes }
    ensures { IsTrue result ↔ IsRepeatedTest before.now after.now }
{
    match test_length(after) {
        Some(count) => has_earlier(before, &after[..count]),
        None => false,
    }
}

/// A place in a conditional that has changed nothing so far.
#[derive(Clone, Copy)]
pub enum Idle {
    /// In a test that has pushed so many values.
    Test(usize),
    /// After a `%t`.
    Body,
    /// After a `%e`: the otherwise part, or a test.
    Turn,
}

impl Idle {
    /// Whether the conditional ends with a token.
    fn ends_at(self, token: Token) -> bool
        ensures { result ≡ ends_at self token }
    {
        match token {
            Token::CondClose => self.may_end(),
            _ => false,
        }
    }

    /// Whether the conditional may end here.
    fn may_end(self) -> bool
        ensures { result ≡ may_end self }
    {
        match self {
            Idle::Test(_) => false,
            Idle::Body | Idle::Turn => true,
        }
    }

    /// The place after a token that changes nothing.
    fn after(self, token: Token) -> Option<Idle>
        requires { height_of self ≤ most_capability_bytes }
        ensures { result ≡ idle_after self token }
    {
        match (self, token) {
            (Idle::Test(height), Token::CondThen) => if height == 1 {
                Some(Idle::Body)
            } else {
                None
            },
            (Idle::Body, Token::CondElse) => Some(Idle::Turn),
            (Idle::Body, _) => None,
            (Idle::Test(height), token) => Some(Idle::Test(computed(height, token)?)),
            (Idle::Turn, token) => Some(Idle::Test(computed(0, token)?)),
        }
    }
}

/// Whether the conditional that these tokens go on after its `%?` changes nothing.
fn has_no_effect(after: &[Token]) -> bool
    requires { length after.now ≤ most_capability_bytes }
    ensures { IsTrue result ↔ HasNoEffect after.now }
{
    let mut part = Idle::Test(0);
    for token in after {
        if part.ends_at(*token) {
            return true;
        }
        let Some(next) = part.after(*token) else {
            return false;
        };
        part = next;
    }
    part.may_end()
}

/// Returns the finding on the token at a place by the conditional that it is a part of.
pub fn judge_conditional(tokens: &[Token], place: usize) -> Option<TokenFinding>
    requires within { place < length tokens.now }
    requires few { length tokens.now ≤ most_capability_bytes }
    ensures { (before after : List Token) (token : Token) (finding : TokenFinding)
        → tokens.now ≡ before ++ token ∷ after → length before ≡ place
        → (result ≡ Some finding) ↔ IsFoundAmong before token after finding }
{
    let before = &tokens[..place];
    let after = &tokens[place + 1..];
    match tokens[place] {
        Token::CondOpen => found_if(has_no_effect(after), TokenFinding::NoEffect),
        Token::CondThen => found_if(ends_with_constants(before), TokenFinding::ConstantCondition),
        Token::CondElse => found_if(is_repeated(before, after), TokenFinding::RepeatedCondition),
        _ => None,
    }
}
