//! The capability language in a text that is sent as it stands. There `%` is a byte like others.

ghost use Rattle.std.specs.Prelude.{◌≤◌, ◌↔◌, IsTrue, length};
ghost use Rattle.ti_lint.specs.Plain.{IsDoublePercent, IsMeantToExpand};

use ti_cap::Token;

/// Whether two percent signs stand at a place. In a capability they write one.
pub fn is_double_percent(text: &[u8], place: usize) -> bool
    requires { place ≤ length text.now }
    ensures exact { IsTrue result ↔ IsDoublePercent text.now place }
{
    text[place..].starts_with(b"%%")
}

/// Whether a token shows that its text was meant to be expanded: it pushes or stores a value, starts a conditional or prints.
pub fn is_meant_to_expand(token: Token) -> bool
    ensures exact { IsTrue result ↔ IsMeantToExpand token }
{
    match token {
        Token::Param(_)
        | Token::Constant(_)
        | Token::Store(_)
        | Token::Load(_)
        | Token::CondOpen
        | Token::Print(_) => true,
        _ => false,
    }
}
