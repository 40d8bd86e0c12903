//! The lexer: the token at the front of some bytes and how many bytes spell it, or why there is none.
//!
//! It guarantees what the list lexer `token_read` says, which is proved to read each spelling again whatever follows it,
//! to read nothing else, and to name the fault of bytes at whose front no spelling stands.
//! Cost: linear in the bytes of the token or of the fault, and no memory.

ghost use Rattle.std.specs.Prelude.{◌≡◌};
ghost use Rattle.ti_cap.specs.inner.Lexer.{read_as, token_read, escape_read, parameter_read, variable_of, quoted_read, digits_read, lone_of};

use crate::language::{CapFault, Op, Token};
use crate::read_format::read_format;
use ti_base::GREATEST_CONSTANT;

/// The greatest constant between braces, in the width that one digit more takes.
const GREATEST: u64 = GREATEST_CONSTANT as u64;

/// The token at the front, and how many bytes spell it.
#[inline(always)]
pub fn read_token(bytes: &[u8]) -> Result<(Token, usize), CapFault>
    ensures { result ≡ token_read bytes.now }
{
    match bytes {
        [] => Err(CapFault::CutShort),
        [b'%', rest @ ..] => read_escape(rest),
        [byte, ..] => Ok((Token::Byte(*byte), 1)),
    }
}

/// The escape whose `%` stands before these bytes.
#[inline(always)]
fn read_escape(bytes: &[u8]) -> Result<(Token, usize), CapFault>
    ensures { result ≡ escape_read bytes.now }
{
    match bytes {
        [] => Err(CapFault::CutShort),
        [b'p', rest @ ..] => Ok((Token::Param(read_parameter(rest)?), 3)),
        [b'P', rest @ ..] => Ok((Token::Store(read_variable(rest)?), 3)),
        [b'g', rest @ ..] => Ok((Token::Load(read_variable(rest)?), 3)),
        [b'\'', rest @ ..] => Ok((Token::Constant(read_quoted(rest)?), 4)),
        [b'{', rest @ ..] => {
            let (value, long) = read_digits(rest)?;
            Ok((Token::Constant(value), long))
        }
        [letter, ..] => match lone(*letter) {
            Some(token) => Ok((token, 2)),
            None => {
                let (token, long) = read_format(bytes)?;
                Ok((token, long))
            }
        },
    }
}

/// The token that this one byte spells after a `%`.
#[inline(always)]
#[tactic(auto, unfolding(crate::specs::inner::Lexer::lone_of))]
fn lone(letter: u8) -> Option<Token>
    ensures { result ≡ lone_of letter }
{
    let token = match letter {
        b'%' => Token::Byte(b'%'),
        b'l' => Token::Length,
        b'i' => Token::Increment,
        b'c' => Token::Char,
        b'?' => Token::CondOpen,
        b't' => Token::CondThen,
        b'e' => Token::CondElse,
        b';' => Token::CondClose,
        b'+' => Token::Compute(Op::Add),
        b'-' => Token::Compute(Op::Sub),
        b'*' => Token::Compute(Op::Mul),
        b'/' => Token::Compute(Op::Div),
        b'm' => Token::Compute(Op::Rem),
        b'&' => Token::Compute(Op::BitAnd),
        b'|' => Token::Compute(Op::BitOr),
        b'^' => Token::Compute(Op::BitXor),
        b'=' => Token::Compute(Op::Equal),
        b'>' => Token::Compute(Op::Greater),
        b'<' => Token::Compute(Op::Less),
        b'A' => Token::Compute(Op::And),
        b'O' => Token::Compute(Op::Or),
        b'!' => Token::Compute(Op::Not),
        b'~' => Token::Compute(Op::BitNot),
        _ => return None,
    };
    Some(token)
}

/// After `%p`: a digit from 1 to 9.
pub fn read_parameter(bytes: &[u8]) -> Result<u8, CapFault>
    ensures { read_as (λ number. (Token.Param number, 3)) result ≡ parameter_read bytes.now }
{
    match bytes {
        [] => Err(CapFault::CutShort),
        [digit @ b'1'..=b'9', ..] => Ok(*digit - b'0'),
        _ => Err(CapFault::BadParameter),
    }
}

/// After `%P` or `%g`: the variable's letter.
#[inline(always)]
pub fn read_variable(bytes: &[u8]) -> Result<u8, CapFault>
    ensures { result ≡ variable_of bytes.now }
{
    match bytes {
        [] => Err(CapFault::CutShort),
        [letter @ (b'A'..=b'Z' | b'a'..=b'z'), ..] => Ok(*letter),
        _ => Err(CapFault::BadVariable),
    }
}

/// After `%'`: any byte and an apostrophe.
#[inline(always)]
pub fn read_quoted(bytes: &[u8]) -> Result<i32, CapFault>
    ensures { read_as (λ number. (Token.Constant number, 4)) result ≡ quoted_read bytes.now }
{
    match bytes {
        [] | [_] => Err(CapFault::CutShort),
        [byte, b'\'', ..] => Ok(i32::from(*byte)),
        _ => Err(CapFault::BadConstant),
    }
}

/// After `%{`: at least one digit, and a brace. The number, and how many bytes spell it with the `%{` before them.
pub fn read_digits(bytes: &[u8]) -> Result<(i32, usize), CapFault>
    ensures { read_as (λ (number, long). (Token.Constant number, long)) result
        ≡ digits_read 0 0 bytes.now }
{
    let mut value: u64 = 0;
    for (i, byte) in bytes.iter().enumerate() {
        if *byte >= b'0' && *byte <= b'9' {
            let longer = 10 * value + u64::from(*byte - b'0');
            if longer > GREATEST {
                return Err(CapFault::BadConstant);
            }
            value = longer;
        } else if *byte == b'}' && i > 0 {
            return Ok((value as i32, i + 3));
        } else {
            return Err(CapFault::BadConstant);
        }
    }
    Err(CapFault::CutShort)
}
