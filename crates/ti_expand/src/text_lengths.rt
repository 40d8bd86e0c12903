//! The texts among the parameters.

ghost use Rattle.std.specs.Prelude.{◌≡◌, IfOk, IfErr};
ghost use Rattle.std.specs.Bool.{OnFalse};
ghost use Rattle.ti_expand.specs.Sound.{IsSoundValue};
ghost use Rattle.ti_expand.specs.Expands.{text_len, AreShort, IsTooLongFault};

use crate::fault::ExpandFault;
use crate::values::Value;
use ti_base::MOST_TEXT_BYTES;

/// The bytes of a text, none of a number.
fn text_len(value: &Value<'_>) -> usize
    ensures len { result ≡ text_len value.now }
    ensures sound { IsSoundValue result value.now }
{
    match *value {
        Value::Num(_number) => 0,
        Value::Text(text) => text.len(),
    }
}

/// Whether it is a text.
#[inline(always)]
fn is_text(value: &Value<'_>) -> bool
    ensures len { OnFalse result (text_len value.now ≡ 0) }
    ensures sound { OnFalse result (IsSoundValue 0 value.now) }
{
    match *value {
        Value::Num(_number) => false,
        Value::Text(_text) => true,
    }
}

/// Whether a parameter is a text. Each is looked at, which takes less than to stop at the first.
#[inline(always)]
pub(crate) fn has_text(parameters: &[Value<'_>; 9]) -> bool
    ensures { OnFalse result (AreShort parameters.now 0) }
{
    let mut found = false;
    for value in parameters {
        found |= is_text(value);
    }
    found
}

/// The length of the longest text among the parameters, 0 without texts, for which `bound` of a capability gives the bytes
/// that an expansion needs.
///
/// # Errors
/// `TextTooLong` with the first parameter, counted from 1, whose text has more bytes than [`MOST_TEXT_BYTES`].
#[inline(always)]
pub fn longest_text(parameters: &[Value<'_>; 9]) -> Result<u16, ExpandFault>
    ensures short { IfOk result (AreShort parameters.now) }
    ensures too_long { IfErr result (IsTooLongFault parameters.now) }
{
    if has_text(parameters) {
        longest_of(parameters)
    } else {
        Ok(0)
    }
}

/// The same, by a look at the length of each text.
#[inline(never)]
fn longest_of(parameters: &[Value<'_>; 9]) -> Result<u16, ExpandFault>
    ensures short { IfOk result (AreShort parameters.now) }
    ensures too_long { IfErr result (IsTooLongFault parameters.now) }
{
    let mut longest = 0;
    for (i, value) in parameters.iter().enumerate() {
        let len = text_len(value);
        if len > MOST_TEXT_BYTES {
            let parameter = i as u8 + 1;
            return Err(ExpandFault::TextTooLong { parameter });
        }
        longest = len.max(longest);
    }
    Ok(longest as u16)
}
