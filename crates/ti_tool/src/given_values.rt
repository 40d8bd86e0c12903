//! The parameters of `get` as values, by what the capability takes.

ghost use Rattle.std.specs.Prelude.{◌↔◌, ℕ, List, IsTrue};
ghost use Rattle.ti_cap.specs.Sources.{IsTakenAsText};
ghost use Rattle.ti_tool.specs.Got.{AreTaken, IsTaken};

use ti_cap::Capability;
use ti_expand::Value;
use ti_line::Param;

/// A parameter as a value, by whether the capability takes it as a text.
fn value_of(param: Param<'_>, is_text: bool) -> Value<'_>
    ensures { (capability : List ℕ) (which : ℕ) → (IsTrue is_text ↔ IsTakenAsText capability which)
        → IsTaken capability which param.entry result }
{
    match param {
        Param::Value(value) => value,
        Param::Word(text) => Value::Text(text),
        Param::Either { number, text } => {
            if is_text {
                Value::Text(text)
            } else {
                Value::Num(number)
            }
        }
    }
}

/// The values of the parameters: a number without a mark is a text if the capability takes this parameter as one.
pub fn values_for<'a>(capability: &Capability<'_>, params: [Param<'a>; 9]) -> [Value<'a>; 9]
    ensures { AreTaken capability.now params.entry result }
{
    let texts = capability.parameters().texts;
    let mut values = [Value::Num(0); 9];
    for (i, param) in params.iter().enumerate() {
        values[i] = value_of(*param, texts.contains(i as u8 + 1));
    }
    values
}
