//! The values that are given to a text, one try after the other.

ghost use Rattle.std.specs.Prelude.{◌≡◌, ◌<◌, pos};
ghost use Rattle.std.specs.Int.{bit_at};
ghost use Rattle.ti_values.specs.Ranges.{number, parameters_of};

use ti_expand::Value;

/// The parameters of a text in one try. Those that are not named are 0.
#[derive(Clone, Copy, Debug, PartialEq, Eq)]
pub enum Tried {
    /// The first parameter.
    Number(u16),
    /// The first two parameters.
    Two(u16, u16),
    /// Nine parameters that are 0 or 1, as `sgr` has them: bit N - 1 is parameter N.
    Attributes(u16),
}

/// A bit of a set, as a number.
fn flag(set: u16, bit: u16) -> Value<'static>
    requires { bit < 9 }
    ensures { result ≡ number (bit_at set bit) }
{
    Value::Num((set >> bit & 1) as i32)
}

impl Tried {
    /// All nine parameters.
    pub fn parameters(self) -> [Value<'static>; 9]
        ensures all { result ≡ parameters_of self }
    {
        let zero = Value::Num(0);
        match self {
            Tried::Number(first) => {
                let first = Value::Num(i32::from(first));
                [first, zero, zero, zero, zero, zero, zero, zero, zero]
            }
            Tried::Two(first, second) => {
                let first = Value::Num(i32::from(first));
                let second = Value::Num(i32::from(second));
                [first, second, zero, zero, zero, zero, zero, zero, zero]
            }
            Tried::Attributes(set) => [
                flag(set, 0),
                flag(set, 1),
                flag(set, 2),
                flag(set, 3),
                flag(set, 4),
                flag(set, 5),
                flag(set, 6),
                flag(set, 7),
                flag(set, 8),
            ],
        }
    }
}
