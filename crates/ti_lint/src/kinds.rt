//! Which parameters of a capability are texts, by its name.

ghost use Rattle.std.specs.Prelude.{◌≡◌};
ghost use Rattle.ti_lint.specs.TextParameters.{text_parameters};

use crate::expected::TextParameters;

/// Which parameters of a capability are texts, by its name: those of function keys and labels by terminfo(5), a color and
/// the clipboard by user_caps(5), and a link by tmux(1). It takes constant time.
pub fn text_parameters(name: &[u8]) -> TextParameters
    ensures value { result ≡ text_parameters name.now }
{
    TextParameters {
        first: name == b"Cs".as_slice() || name == b"Ms".as_slice() || name == b"Hls".as_slice(),
        second: name == b"pfkey".as_slice()
            || name == b"pfloc".as_slice()
            || name == b"pfx".as_slice()
            || name == b"pfxl".as_slice()
            || name == b"pln".as_slice()
            || name == b"Ms".as_slice()
            || name == b"Hls".as_slice(),
        third: name == b"pfxl".as_slice(),
    }
}
