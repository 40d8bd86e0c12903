//! How a text of an entry is used: all that its judgement goes by but its bytes.

ghost use Rattle.std.specs.Prelude.{◌≡◌};
ghost use Rattle.ti_rules.specs.Texts.{may_leave_out, usage_of};

use ti_lint::{TextParameters, Variables, text_parameters};
use ti_names::Class;

/// How a text is used.
#[derive(Clone, Copy, PartialEq, Eq)]
pub struct Usage {
    /// Its class.
    pub class: Class,
    /// Which of its parameters are texts.
    pub texts: TextParameters,
    /// The variables into which some text of the entry stores.
    pub stored: Variables,
    /// Whether it may leave out parameters.
    pub may_leave_out: bool,
    /// Whether its parameter is the column of a status line.
    pub has_column: bool,
    /// Whether a list has pairs.
    pub has_pairs: bool,
}

/// Whether a text may leave out parameters, by its name: attributes that a terminal lacks, and motions by one place.
fn may_leave_out(name: &[u8]) -> bool
    ensures { result ≡ may_leave_out name.now }
{
    name == b"sgr".as_slice()
        || name == b"sgr1".as_slice()
        || name == b"mhpa".as_slice()
        || name == b"mcub".as_slice()
        || name == b"mcud".as_slice()
        || name == b"mcuf".as_slice()
        || name == b"mcuu".as_slice()
}

impl Usage {
    /// How a text with a name is used.
    pub fn of(stored: Variables, name: &[u8], class: Class) -> Self
        ensures { result ≡ usage_of stored name.now class }
    {
        Usage {
            class,
            texts: text_parameters(name),
            stored,
            may_leave_out: may_leave_out(name),
            has_column: name == b"tsl".as_slice(),
            has_pairs: name == b"acsc".as_slice(),
        }
    }
}
