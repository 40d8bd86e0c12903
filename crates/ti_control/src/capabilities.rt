//! Which strings of an entry are looked at as they are sent.

ghost use Rattle.std.specs.Prelude.{◌≡◌, map};
ghost use Rattle.ti_control.specs.Capabilities.{is_key, is_one_of, is_sent, unsent_names};
ghost use Rattle.ti_control.specs.Parts.{texts_of};

/// Strings that the terminal sends, lists, labels, names of files, a program, and what displays or pads.
static UNSENT: [&str; 32] = [
    "u6", "u8", "xm", "PS", "PE", "acsc", "box1", "XC", "C0", "RGB", "fln", "porder", "subcs",
    "supcs", "docr", "pctrm", "lf0", "lf1", "lf2", "lf3", "lf4", "lf5", "lf6", "lf7", "lf8", "lf9",
    "lf10", "if", "rf", "iprog", "dispc", "pad",
];

/// The names of capabilities that are not sent.
fn unsent_names() -> &'static [&'static str]
    ensures { texts_of result.now ≡ unsent_names }
{
    &UNSENT
}

/// Whether a name is in a list.
fn is_one_of(names: &[&str], name: &[u8]) -> bool
    ensures { result ≡ is_one_of (texts_of names.now) name.now }
{
    'names: for known in names {
        if known.as_bytes() == name {
            return true;
        }
    }
    false
}

/// Whether a name is that of what a key sends.
fn is_key(name: &[u8]) -> bool
    ensures { result ≡ is_key name.now }
{
    match name {
        [first, ..] => *first == b'k',
        [] => false,
    }
}

/// Whether the text of the capability with a name is sent to the terminal: not what a key sends, a pattern of an answer, a list, a label,
/// the name of a file, or a program, and neither `dispc` nor `pad`.
pub fn is_sent(name: &[u8]) -> bool
    ensures exact { result ≡ is_sent name.now }
{
    !(is_key(name) || is_one_of(unsent_names(), name))
}
