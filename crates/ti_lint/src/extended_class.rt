//! The classes of extended texts, by their names (user_caps(5), screen(1), tmux(1) and Vim).

ghost use Rattle.std.specs.Prelude.{◌≡◌, map};
ghost use Rattle.ti_lint.specs.ExtendedClasses.{is_key, extended_class, extended_classes};
ghost use Rattle.ti_lint.specs.inner.Rows.{row_of};

use ti_names::Class;
use ti_names::Class::{Input, Key, Label, List, Parameterized, Plain};

/// The names that are known, each with what its text is: those of user_caps(5), and those that screen(1), tmux(1) and Vim use. What
/// a terminal sends before and after a paste, `PS` and `PE`, is read as keys are. Vim also sends `8f`, `8b` and `8u`, whose formats
/// are those of printf(3).
static EXTENDED_CLASSES: [(&str, Class); 84] = [
    ("AB", Parameterized(1)),
    ("AF", Parameterized(1)),
    ("AU", Parameterized(1)),
    ("BD", Plain),
    ("BE", Plain),
    ("C0", List),
    ("CE", Plain),
    ("CS", Plain),
    ("Ce", Plain),
    ("Clmg", Plain),
    ("Cmg", Parameterized(2)),
    ("Cr", Plain),
    ("Cs", Parameterized(1)),
    ("Ds", Plain),
    ("Dsbp", Plain),
    ("Dseks", Plain),
    ("Dsfcs", Plain),
    ("Dsmg", Plain),
    ("E0", Plain),
    ("E3", Plain),
    ("EC", Plain),
    ("EI", Plain),
    ("Enbp", Plain),
    ("Eneks", Plain),
    ("Enfcs", Plain),
    ("Enmg", Plain),
    ("GP", Plain),
    ("Hls", Parameterized(2)),
    ("IE", Plain),
    ("IS", Plain),
    ("KJ", Label),
    ("Ms", Parameterized(2)),
    ("PE", Key),
    ("PS", Key),
    ("RB", Plain),
    ("RC", Plain),
    ("RF", Plain),
    ("RGB", List),
    ("RK", Plain),
    ("RS", Plain),
    ("RT", Plain),
    ("RV", Plain),
    ("Ri", Plain),
    ("Rmol", Plain),
    ("S0", Parameterized(1)),
    ("SC", Plain),
    ("SH", Parameterized(1)),
    ("SI", Plain),
    ("SR", Plain),
    ("ST", Plain),
    ("Se", Plain),
    ("Setulc", Parameterized(1)),
    ("Setulc1", Parameterized(1)),
    ("Si", Plain),
    ("Smol", Plain),
    ("Smulx", Parameterized(1)),
    ("Ss", Parameterized(1)),
    ("Swd", Plain),
    ("Sync", Parameterized(1)),
    ("TE", Plain),
    ("TI", Plain),
    ("TS", Plain),
    ("Te", Plain),
    ("Ts", Plain),
    ("Us", Plain),
    ("VS", Plain),
    ("WP", Parameterized(2)),
    ("WS", Parameterized(2)),
    ("XC", List),
    ("XM", Parameterized(1)),
    ("XR", Plain),
    ("Z0", Plain),
    ("Z1", Plain),
    ("fd", Plain),
    ("fe", Plain),
    ("ol", Plain),
    ("rmxx", Plain),
    ("rv", Input),
    ("setal", Parameterized(1)),
    ("setrgbb", Parameterized(3)),
    ("setrgbf", Parameterized(3)),
    ("smxx", Plain),
    ("xm", Input),
    ("xr", Input),
];

/// Returns the class of the extended text with a name, such as `XM`, which has one parameter. The names of keys start with `k`; of
/// other names than those of [`user_caps(5)`](https://invisible-island.net/ncurses/man/user_caps.5.html), tmux(1), screen(1) and Vim
/// nothing is known.
pub fn extended_class_of(name: &[u8]) -> Option<Class>
    ensures value { result ≡ extended_class name.now }
{
    if names_a_key(name) {
        return Some(Key);
    }
    'rows: for (known, class) in extended_classes() {
        if known.as_bytes() == name {
            return Some(*class);
        }
    }
    None
}

/// Whether a name is that of what a key sends.
fn names_a_key(name: &[u8]) -> bool
    ensures { result ≡ is_key name.now }
{
    match name {
        [first, ..] => *first == b'k',
        [] => false,
    }
}

/// The names that are known.
fn extended_classes() -> &'static [(&'static str, Class)]
    ensures { map row_of result.now ≡ extended_classes }
{
    &EXTENDED_CLASSES
}
