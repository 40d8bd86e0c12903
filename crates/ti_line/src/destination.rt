//! Where results go.

ghost use Rattle.std.specs.Prelude.{◌≡◌};
ghost use Rattle.ti_line.specs.Options.{color_at, is_terminal as the_is_terminal};

use ti_escape::Color;

/// Where results go.
#[derive(Clone, Copy, Debug, PartialEq, Eq)]
pub enum Destination {
    /// To a file, or to another program.
    File,
    /// To a terminal, on which parts of lines stand out or not unless `--color` says it.
    Terminal(Color),
}

impl Destination {
    /// Whether results go to a terminal.
    pub fn is_terminal(self) -> bool
        ensures { result ≡ the_is_terminal self }
    {
        match self {
            Destination::File => false,
            Destination::Terminal(_) => true,
        }
    }

    /// Whether parts of lines stand out if nothing else is requested: only at a terminal.
    pub fn color(self) -> Color
        ensures { result ≡ color_at self }
    {
        match self {
            Destination::File => Color::Never,
            Destination::Terminal(color) => color,
        }
    }
}
