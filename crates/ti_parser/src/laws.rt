//! The laws of the parser, each stated as the contract of an empty function.

ghost use Rattle.ti_parser.specs.Paths.{CoversExpansions};
ghost use Rattle.ti_parser.specs.Laws.{Composes, DigitsAreANumber, EndsClean, Restarts, TextPasses, ValuesPlayNoPart};

/// After an escape, what is handed out does not depend on what came before, but for whether a string was cut off.
pub fn escape_restarts()
    ensures { Restarts }
{}

/// Joined bytes are read as the first and then the second. Bytes that end in the ground state, with no character of UTF-8 begun,
/// leave the parser as new, so they can stand before any others.
pub fn runs_compose()
    ensures join { Composes }
    ensures clean { EndsClean }
{}

/// Which functions are handed out, but for the values of their numbers, does not depend on the values of numbers that came before.
pub fn values_play_no_part()
    ensures { ValuesPlayNoPart }
{}

/// Where a number may stand, its digits hand out nothing, and all numbers lead to the same but for their values.
pub fn digits_are_a_number()
    ensures { DigitsAreANumber }
{}

/// Printable text in the ground state hands out nothing and leaves the parser as new, so it can stand between any two strings that
/// end there.
pub fn text_passes()
    ensures { TextPasses }
{}

/// What covers all paths of a capability covers what it is expanded to, for any variables and parameters.
pub fn a_cover_covers_expansions()
    ensures { CoversExpansions }
{}
