//! Laws of the command line, each proved of all words and with nothing to run.

ghost use Rattle.ti_line.specs.Laws.{IsOneOfThree, MakesLine, ReadsOneLine, ReadsWhatIsWanted, StandApart};

/// Words are read as one line, or ask for help, or are refused; what is read is neither of the others. A name is there if
/// one is wanted, and numbers are within their ranges.
pub fn words_are_read_once()
    ensures one { ReadsOneLine }
    ensures apart { StandApart }
    ensures whole { IsOneOfThree }
    ensures within { ReadsWhatIsWanted }
{}

/// Words on which `clap` finds no fault make a line, so nothing is refused but what it refuses.
pub fn faultless_words_are_a_line()
    ensures { MakesLine }
{}
