//! The laws of the flat pass, each stated as the contract of an empty function.

ghost use Rattle.ti_expand.specs.Steps.{OnePassFollows, CountsStayLow, TakenIsPath, StepsAreThePass};
ghost use Rattle.ti_expand.specs.StackHeight.{TokenHeightIsStack, PathHeightIsStack, TakenPathIsMeaning};

/// One flat pass whose control is a `Mode` alone, moved by [`crate::Mode::next`] at each token, ends in the state that the
/// tree means, and what ran is the path that the tests choose; for every nesting that a capability may have, and for
/// conditionals that the end closes. The count of the mode stays so low that `next` may be called each time.
pub fn one_pass()
    ensures follows { OnePassFollows }
    ensures counts { CountsStayLow }
{}

/// The path that the tests choose is a path of the tree: some walk of it meets exactly these tokens.
pub fn taken_path()
    ensures { TakenIsPath }
{}

/// The height that the table of pops and pushes gives after a token is the number of values on the stack, and so after
/// each token of the path that the tests choose, which leads to the state that the tree means.
pub fn stack_height()
    ensures token { TokenHeightIsStack }
    ensures path { PathHeightIsStack }
    ensures meaning { TakenPathIsMeaning }
{}

/// The pass taken a token at a time is that pass: its steps meet each token of the tree once and in order, those that ran
/// are the path that the tests choose, and the last of them leaves the state that the tree means.
pub fn steps_are_the_pass()
    ensures { StepsAreThePass }
{}
