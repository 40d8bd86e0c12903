//! The findings of tokens, each with its word.

ghost use Rattle.std.specs.Prelude.{◌≡◌};
ghost use Rattle.ti_lint.specs.FindingWords.{token_word};

/// A finding on a token of a capability, by the paths that meet it or by the conditional that it is a part of.
#[derive(Clone, Copy, Debug, PartialEq, Eq)]
pub enum TokenFinding {
    /// It pops more values than there are.
    StackUnderflow,
    /// The same in a text that names no parameter, as termcap writes `%d` and `%+ `.
    TermcapParameter,
    /// It pushes a parameter that the capability does not have.
    ParameterRange,
    /// It is a `%i` after another one, which adds 1 again.
    RepeatedIncrement,
    /// It pushes a variable into which nothing was stored.
    UnsetVariable,
    /// It takes a text, and the value on the stack is a number; or it takes a number, and that is a text.
    OperandType,
    /// It pushes a value that is never popped.
    StackResidue,
    /// It is a `%i`, and neither of the first two parameters is pushed after it.
    UnusedIncrement,
    /// It is a `%i` between two of the first two parameters, so that only the later one has 1 added.
    LateIncrement,
    /// It stores into a variable that is not pushed after it.
    DeadStore,
    /// It opens a conditional that writes, stores and changes nothing, whichever way its tests go.
    NoEffect,
    /// It ends a test of constants alone.
    ConstantCondition,
    /// It comes before a test that an earlier arm of the conditional has as well.
    RepeatedCondition,
}

impl TokenFinding {
    /// The word for the finding.
    pub fn word(self) -> &'static str
        ensures name { result.now ≡ token_word self }
    {
        match self {
            TokenFinding::StackUnderflow => "stack-underflow",
            TokenFinding::TermcapParameter => "termcap-parameter",
            TokenFinding::ParameterRange => "parameter-range",
            TokenFinding::RepeatedIncrement => "%i-repeated",
            TokenFinding::UnsetVariable => "unset-variable",
            TokenFinding::OperandType => "operand-type",
            TokenFinding::StackResidue => "stack-residue",
            TokenFinding::UnusedIncrement => "%i-unused",
            TokenFinding::LateIncrement => "%i-late",
            TokenFinding::DeadStore => "dead-store",
            TokenFinding::NoEffect => "no-effect",
            TokenFinding::ConstantCondition => "constant-condition",
            TokenFinding::RepeatedCondition => "repeated-condition",
        }
    }
}
