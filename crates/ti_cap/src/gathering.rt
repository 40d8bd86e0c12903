//! The parameters of a capability: which of the nine it names, and which it takes as texts.
//!
//! One pass over the tokens goes along all paths at once, as that of `scan` does: where a test may go either way both
//! are kept, and where parts meet they are joined. The cost is constant a token, and no memory is taken.

use crate::language::{Conversion, Op, Token};
use crate::origins::Origins;
use crate::parameter_set::ParameterSet;
use crate::parse::{Capability, Tape};
use ti_base::MOST_OPEN;

/// The parameters of a capability.
#[derive(Clone, Copy, Debug, PartialEq, Eq)]
pub struct Parameters {
    /// Those that some path names, by `%p1` to `%p9`.
    pub named: ParameterSet,
    /// Those that some path takes as texts, by `%s` or `%l`.
    pub texts: ParameterSet,
}

/// The state of an open conditional.
#[derive(Clone, Copy)]
pub struct OpenOrigins {
    /// The state after its failed tests, since its last `%e`.
    failed: Origins,
    /// The state after its bodies.
    done: Origins,
}

impl OpenOrigins {
    /// A conditional in its first test.
    const FRESH: OpenOrigins = OpenOrigins {
        failed: Origins::NONE,
        done: Origins::NONE,
    };
}

/// The state of a pass over the tokens.
#[derive(Drop)]
pub struct Gathering {
    /// The parameters on the stack here.
    here: Origins,
    opens: [OpenOrigins; MOST_OPEN],
    /// How many conditionals are open.
    nesting: usize,
    found: Parameters,
}

impl Gathering {
    ghost use Rattle.std.specs.Prelude.{◌≡◌, ℕ, ◌<◌, ◌≤◌};
    ghost use Rattle.ti_base.specs.Limits.{most_open};
    ghost use Rattle.ti_cap.specs.declared.language.Token.{Token};
    ghost use Rattle.ti_cap.specs.inner.Gathering.{no_gathering, gathered, after_print, IsTakeable};

    /// No token yet.
    fn new() -> Self
        ensures { result ≡ no_gathering }
    {
        Gathering {
            here: Origins::NONE,
            opens: [OpenOrigins::FRESH; MOST_OPEN],
            nesting: 0,
            found: Parameters {
                named: ParameterSet::NONE,
                texts: ParameterSet::NONE,
            },
        }
    }

    /// Goes on over a token that may stand here.
    fn take(&mut self, token: Token)
        requires takeable { IsTakeable token self.old.nesting }
        requires few { self.old.nesting ≤ most_open }
        ensures { self.new ≡ gathered self.old token }
    {
        match token {
            Token::Byte(_) | Token::Increment => {}
            Token::Store(_) | Token::Char => self.here.pop(),
            Token::Print(format) => self.print(format.conversion),
            Token::Length => self.measure(),
            Token::Param(which) => self.name(which),
            Token::Constant(_) | Token::Load(_) => self.here.push(ParameterSet::NONE),
            Token::Compute(Op::Not | Op::BitNot) => {
                self.here.pop();
                self.here.push(ParameterSet::NONE);
            }
            Token::Compute(_) => {
                self.here.pop();
                self.here.pop();
                self.here.push(ParameterSet::NONE);
            }
            Token::CondOpen => self.enter(),
            Token::CondThen => self.test(),
            Token::CondElse => self.turn(),
            Token::CondClose => self.leave(),
        }
    }

    /// A text, or another value, is popped and printed.
    fn print(&mut self, conversion: Conversion)
        ensures { self.new ≡ after_print conversion self.old }
    {
        if matches!(conversion, Conversion::Text) {
            self.found.texts = self.found.texts.union(self.here.top());
        }
        self.here.pop();
    }

    /// A text is popped, and its length is pushed.
    fn measure(&mut self)
        ensures { self.new ≡ gathered self.old Token.Length }
    {
        self.found.texts = self.found.texts.union(self.here.top());
        self.here.pop();
        self.here.push(ParameterSet::NONE);
    }

    /// The value of a parameter is pushed.
    fn name(&mut self, which: u8)
        requires low { 1 ≤ which }
        requires high { which ≤ 9 }
        ensures { self.new ≡ gathered self.old (Token.Param which) }
    {
        let set = ParameterSet::only(which);
        self.found.named = self.found.named.union(set);
        self.here.push(set);
    }

    /// A conditional begins.
    fn enter(&mut self)
        requires { self.old.nesting < most_open }
        ensures { self.new ≡ gathered self.old Token.CondOpen }
    {
        self.opens[self.nesting] = OpenOrigins::FRESH;
        self.nesting += 1;
    }

    /// A test ends: some paths fail here, and go on after the `%e` or `%;` to come.
    fn test(&mut self)
        requires some { 0 < self.old.nesting }
        requires few { self.old.nesting ≤ most_open }
        ensures { self.new ≡ gathered self.old Token.CondThen }
    {
        self.here.pop();
        self.opens[self.nesting - 1].failed.join(&self.here);
    }

    /// A body ends: what it ended with waits for the `%;`, and what its test failed with goes on.
    fn turn(&mut self)
        requires some { 0 < self.old.nesting }
        requires few { self.old.nesting ≤ most_open }
        ensures { self.new ≡ gathered self.old Token.CondElse }
    {
        let open = &mut self.opens[self.nesting - 1];
        open.done.join(&self.here);
        self.here = open.failed;
        open.failed = Origins::NONE;
    }

    /// A conditional ends: what waits in it joins what is here.
    fn leave(&mut self)
        requires some { 0 < self.old.nesting }
        requires few { self.old.nesting ≤ most_open }
        ensures { self.new ≡ gathered self.old Token.CondClose }
    {
        let open = &self.opens[self.nesting - 1];
        self.here.join(&open.failed);
        self.here.join(&open.done);
        self.nesting -= 1;
    }
}

impl<'a> Capability<'a> {
    ghost use Rattle.std.specs.Prelude.{◌↔◌, ℕ};
    ghost use Rattle.ti_cap.specs.Sources.{Has, IsNamed, IsTakenAsText};

    /// Which parameters it names, and which it takes as texts. It goes over the tokens once.
    pub fn parameters(&self) -> Parameters
        ensures named { (which : ℕ) → Has result.named which ↔ IsNamed self.now which }
        ensures texts { (which : ℕ) → Has result.texts which ↔ IsTakenAsText self.now which }
    {
        parameters_of(self.tape())
    }
}

ghost use Rattle.std.specs.Prelude.{◌↔◌, ℕ};
ghost use Rattle.ti_cap.specs.Sources.{Has, IsNamed, IsTakenAsText};
ghost use Rattle.ti_cap.specs.Capability.{IsWellFormed};

/// The parameters of a capability, by its tape.
fn parameters_of(mut tape: Tape<'_>) -> Parameters
    requires { IsWellFormed tape.left }
    ensures named { (which : ℕ) → Has result.named which ↔ IsNamed tape.entry.left which }
    ensures texts { (which : ℕ) → Has result.texts which ↔ IsTakenAsText tape.entry.left which }
{
    let mut gathering = Gathering::new();
    while let Some(token) = tape.token() {
        gathering.take(token);
    }
    gathering.found
}
