//! A pass over the tokens of a capability from the last to the first, along all paths at once.
//!
//! Where parts meet, the paths that go on from each are known; where a test may go either way, they are joined. The cost is
//! constant a token.

ghost use Rattle.std.specs.Prelude.{◌≡◌, ◌≤◌, IfOk, All, length};
ghost use Rattle.ti_base.specs.Limits.{most_capability_bytes};
ghost use Rattle.ti_cap.specs.declared.language.Token.{Token};
ghost use Rattle.ti_lint.specs.inner.Facts.{IsLettered};
ghost use Rattle.ti_lint.specs.inner.Outlook.{outlooks};

use crate::outlook::Outlook;
use std::alloc::{AllocError, Allocator};
use std::marker::Model;
use ti_cap::Token;

/// The outlooks that an open conditional saves.
#[derive(Clone, Copy)]
pub struct OpenOutlooks {
    /// Those whose test fails, up to the next `%e` or `%;`.
    failed: Outlook,
    /// Those whose body has ended, up to the `%;`.
    done: Outlook,
}

impl OpenOutlooks {
    /// A conditional that the end closes.
    const END: OpenOutlooks = OpenOutlooks {
        failed: Outlook::END,
        done: Outlook::END,
    };
}

/// The state of the pass.
#[derive(Drop)]
pub struct Backward<A: Allocator> {
    /// The outlook from here.
    here: Outlook,
    /// The open conditionals, the innermost last. Those that the end closes may be missing.
    opens: Vec<OpenOutlooks, A>,
}

impl<A: Allocator> Model for Backward<A> {
    ghost use Rattle.std.specs.Prelude.{reverse};
    ghost use Rattle.ti_lint.specs.inner.Outlook.{Ahead};

    ghost Value = { Ahead };

    ghost view = { λ b. record {
      here = b.here;
      opens = reverse b.opens.items;
    } };
}

impl<A: Allocator> Backward<A> {
    ghost use Rattle.std.specs.Prelude.{◌<◌, ◌^◌, OnOk};
    ghost use Rattle.ti_lint.specs.inner.Outlook.{at_end, ahead_of};

    /// The end.
    pub fn new(alloc: A) -> Self
        ensures { result ≡ at_end }
    {
        Backward {
            here: Outlook::END,
            opens: Vec::new(alloc),
        }
    }

    /// Returns the outlook from here.
    pub fn here(&self) -> &Outlook
        ensures { result.now ≡ self.now.here }
    {
        &self.here
    }

    /// Goes back over a token.
    pub fn take(&mut self, token: Token) -> Result<(), AllocError>
        requires lettered { IsLettered token }
        requires few { self.old.here.needs < 2 ^ 32 }
        ensures { OnOk result (self.new ≡ ahead_of token self.old) }
    {
        match token {
            Token::CondClose => self.leave(),
            Token::CondElse => self.turn(),
            Token::CondThen => self.test(),
            Token::CondOpen => {
                let _open = self.opens.pop();
                Ok(())
            }
            _ => {
                self.here.precede(token);
                Ok(())
            }
        }
    }

    /// The end of a conditional: each part goes on from here.
    fn leave(&mut self) -> Result<(), AllocError>
        ensures { OnOk result (self.new ≡ ahead_of Token.CondClose self.old) }
    {
        self.opens.push(OpenOutlooks {
            failed: self.here,
            done: self.here,
        })?;
        Ok(())
    }

    /// The end of a body: what comes before goes on from the `%;`, and a test that fails goes on from here.
    fn turn(&mut self) -> Result<(), AllocError>
        ensures { OnOk result (self.new ≡ ahead_of Token.CondElse self.old) }
    {
        let done = self.opens.pop().unwrap_or(OpenOutlooks::END).done;
        self.opens.push(OpenOutlooks {
            failed: self.here,
            done,
        })?;
        self.here = done;
        Ok(())
    }

    /// The end of a test: some paths go on from here, and some from the next `%e` or `%;`.
    fn test(&mut self) -> Result<(), AllocError>
        requires few { self.old.here.needs < 2 ^ 32 }
        ensures { OnOk result (self.new ≡ ahead_of Token.CondThen self.old) }
    {
        let open = self.opens.pop().unwrap_or(OpenOutlooks::END);
        self.opens.push(open)?;
        self.here.join(&open.failed);
        self.here.precede(Token::CondThen);
        Ok(())
    }
}

/// Returns the outlook after each token, that of the first token last.
pub fn outlooks<A: Allocator + Copy>(
    alloc: A,
    tokens: &[Token],
) -> Result<Vec<Outlook, A>, AllocError>
    requires lettered { All IsLettered tokens.now }
    requires few { length tokens.now ≤ most_capability_bytes }
    ensures { IfOk result (λ list. list.items ≡ outlooks tokens.now) }
{
    let mut pass = Backward::new(alloc);
    let mut list = Vec::new(alloc);
    let mut left = tokens;
    'tokens: while let Some((token, before)) = left.split_last() {
        list.push(*pass.here())?;
        pass.take(*token)?;
        left = before;
    }
    Ok(list)
}
