//! The verdict of `check` on a text.
//!
//! A text is analysed once for each run of equal texts, since texts of an entry may share a long slice.

ghost use Rattle.std.specs.Prelude.{◌≡◌};
ghost use Rattle.ti_json.specs.Rows.{content_value};
ghost use Rattle.ti_tool.specs.Verdicts.{IsJudged, is_sound};

use ti_cap::Capability;
use ti_json::Content;

/// A text and what it is as a capability: its limits, the bound for text parameters without bytes, or its fault.
#[derive(Clone, Copy)]
pub struct JudgedText<'a> {
    pub text: &'a [u8],
    pub content: Content<'a>,
}

/// Analyses a text.
pub fn judge(text: &[u8]) -> JudgedText<'_>
    ensures content { IsJudged text.now (content_value result.content) }
    ensures text { result.text.now ≡ text.now }
{
    let content = match Capability::parse(text) {
        Ok(capability) => Content::Limits {
            depth: capability.depth(),
            bound: capability.bound(0),
        },
        Err(refused) => Content::Fault(refused),
    };
    JudgedText { text, content }
}

impl<'a> JudgedText<'a> {
    /// The judgement on the text that comes next, which is this one if the text is the same.
    pub fn next(self, text: &'a [u8]) -> JudgedText<'a>
        requires { IsJudged self.text.now (content_value self.content) }
        ensures content { IsJudged text.now (content_value result.content) }
        ensures text { result.text.now ≡ text.now }
    {
        if text == self.text { self } else { judge(text) }
    }

    /// Whether the text has no fault.
    pub fn is_sound(self) -> bool
        ensures { result ≡ is_sound (content_value self.entry.content) }
    {
        !matches!(self.content, Content::Fault(_))
    }
}
