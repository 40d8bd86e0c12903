//! The findings on a text that was taken over from termcap.

use std::test::Fail;
use ti_cap::Capability;
use ti_lint::{
    Expected, Findings, PlacedFinding, TextParameters, TokenFinding, Variables, findings_of,
};

/// `tsl` as the entry of the IBM 8514 has it. Its parameter is a column.
const TSL: &[u8] = b"\x1bj\x1bYI%+ \x1bo";

#[test]
fn a_text_of_termcap(rt: HostRuntime) -> Result<(), Fail> {
    let expected = Expected {
        parameters: 1,
        texts: TextParameters::NONE,
        stored: Variables::NONE,
    };
    // The sum pops two values, and nothing pushes any: termcap has `%+ ` for what terminfo writes as `%p1%' '%+%c`. The
    // value that it pushes is never printed.
    let wanted = [
        PlacedFinding {
            place: 5,
            finding: TokenFinding::TermcapParameter,
        },
        PlacedFinding {
            place: 5,
            finding: TokenFinding::StackResidue,
        },
    ];
    let found = findings_of(rt.alloc(), &Capability::parse(TSL)?, expected)?;
    assert!(rt; found.as_slice() == wanted.as_slice());
    assert!(rt; TokenFinding::TermcapParameter.word() == "termcap-parameter");
    Ok(())
}

#[test]
fn one_token_at_a_time(rt: HostRuntime) -> Result<(), Fail> {
    let expected = Expected {
        parameters: 1,
        texts: TextParameters::NONE,
        stored: Variables::NONE,
    };
    let mut findings = Findings::new(rt.alloc(), &Capability::parse(TSL)?, expected)?;
    for place in 0..5 {
        assert!(rt; findings.at() == place);
        assert!(rt;
            findings
                .token()
                .is_some_and(|judged| judged.before.is_none())
        );
    }
    let sum = findings.token().ok_or("end")?;
    assert!(rt; sum.before == Some(TokenFinding::TermcapParameter));
    assert!(rt; sum.after == Some(TokenFinding::StackResidue));
    Ok(())
}
