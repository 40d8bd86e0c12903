//! How much `lint` looked at, and the line on it.

use itoa::Buffer;
use std::alloc::{AllocError, Allocator};
use ti_entry::read;
use ti_lint::LintOptions;
use ti_rules::{Trials, count_findings, coverage_of};
use ti_sink::ShortPage;

/// How much was looked at, and how much found.
#[derive(Clone, Copy)]
pub struct Tally {
    findings: u128,
    entries: u128,
    strings: u128,
    tried: u128,
    values: u128,
    left: u128,
}

impl Tally {
    /// Nothing was looked at.
    pub const NONE: Tally = Tally {
        findings: 0,
        entries: 0,
        strings: 0,
        tried: 0,
        values: 0,
        left: 0,
    };

    pub fn has_entries(&self) -> bool {
        self.entries > 0
    }

    /// What was looked at before, and one more.
    pub fn with(self, one: Tally) -> Tally {
        Tally {
            findings: self.findings.saturating_add(one.findings),
            entries: self.entries.saturating_add(one.entries),
            strings: self.strings.saturating_add(one.strings),
            tried: self.tried.saturating_add(one.tried),
            values: self.values.saturating_add(one.values),
            left: self.left.saturating_add(one.left),
        }
    }
}

/// How much `lint` looks at in contents.
pub fn tally_of<A: Allocator + Copy>(
    alloc: A,
    trials: &mut Trials<A>,
    options: LintOptions,
    contents: &[u8],
) -> Result<Tally, AllocError> {
    let Ok(entry) = read(contents) else {
        return Ok(Tally::NONE);
    };
    let findings = count_findings(alloc, trials, options, contents, &entry);
    match (findings, coverage_of(alloc, &entry)) {
        (Ok(findings), Ok(coverage)) => Ok(Tally {
            findings: findings as u128,
            entries: 1,
            strings: coverage.strings,
            tried: coverage.tried as u128,
            values: coverage.values,
            left: coverage.left,
        }),
        _ => Err(AllocError),
    }
}

/// Writes a number, with a comma before each group of three digits but the first, and what is counted.
fn write_count(page: &mut ShortPage, count: u128, one: &str, many: &str) {
    let mut buffer = Buffer::new();
    let digits = buffer.format(count).as_bytes();
    let mut left = digits.len();
    'digits: for digit in digits {
        page.bytes(&[*digit]);
        left = left.saturating_sub(1);
        if left > 0 && left % 3 == 0 {
            page.put(",");
        }
    }
    page.put(if count == 1 { one } else { many })
}

/// Writes the line.
pub fn write_summary(page: &mut ShortPage, tally: Tally) {
    if tally.findings == 0 {
        page.put("no findings");
    } else {
        write_count(page, tally.findings, " finding", " findings");
    }
    page.put(" in ");
    write_count(page, tally.entries, " entry: ", " entries: ");
    write_count(
        page,
        tally.strings,
        " string looked at, ",
        " strings looked at, ",
    );
    write_count(page, tally.tried, " of them over ", " of them over ");
    write_count(page, tally.values, " value", " values");
    if tally.left > 0 {
        page.put(", ");
        write_count(page, tally.left, " not looked at", " not looked at");
    }
    page.put("\n")
}
