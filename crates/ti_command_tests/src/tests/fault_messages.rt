//! The messages on the faults of the calls.

use ti_cap::{CapFault, CapRefused};
use ti_entry::{EncodeFault, Fault, Refused};
use ti_fixtures::are_shown;
use ti_line::NoRequest;
use ti_tool::{ToolFault, WordFault};
use ti_trace::TraceFault;

/// Each fault of a call, and its message.
const FAULTS: &[(ToolFault, &str)] = &[
    (
        ToolFault::Entry(Refused {
            fault: Fault::Truncated,
            place: 5,
        }),
        "Entry Truncated at 5",
    ),
    (
        ToolFault::Encode(EncodeFault::NumberOutOfRange),
        "Encode NumberOutOfRange",
    ),
    (
        ToolFault::Cap(CapRefused {
            fault: CapFault::CutShort,
            place: 2,
        }),
        "Cap CutShort at 2",
    ),
    (ToolFault::HasName, "HasName"),
    (ToolFault::NoSuchText, "NoSuchText"),
    (ToolFault::NoSuchName, "NoSuchName"),
    (ToolFault::OnlyNumbers(2), "OnlyNumbers 2"),
    (ToolFault::TextTooLong(9), "TextTooLong 9"),
    (
        ToolFault::TooMuch(6_553_434_465_000),
        "TooMuch 6553434465000",
    ),
    (ToolFault::Read, "Read"),
    (ToolFault::Write(13), "Write 13"),
    (ToolFault::Memory, "Memory"),
];

/// Each fault of a trace, and its message.
const FAULTS_OF_TRACES: &[(TraceFault, &str)] = &[
    (
        TraceFault::Cap(CapRefused {
            fault: CapFault::StrayEnd,
            place: 0,
        }),
        "Cap StrayEnd at 0",
    ),
    (TraceFault::TextTooLong(3), "TextTooLong 3"),
    (TraceFault::Memory, "Memory"),
];

/// Each fault of a word, and its message.
const FAULTS_OF_WORDS: &[(WordFault, &str)] = &[
    (WordFault::TooMany, "TooMany"),
    (WordFault::BadWord { which: 3 }, "BadWord 3"),
];

#[test]
fn faults_of_calls_are_shown(rt: HostRuntime) {
    assert_that!(rt; are_shown(rt.alloc(), FAULTS));
}

#[test]
fn faults_of_traces_are_shown(rt: HostRuntime) {
    assert_that!(rt; are_shown(rt.alloc(), FAULTS_OF_TRACES));
}

#[test]
fn faults_of_words_are_shown(rt: HostRuntime) {
    assert_that!(rt; are_shown(rt.alloc(), FAULTS_OF_WORDS));
}

#[test]
fn no_memory_for_a_line_is_shown(rt: HostRuntime) {
    assert_that!(rt; are_shown(rt.alloc(), &[(NoRequest::Memory, "Memory")]));
}
