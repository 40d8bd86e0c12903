//! Laws of the program's results, each stated as the contract of an empty function.

ghost use Rattle.ti_tool.specs.Printable.{CapabilitiesArePages, EntriesArePages};
ghost use Rattle.ti_tool.specs.Laws.{HasOneAnswer, HasOneVerdict, InputHasOneResult, WideAndBack};

/// Where an entry of the legacy format is converted to the one with numbers of 32 bits and back, its canonical bytes
/// come out.
pub fn wide_and_back()
    ensures { WideAndBack }
{}

/// For a request and the bytes that are read there is at most one result or fault, and it says that something is wrong or that
/// nothing is, but for traces and documents of JSON, which rows show, and for reports: of these `reports_are_one` of ti_rules speaks. So
/// it is of what is read of standard input, if memory is not refused.
pub fn results_are_one()
    ensures one { HasOneAnswer }
    ensures verdict { HasOneVerdict }
    ensures input { InputHasOneResult }
{}

/// Under `--escape` and under `--json` a result is a page, whatever the entry holds: printable ASCII characters and newlines.
pub fn escaped_results_are_printable()
    ensures entries { EntriesArePages }
    ensures capabilities { CapabilitiesArePages }
{}
