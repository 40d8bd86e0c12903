//! Laws of what is reported, each stated as the contract of an empty function.

ghost use Rattle.ti_rules.specs.ConstantLaws.{ConstantTestsPopTheirValue};
ghost use Rattle.ti_rules.specs.Reported.{HarmIsReported};
ghost use Rattle.ti_rules.specs.Reports.{HasOneReport, OnlyTable};

/// The value of which a test of constants is reported is the number that its `%t` pops: on each path that meets the `%t`,
/// whatever the variables and parameters are.
pub fn constant_tests_pop_their_value()
    ensures { ConstantTestsPopTheirValue }
{}

/// Harm is never hidden: what an entry could do to its user is reported, whatever else was found of the same text and at each
/// level.
pub fn harm_is_reported()
    ensures { HarmIsReported }
{}

/// An entry has one report, but for what is found of what its strings make a terminal do.
pub fn reports_are_one()
    ensures { HasOneReport }
{}

/// If nothing is reported of what the strings of a stranger's entry make a terminal do, then each function that a terminal takes of
/// them is in the table for its string, and each string ends outside of functions and characters: for all variables, and for all
/// parameters whose texts are data.
pub fn strings_keep_to_the_table()
    ensures { OnlyTable }
{}
