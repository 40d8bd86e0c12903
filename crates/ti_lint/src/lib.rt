//! Findings on a capability on some of its paths, exact over all of them.
//!
//! [`findings_of`] returns the findings of a capability with their places, and [`Findings`] reports them token by token: a pop
//! of the empty stack, a value that is never popped, a parameter that the capability does not have, a `%i` that is repeated,
//! late or of no use, a variable that was not set or is not used; and a conditional that changes nothing, or whose test is made
//! of constants or is that of an earlier arm. A finding is reported exactly if it holds. The cost is constant a token, in time
//! and in memory, but that the test of an arm is compared with those of all arms before it.
#![tactic(auto)]

mod backward;
mod conditional;
mod expected;
mod extended_class;
mod facts;
mod findings;
mod heights;
mod kinds;
mod level;
mod lint_options;
mod marks;
mod outlook;
mod pairs;
mod parameters;
mod pass;
mod placed_finding;
mod plain;
mod stored;
mod token_finding;
mod tokens;
mod values;
mod variables;

pub use conditional::constant_test;
pub use expected::{Expected, TextParameters};
pub use extended_class::extended_class_of;
pub use findings::{Findings, Judged};
pub use kinds::text_parameters;
pub use level::Level;
pub use lint_options::LintOptions;
pub use marks::{is_false_mark, is_mark};
pub use pairs::{is_half_paired, toggling_pairs, undoing_pairs};
pub use parameters::unused_parameters;
pub use placed_finding::{PlacedFinding, findings_of};
pub use plain::{is_double_percent, is_meant_to_expand};
pub use stored::stored_by;
pub use token_finding::TokenFinding;
pub use variables::Variables;
