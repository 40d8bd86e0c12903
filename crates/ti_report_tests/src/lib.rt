//! Tests of reports on mistakes.
#![tactic(auto)]

#[cfg(test)]
mod tests;
