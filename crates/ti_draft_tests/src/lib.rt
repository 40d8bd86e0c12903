//! Tests of what is written: drafts, their bytes, and entries as JSON.
#![tactic(auto)]

#[cfg(test)]
mod tests;
