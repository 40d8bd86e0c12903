//! Tests of the calls that carry out requests: results, and streams and memory that fail.
#![tactic(auto)]

#[cfg(test)]
mod tests;
