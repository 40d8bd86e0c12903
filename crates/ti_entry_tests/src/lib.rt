//! Tests of entries: byte vectors, and readers and memory that fail.
#![tactic(auto)]

#[cfg(test)]
mod tests;
