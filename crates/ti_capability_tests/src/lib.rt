//! Tests of capabilities: worked rows, and readers, writers and memory that fail.
#![tactic(auto)]

#[cfg(test)]
mod tests;
