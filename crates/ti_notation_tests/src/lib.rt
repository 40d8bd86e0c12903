//! Tests of the notation, of padding and of traces: worked rows, and writers and memory that fail.
#![tactic(auto)]

#[cfg(test)]
mod tests;
