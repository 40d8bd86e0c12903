//! Tests of the command line and of the program: words, statuses, lines on faults, and streams and memory that fail.
#![tactic(auto)]

#[cfg(test)]
mod tests;
