//! A caller's first program for each library crate, which its README shows.

mod forms;
mod lint;
mod values;
