//! A caller's first program for each library crate, which its README shows.

mod control;
mod escape;
mod pad;
mod parser;
mod sink;
mod trace;
