//! A caller's first program for each library crate, which its README shows.

mod cap;
mod expand;
mod kept;
