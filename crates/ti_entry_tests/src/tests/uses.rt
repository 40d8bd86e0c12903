//! A caller's first program for each library crate, which its README shows.

mod base;
mod entry;
mod layout;
mod names;
mod words;
