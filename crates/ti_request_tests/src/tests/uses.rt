//! A caller's first programs for the listings, as their README shows them.

mod listing;
