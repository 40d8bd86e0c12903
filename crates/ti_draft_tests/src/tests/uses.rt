//! A caller's first programs for the crates of drafts and of JSON, which their READMEs show.

mod draft;
mod json;
