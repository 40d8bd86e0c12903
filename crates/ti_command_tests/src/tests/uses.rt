//! A caller's first programs for the command line and the program, as their READMEs show them.

mod line;
mod tool;
