//! The version of the program and of the libraries: its one place.

/// The version, as `ti --version` prints it and as packages are called.
pub const VERSION: &str = "0.4.0";

/// The same as one number: 65536 times the first, 256 times the second, and the third.
pub const VERSION_NUMBER: u32 = 0x00_04_00;
