//! The version of the program.

/// The version that `arbiter --version` prints behind `arbiter `. The scripts read this line.
pub const VERSION: &str = "1.0.0";
