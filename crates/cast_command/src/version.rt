//! What `--version` says about the program. A program can't know the commit that it is built from, so these are
//! constants. `tests/version` compares them with the repository and the toolchain, and rewrites them.

/// The version, the commit, and the toolchain. If a commit is named with `after`, more has changed since.
pub const VERSION: &str = "0.2.0 (after commit ab8836a5, rattle-kit-13f logic dac8208d650f15bf)";
