//! The assertions of tests.

use std::process::Abort;

/// Fails the test where a line of the table of this name is wrong, whose number is not 0. It is called for each table, since a call makes its caller's proof cheaper than an
/// assertion does.
pub fn assert_right(rt: &impl Abort, table: &str, wrong: usize) {
    assert_eq!(rt; wrong, 0, "{table}");
}
