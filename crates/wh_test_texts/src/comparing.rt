//! The comparison of what is found with what is expected.

use std::process::Abort;

/// Compares two texts.
pub fn expect_text(rt: &impl Abort, found: &[u8], expected: &[u8]) {
    assert_eq!(rt; found, expected);
}
