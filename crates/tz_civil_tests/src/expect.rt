//! Comparisons of tests. The proof of a test walks through each `assert_eq!` where it is written
//! out, and through a call of these much faster.

use std::fmt::Debug;
use std::process::Abort;

/// The values are equal.
pub(crate) fn expect_eq<T: Debug + PartialEq>(rt: &impl Abort, found: &T, wanted: &T) {
    assert_eq!(rt; *found, *wanted);
}
