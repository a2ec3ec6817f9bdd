//! Comparisons of a test's results with the expected ones.
use std::fmt::Debug;
use std::process::Abort;

/// Asserts that a result is the expected one.
pub fn same<T: PartialEq + Debug>(rt: &impl Abort, found: &T, expected: &T) {
    assert_eq!(rt; *found, *expected);
}

/// Asserts a condition.
pub fn holds(rt: &impl Abort, what: &str, is_so: bool) {
    assert!(rt; is_so, "{what}");
}
