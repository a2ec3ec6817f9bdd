//! Comparisons of a test's results with the expected ones.
use std::fmt::Debug;
use std::process::Abort;

/// Asserts that a result is the expected one.
pub fn same<T: PartialEq + Debug>(rt: &impl Abort, found: &T, expected: &T) {
    assert_eq!(rt; *found, *expected);
}

/// Asserts a condition.
pub fn holds(rt: &impl Abort, what: &str, is_so: bool) {
    assert!(rt; is_so, "{what}");
}

/// A place in a table of cases: a case of it, and a step of the case.
#[derive(Clone, Copy)]
pub struct Place<'a> {
    pub case: &'a str,
    pub step: usize,
}

/// Asserts that the result at a place of a table is the expected one.
pub fn same_at<T: PartialEq + Debug>(rt: &impl Abort, at: Place<'_>, found: &T, expected: &T) {
    assert_eq!(rt; *found, *expected, "{}, step {}", at.case, at.step);
}

/// Asserts a condition at a place of a table.
pub fn holds_at(rt: &impl Abort, at: Place<'_>, is_so: bool) {
    assert!(rt; is_so, "{}, step {}", at.case, at.step);
}
