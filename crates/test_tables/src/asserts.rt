//! Asserts. An `assert_eq!` is proved where it is, which takes seconds each time; a call of one
//! of these isn't.
use std::fmt::Debug;
use std::process::Abort;

/// Asserts that what is found is what is wanted; the name of its row is printed where it isn't.
pub(crate) fn expect_equal<R: Abort, T: Debug + PartialEq>(
    rt: &R,
    found: &T,
    wanted: &T,
    row: &str,
) {
    assert_eq!(rt; found, wanted, "{row}");
}

/// The same of texts.
pub(crate) fn expect_equal_text<R: Abort>(rt: &R, found: &str, wanted: &str, row: &str) {
    assert_eq!(rt; found, wanted, "{row}");
}
