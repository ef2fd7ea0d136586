//! What stops a test.
use std::fmt::Debug;
use std::process::Abort;

/// Stops the test where something is not as it is to be, and tells the case.
pub fn holds<R: Abort, C: Debug>(rt: &R, is_right: bool, case: &C) {
    assert!(rt; is_right, "{case:?}");
}
