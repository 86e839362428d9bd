//! The one assertion of the tests. They call it, so that none has another way to fail.
use std::fmt::Debug;
use std::process::Abort;

/// Compares what was found with the expected value.
pub fn same<T: PartialEq + Debug + Copy>(rt: &impl Abort, found: T, wanted: T) {
    assert_eq!(rt; found, wanted);
}
