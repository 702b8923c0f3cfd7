//! The one comparison of the tests.

use std::fmt::Debug;
use std::process::Abort;

/// What was found is what was wanted. Of what stands in a row, the row is a part of both.
pub fn same<T: PartialEq + Debug + Drop>(rt: &impl Abort, found: T, wanted: T) {
    assert_eq!(rt; found, wanted);
}
