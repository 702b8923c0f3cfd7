//! The one comparison of a test.

use std::fmt::Debug;
use std::process::Abort;

/// Fails a test, and names the row or what is compared, if what was found is not what was wanted.
///
/// An `assert_eq!` is dear to prove, and a call of this is cheap: so this has the only one but for examples of doc
/// comments. An array or a tuple is compared at once.
pub fn same<T: PartialEq + Debug + Drop>(rt: &impl Abort, name: &str, found: T, wanted: T) {
    assert_eq!(rt; found, wanted, "{name}");
}

/// The same of two texts, which may live for different times: the borrow checker takes no two such values of `same`.
pub fn same_text(rt: &impl Abort, name: &str, found: &str, wanted: &str) {
    assert_eq!(rt; found, wanted, "{name}");
}
