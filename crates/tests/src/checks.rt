//! The assertion of all tests. A failure shows the row of the test, which has its inputs.

use std::fmt::Debug;
use std::process::Abort;

// Checks that a value is the expected one.
pub(crate) fn check_equal<R: Debug + Drop, T: PartialEq + Debug + Drop>(
    rt: &impl Abort,
    row: R,
    value: T,
    expected: T,
) {
    if value != expected {
        panic!(rt; "in the row {row:?}: {value:?} in place of {expected:?}");
    }
}

// A check that compares nothing would let every test pass.
#[test]
#[should_panic(expected = "in the row \"first\": 2 in place of 3")]
fn a_wrong_value_fails(rt: HostRuntime) {
    check_equal(&rt, "first", 2, 3);
}
