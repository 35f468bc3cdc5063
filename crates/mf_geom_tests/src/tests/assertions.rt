//! Assertions. In a test, an `assert_eq!` costs the prover seconds, since it formats both sides; a call of a function
//! that holds one costs next to nothing. Each crate of tests has its own, since no library may end the program.
use std::fmt::Debug;
use std::process::Abort;

/// Asserts that the value found is the expected one. `case` names the value: a text, or a tuple of texts and values.
pub(crate) fn assert_same<T: PartialEq + Debug + Drop, C: Debug + Drop>(
    rt: &impl Abort,
    found: T,
    expected: T,
    case: C,
) {
    assert!(rt;
        found == expected,
        "{case:?}: {found:?} in place of {expected:?}"
    );
}
