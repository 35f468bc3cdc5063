//! Assertions. An `assert_eq!` in a test costs the prover seconds, because it formats both sides, while a call of a function that
//! holds one costs next to nothing. Each crate of tests has its own copy of them, because no library may end the program.
use std::fmt::Debug;
use std::process::Abort;

/// Asserts that what was found is what was expected. `case` says what it was found for: a text, or a tuple of texts and values.
pub(crate) fn assert_same<T: PartialEq + Debug + Drop, C: Debug + Drop>(
    rt: &impl Abort,
    found: T,
    expected: T,
    case: C,
) {
    assert!(rt;
        found == expected,
        "{case:?}: {found:?} in place of {expected:?}"
    );
}

/// Asserts a condition in this case.
pub(crate) fn assert_holds<C: Debug + Drop>(rt: &impl Abort, holds: bool, case: C) {
    assert!(rt; holds, "{case:?}");
}
