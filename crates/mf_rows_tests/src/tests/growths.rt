//! Calls in which allocations fail, one after another. What a refused call was given must be as it was, and the same
//! call with ample memory must have its value.

/// A run of pixels, for constants: a table that a test makes itself costs the prover seconds.
macro_rules! run_of {
    ($y:expr, $x:expr, $len:expr, $weight:expr) => {
        Run {
            y: $y,
            x: $x,
            len: $len,
            weight: $weight,
        }
    };
}

mod builders;
mod changes;
mod many;
mod sums;

use mf_rows::Run;

/// Rows of which two lie next to each other: one of these has two weights side by side, and the other has the least weight.
const APART: &[Run] = &[
    run_of!(90, -3, 2, 5),
    run_of!(1, 0, 2, 1),
    run_of!(1, 2, 1, 3),
    run_of!(0, -1, 3, -32767),
    run_of!(-70, 0, 1, -2),
];
