//! Copies of cycles for which an allocation fails.

use super::{RECTANGLE, cycle_of, walk};
use crate::tests::assertions::assert_same;
use mf_base::OutOfMemory;
use mf_geom::Cycle;
use mf_testing::{grow_again, refuse_growths};
use std::process::Abort;

/// Asserts that the cycle goes through the corners of the rectangle.
fn assert_rectangle<R: Abort + AllocGlobal>(rt: &R, cycle: &Cycle) {
    let points = walk(rt, RECTANGLE, 1);
    assert_same(rt, cycle.points(), &points, "the points");
}

/// The copy of a cycle, made while an allocation fails, or with ample memory where that is refused.
fn copy_in_the_end<R: Abort + AllocGlobal>(rt: &R, cycle: &Cycle) -> Cycle {
    refuse_growths(rt.alloc());
    let copy = cycle.copy(rt.alloc());
    grow_again(rt.alloc());
    match copy {
        Ok(copy) => copy,
        Err(fault) => {
            assert_same(rt, fault, OutOfMemory, "the copy");
            cycle
                .copy(rt.alloc())
                .expect(rt, "there is room for a copy")
        }
    }
}

#[test]
fn a_cycle_is_copied(rt: HostRuntime) {
    let cycle = cycle_of(&rt, RECTANGLE, 1);
    let copy = copy_in_the_end(&rt, &cycle);
    assert_rectangle(&rt, &cycle);
    assert_rectangle(&rt, &copy);
}
