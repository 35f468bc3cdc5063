//! Copies of pictures, and pictures that are made from one, in which allocations fail.
ghost use Rattle.std.specs.Prelude.{pos, negsuc, ◌≤ℤ◌};
ghost use Rattle.mf_rows_edges.specs.Axes.{IsStretch};
ghost use Rattle.mf_rows.specs.Moves.{PixelsStayInside};

use super::APART;
use crate::tests::assertions::assert_same;
use crate::tests::derived::Derived;
use crate::tests::{assert_runs, expect_picture, picture_of};
use mf_base::OutOfMemory;
use mf_rows::{Picture, Run};
use mf_rows_edges::Stretch;
use mf_testing::{grow_again, refuse_growths};
use std::process::Abort;

/// Asserts that what is made from the rows while allocations fail has these runs, and that the rows stay as they are.
fn assert_makes<R: Abort + AllocGlobal>(rt: &R, what: Derived, runs: &[Run]) {
    let picture = picture_of(rt, APART);
    refuse_growths(rt.alloc());
    let new = what.of(rt.alloc(), &picture);
    grow_again(rt.alloc());
    assert_runs(rt, &picture, APART);
    let new = match new {
        Ok(new) => new,
        Err(fault) => {
            assert_same(rt, fault, OutOfMemory, what);
            expect_picture(rt, what.of(rt.alloc(), &picture))
        }
    };
    assert_runs(rt, &new, runs);
    assert_runs(rt, &picture, APART);
}

#[test]
fn a_picture_is_copied(rt: HostRuntime) {
    assert_makes(&rt, Derived::Copy, APART);
}

#[test]
fn weights_become_level(rt: HostRuntime) {
    const LEVEL: &[Run] = &[
        run_of!(90, -3, 2, -7),
        run_of!(1, 0, 3, -7),
        run_of!(0, -1, 3, -7),
        run_of!(-70, 0, 1, -7),
    ];
    assert_makes(&rt, Derived::Level, LEVEL);
}

#[test]
fn weights_are_chosen(rt: HostRuntime) {
    const CHOSEN: &[Run] = &[run_of!(1, 0, 2, 3)];
    assert_makes(&rt, Derived::Chosen, CHOSEN);
}

#[test]
fn columns_are_mirrored(rt: HostRuntime) {
    const MIRRORED: &[Run] = &[
        run_of!(90, 1, 2, 5),
        run_of!(1, -3, 1, 3),
        run_of!(1, -2, 2, 1),
        run_of!(0, -2, 3, -32767),
        run_of!(-70, -1, 1, -2),
    ];
    assert_makes(&rt, Derived::ColumnsMirrored, MIRRORED);
}

#[test]
fn rows_are_mirrored(rt: HostRuntime) {
    const MIRRORED: &[Run] = &[
        run_of!(69, 0, 1, -2),
        run_of!(-1, -1, 3, -32767),
        run_of!(-2, 0, 2, 1),
        run_of!(-2, 2, 1, 3),
        run_of!(-91, -3, 2, 5),
    ];
    assert_makes(&rt, Derived::RowsMirrored, MIRRORED);
}

#[test]
fn a_picture_is_turned(rt: HostRuntime) {
    const TURNED: &[Run] = &[
        run_of!(2, -2, 1, 3),
        run_of!(1, -2, 1, 1),
        run_of!(1, -1, 1, -32767),
        run_of!(0, -2, 1, 1),
        run_of!(0, -1, 1, -32767),
        run_of!(0, 69, 1, -2),
        run_of!(-1, -1, 1, -32767),
        run_of!(-2, -91, 1, 5),
        run_of!(-3, -91, 1, 5),
    ];
    assert_makes(&rt, Derived::Turned, TURNED);
}

/// Asserts that a stretch is small, so that it takes no place near 0 out of the field.
fn assert_small(rt: &impl Abort, stretch: &Stretch)
    ensures factor_least { pos 1 ≤ℤ stretch.now.factor }
    ensures factor_greatest { stretch.now.factor ≤ℤ pos 3 }
    ensures offset_least { negsuc 999 ≤ℤ stretch.now.offset }
    ensures offset_greatest { stretch.now.offset ≤ℤ pos 1000 }
{
    assert!(rt; 1 <= stretch.factor);
    assert!(rt; stretch.factor <= 3);
    assert!(rt; -1000 <= stretch.offset);
    assert!(rt; stretch.offset <= 1000);
}

/// Asserts that stretches take no pixel of a picture out of the field.
fn assert_stays_inside(rt: &impl Abort, picture: &Picture, columns: &Stretch, rows: &Stretch)
    ensures columns { IsStretch columns.now }
    ensures rows { IsStretch rows.now }
    ensures inside { PixelsStayInside columns.now rows.now picture.now }
{
    assert_small(rt, columns);
    assert_small(rt, rows);
    let bounds = picture.bounds().expect(rt, "some pixel has a weight");
    assert!(rt; -1000 <= bounds.min_x);
    assert!(rt; bounds.max_x < 1000);
    assert!(rt; -1000 <= bounds.min_y);
    assert!(rt; bounds.max_y < 1000);
}

/// Asserts that the rows, stretched while allocations fail, have these runs, and that they stay as they are.
fn assert_stretches<R: Abort + AllocGlobal>(
    rt: &R,
    columns: &Stretch,
    rows: &Stretch,
    runs: &[Run],
) {
    let picture = picture_of(rt, APART);
    assert_stays_inside(rt, &picture, columns, rows);
    refuse_growths(rt.alloc());
    let new = picture.stretch(rt.alloc(), columns, rows);
    grow_again(rt.alloc());
    assert_runs(rt, &picture, APART);
    let new = match new {
        Ok(new) => new,
        Err(fault) => {
            assert_same(rt, fault, OutOfMemory, "the stretch");
            expect_picture(rt, picture.stretch(rt.alloc(), columns, rows))
        }
    };
    assert_runs(rt, &new, runs);
    assert_runs(rt, &picture, APART);
}

#[test]
fn a_picture_is_stretched(rt: HostRuntime) {
    const STRETCHED: &[Run] = &[
        run_of!(182, -10, 6, 5),
        run_of!(181, -10, 6, 5),
        run_of!(4, -1, 6, 1),
        run_of!(4, 5, 3, 3),
        run_of!(3, -1, 6, 1),
        run_of!(3, 5, 3, 3),
        run_of!(2, -4, 9, -32767),
        run_of!(1, -4, 9, -32767),
        run_of!(-138, -1, 3, -2),
        run_of!(-139, -1, 3, -2),
    ];
    let columns = Stretch {
        factor: 3,
        offset: -1,
    };
    let rows = Stretch {
        factor: 2,
        offset: 1,
    };
    assert_stretches(&rt, &columns, &rows, STRETCHED);
}
