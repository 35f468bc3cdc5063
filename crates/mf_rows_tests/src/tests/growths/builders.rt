//! Builders of pictures in which allocations fail.

use super::APART;
use crate::tests::assertions::assert_same;
use crate::tests::runs::assert_fits;
use crate::tests::{assert_runs, assert_weights, builder_of, expect_picture, push_all};
use mf_base::OutOfMemory;
use mf_rows::{RowBuilder, Run};
use mf_testing::{grow_again, refuse_growths};
use std::process::Abort;

/// A run that is pushed after others while allocations fail.
struct Push {
    before: &'static [Run],
    run: Run,
    after: &'static [Run],
    /// Runs that fit after those before, and runs that do not.
    fitting: &'static [Run],
    others: &'static [Run],
    /// The runs of the picture of them all.
    all: &'static [Run],
}

/// The first run: it allocates the list of runs.
const FIRST: Push = Push {
    before: &[],
    run: run_of!(5, 0, 2, 1),
    after: &[run_of!(5, 3, 1, 2), run_of!(4, 0, 1, 1)],
    fitting: &[
        run_of!(4094, -4095, 1, 1),
        run_of!(5, 0, 2, 1),
        run_of!(-4095, 4094, 1, -32767),
    ],
    others: &[run_of!(5, 0, 0, 1), run_of!(5, 4094, 2, 1)],
    all: &[
        run_of!(5, 0, 2, 1),
        run_of!(5, 3, 1, 2),
        run_of!(4, 0, 1, 1),
    ],
};

/// A fifth run, in a row of its own: a list of four runs grows.
const FIFTH_ROW: Push = Push {
    before: &[
        run_of!(5, 0, 1, 1),
        run_of!(4, 1, 1, 1),
        run_of!(3, 2, 1, 1),
        run_of!(2, 3, 2, 1),
    ],
    run: run_of!(1, 4, 1, 1),
    after: &[run_of!(1, 6, 1, 2), run_of!(0, 5, 1, 1)],
    fitting: &[
        run_of!(2, 5, 1, 1),
        run_of!(1, -7, 3, 2),
        run_of!(1, 4, 1, 1),
    ],
    others: &[run_of!(2, 4, 1, 1), run_of!(3, 9, 1, 1)],
    all: &[
        run_of!(5, 0, 1, 1),
        run_of!(4, 1, 1, 1),
        run_of!(3, 2, 1, 1),
        run_of!(2, 3, 2, 1),
        run_of!(1, 4, 1, 1),
        run_of!(1, 6, 1, 2),
        run_of!(0, 5, 1, 1),
    ],
};

/// A fifth run, which touches the fourth.
const TOUCHING: Push = Push {
    before: &[
        run_of!(2, 0, 1, 1),
        run_of!(1, 0, 1, 1),
        run_of!(0, 0, 2, 7),
        run_of!(0, 4, 2, 7),
    ],
    run: run_of!(0, 6, 3, -7),
    after: &[],
    fitting: &[
        run_of!(0, 6, 1, 1),
        run_of!(0, 6, 3, -7),
        run_of!(-1, 0, 1, 1),
    ],
    others: &[run_of!(0, 5, 1, 1), run_of!(1, 0, 1, 1)],
    all: &[
        run_of!(2, 0, 1, 1),
        run_of!(1, 0, 1, 1),
        run_of!(0, 0, 2, 7),
        run_of!(0, 4, 2, 7),
        run_of!(0, 6, 3, -7),
    ],
};

/// Two rows of three pixels.
const RECTANGLE: &[Run] = &[run_of!(1, 0, 3, 1), run_of!(0, 0, 3, 1)];

/// Pushes a run, which must fit, while allocations fail. Returns whether it was pushed, and asserts that it was refused with
/// `OutOfMemory` where it was not.
fn is_pushed_while_refused<R: Abort + AllocGlobal>(
    rt: &R,
    builder: &mut RowBuilder,
    run: Run,
) -> bool {
    assert!(rt; builder.fits(&run), "{run:?} does not fit");
    refuse_growths(rt.alloc());
    let pushed = builder.push_run(run);
    grow_again(rt.alloc());
    if let Err(fault) = pushed {
        assert_same(rt, fault, OutOfMemory, run);
        return false;
    }
    true
}

/// Asserts that the same runs fit a builder as before the push.
fn assert_fits_as_before(rt: &impl Abort, builder: &RowBuilder, push: &Push) {
    assert_fits(rt, builder, push.fitting, true);
    assert_fits(rt, builder, push.others, false);
}

/// Asserts that a builder that refused the run is as it was: the same runs fit, and with the run and those after it it
/// makes the picture of them all.
fn assert_pushed<R: Abort + AllocGlobal>(rt: &R, push: &Push) {
    let mut builder = builder_of(rt, push.before);
    assert_fits_as_before(rt, &builder, push);
    if !is_pushed_while_refused(rt, &mut builder, push.run) {
        assert_fits_as_before(rt, &builder, push);
        push_all(rt, &mut builder, &[push.run]);
    }
    push_all(rt, &mut builder, push.after);
    assert_runs(rt, &expect_picture(rt, builder.finish()), push.all);
}

/// Asserts that a builder that refused the run makes the picture without it.
fn assert_left_out<R: Abort + AllocGlobal>(rt: &R, push: &Push) {
    let mut builder = builder_of(rt, push.before);
    let (runs, weight) = if is_pushed_while_refused(rt, &mut builder, push.run) {
        (push.all, push.run.weight)
    } else {
        (push.before, 0)
    };
    let picture = expect_picture(rt, builder.finish());
    assert_runs(rt, &picture, runs);
    assert_weights(rt, &picture, &[(push.run.x, push.run.y, weight)]);
}

#[test]
fn a_first_run_is_pushed(rt: HostRuntime) {
    assert_pushed(&rt, &FIRST);
}

#[test]
fn a_run_of_a_fifth_row_is_pushed(rt: HostRuntime) {
    assert_pushed(&rt, &FIFTH_ROW);
}

#[test]
fn a_run_that_touches_the_last_is_pushed(rt: HostRuntime) {
    assert_pushed(&rt, &TOUCHING);
}

#[test]
fn a_refused_run_is_left_out(rt: HostRuntime) {
    assert_left_out(&rt, &TOUCHING);
}

/// More runs than a list has room for at first, the last two of them at the bottom of the field.
const MANY_ROWS: &[Run] = &[
    run_of!(5, 0, 1, 1),
    run_of!(4, 1, 1, 2),
    run_of!(3, 2, 1, 3),
    run_of!(2, 3, 2, -32767),
    run_of!(1, -4095, 8190, 32767),
    run_of!(-4094, 0, 1, 1),
    run_of!(-4094, 1, 1, -1),
    run_of!(-4095, 4094, 1, 1),
];

/// Asserts that the runs make their picture when a builder is finished while allocations fail. A builder that is
/// refused is gone, and then another one with the same runs makes the picture.
fn assert_finished<R: Abort + AllocGlobal>(rt: &R, runs: &[Run]) {
    let builder = builder_of(rt, runs);
    refuse_growths(rt.alloc());
    let picture = builder.finish();
    grow_again(rt.alloc());
    let picture = match picture {
        Ok(picture) => picture,
        Err(fault) => {
            assert_same(rt, fault, OutOfMemory, "the end");
            expect_picture(rt, builder_of(rt, runs).finish())
        }
    };
    assert_runs(rt, &picture, runs);
}

#[test]
fn a_rectangle_is_finished(rt: HostRuntime) {
    assert_finished(&rt, RECTANGLE);
}

#[test]
fn a_picture_is_finished(rt: HostRuntime) {
    assert_finished(&rt, APART);
}

#[test]
fn a_picture_of_many_rows_is_finished(rt: HostRuntime) {
    assert_finished(&rt, MANY_ROWS);
}
