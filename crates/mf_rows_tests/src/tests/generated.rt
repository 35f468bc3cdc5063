//! Pictures of random runs, compared with their slow forms.

use super::chance::Chance;
use super::slow::{SlowPicture, both_forms};
use super::{assert_runs, assert_weights, copy_of, expect_picture, make_run};
use crate::tests::assertions::assert_holds;
use mf_base::OutOfMemory;
use mf_rows::{Picture, RowBuilder, Run};
use mf_rows_edges::FIELD_START;
use std::alloc::Global;
use std::process::Abort;

/// Rows at the edges of the field, in its middle, and between these; some of them are next to each other.
const ROWS: [i32; 13] = [
    4094, 4093, 4031, 4030, 3967, 3966, 1, 0, -1, -4033, -4034, -4094, -4095,
];

/// Columns at which rows begin: the first of the field, one in its middle, and one near the last.
const STARTS: [i32; 3] = [-4095, -9, 4075];

/// Weights of runs: only a few, so that touching runs often have equal or opposite weights.
const WEIGHTS: [i32; 5] = [1, -1, 2, 32767, -32767];

/// The number of pictures for each of the starts.
const PICTURES: u32 = 12;

/// The picture of random runs, and its slow form.
fn random_forms<R: Abort + AllocGlobal>(rt: &R, seed: u32, start: i32) -> (Picture, SlowPicture) {
    let runs = random_runs(rt.alloc(), seed, start);
    both_forms(rt, &runs.expect(rt, "there is room for the runs"))
}

/// Adds up to six random runs in a row, from the pixel (start, y) on. Each comes after a gap of at most two columns, and has at most four
/// pixels.
fn push_runs(
    chance: &mut Chance,
    runs: &mut Vec<Run>,
    start: i32,
    y: i32,
) -> Result<(), OutOfMemory> {
    let mut x = start;
    for _ in 0..chance.below(7) {
        x = x.wrapping_add(chance.below(3) as i32);
        let len = 1 + chance.below(4);
        runs.push(make_run(y, x, len, chance.one_of(&WEIGHTS)))?;
        x = x.wrapping_add(len as i32);
    }
    Ok(())
}

/// Random runs in each of the rows. Some go beyond the right edge of the field. Other starts give other runs.
fn random_runs(alloc: Global, seed: u32, start: i32) -> Result<Vec<Run>, OutOfMemory> {
    let mut chance = Chance::new(seed.wrapping_add(start.abs_diff(FIELD_START)));
    let mut runs = Vec::new(alloc);
    for y in ROWS {
        push_runs(&mut chance, &mut runs, start, y)?;
    }
    Ok(runs)
}

/// Asserts that pictures of random runs, from this column on, answer like their slow forms.
fn assert_pictures_from<R: Abort + AllocGlobal>(rt: &R, start: i32) {
    for seed in 0..PICTURES {
        let (picture, slow) = random_forms(rt, seed, start);
        assert_holds(rt, slow.bounds().is_some(), ("runs of case", seed));
        slow.assert_answers_of(rt, seed as usize, &picture);
    }
}

/// Asserts that copies of random pictures answer like the pictures, even after these are gone.
fn assert_copies<R: Abort + AllocGlobal>(rt: &R) {
    for seed in 0..PICTURES {
        let (picture, slow) = random_forms(rt, seed, -9);
        let copy = copy_of(rt, &picture);
        slow.assert_answers_of(rt, seed as usize, &copy);
        drop(picture);
        slow.assert_answers_of(rt, seed as usize, &copy);
    }
}

/// Asserts that the picture of this pixel alone answers like its slow form.
fn assert_pixel<R: Abort + AllocGlobal>(rt: &R, x: i32, y: i32, weight: i32) {
    let run = make_run(y, x, 1, weight);
    let (picture, slow) = both_forms(rt, &[run]);
    assert_weights(rt, &picture, &[(x, y, weight)]);
    assert_runs(rt, &picture, &[run]);
    slow.assert_answers_of(rt, 0, &picture);
}

#[test]
fn answer_like_their_slow_forms(rt: HostRuntime) {
    for start in STARTS {
        assert_pictures_from(&rt, start);
    }
}

#[test]
fn copies_answer_like_their_originals(rt: HostRuntime) {
    assert_copies(&rt);
}

#[test]
fn blank_pictures_answer_like_their_slow_form(rt: HostRuntime) {
    let slow = SlowPicture::blank(rt.alloc());
    let blank = Picture::blank(rt.alloc());
    slow.assert_answers_of(&rt, 0, &blank);
    slow.assert_answers_of(&rt, 1, &copy_of(&rt, &blank));
    let empty = expect_picture(&rt, RowBuilder::new(rt.alloc()).finish());
    slow.assert_answers_of(&rt, 2, &empty);
}

#[test]
fn single_pixels_answer_like_their_slow_forms(rt: HostRuntime) {
    for (x, y) in [(-4095, 4094), (4094, 4094), (-4095, -4095), (4094, -4095)] {
        assert_pixel(&rt, x, y, 1);
        assert_pixel(&rt, x, y, -32767);
    }
}
