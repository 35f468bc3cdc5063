//! The slow form of a picture: the list of its pixels. Its answers are worked out pixel by pixel, and tests compare
//! those of pictures with them.

use super::black_rows::assert_stretches;
use super::{assert_equality, assert_runs_in, expect_picture};
use crate::tests::assertions::assert_same;
use mf_base::OutOfMemory;
use mf_rows::{Box4, Picture, RowBuilder, Run};
use std::alloc::Global;
use std::process::Abort;

/// The number of pixels of a row of the field; no run is longer.
const ROW_LEN: u32 = 8190;

/// How far away from a pixel the weights of other pixels are compared.
const NEAR: [i32; 5] = [-2, -1, 0, 1, 2];

/// Pixels whose weights are compared in every picture: in the middle of the field, at two of its corners, and
/// outside.
const FIXED: [(i32, i32); 5] = [(0, 0), (-4095, 4094), (4094, -4095), (4095, 0), (0, -4096)];

/// A pixel of nonzero weight.
#[derive(Clone, Copy, Debug, PartialEq, Eq)]
pub(crate) struct Pixel {
    pub(crate) y: i32,
    pub(crate) x: i32,
    pub(crate) weight: i32,
}

impl Pixel {
    /// The run of this pixel alone.
    fn as_run(&self) -> Run {
        Run {
            y: self.y,
            x: self.x,
            len: 1,
            weight: self.weight,
        }
    }

    /// The least box round a box, if there is one, and this pixel.
    fn widen(&self, bounds: Option<Box4>) -> Box4 {
        let bounds = bounds.unwrap_or(Box4 {
            min_x: self.x,
            max_x: self.x,
            min_y: self.y,
            max_y: self.y,
        });
        Box4 {
            min_x: bounds.min_x.min(self.x),
            max_x: bounds.max_x.max(self.x),
            min_y: bounds.min_y.min(self.y),
            max_y: bounds.max_y.max(self.y),
        }
    }
}

/// The pixels of a picture: rows from the top down, columns from left to right.
#[derive(Debug, Drop)]
pub(crate) struct SlowPicture {
    pixels: Vec<Pixel>,
}

impl SlowPicture {
    /// The picture with no pixel.
    pub(crate) fn blank(alloc: Global) -> SlowPicture {
        SlowPicture {
            pixels: Vec::new(alloc),
        }
    }

    /// Adds the pixel (x, y), which comes after the others, unless its weight is 0.
    pub(crate) fn push_pixel(&mut self, x: i32, y: i32, weight: i32) -> Result<(), OutOfMemory> {
        if weight != 0 {
            self.pixels.push(Pixel { y, x, weight })?;
        }
        Ok(())
    }

    /// Adds the pixels of a run, which come after the others.
    pub(crate) fn push_run(&mut self, run: &Run) -> Result<(), OutOfMemory> {
        for column in 0..run.len.min(ROW_LEN) {
            self.push_pixel(run.x.wrapping_add(column as i32), run.y, run.weight)?;
        }
        Ok(())
    }

    /// The weight of the pixel (x, y).
    pub(crate) fn weight(&self, x: i32, y: i32) -> i32 {
        for pixel in &self.pixels {
            if pixel.x == x && pixel.y == y {
                return pixel.weight;
            }
        }
        0
    }

    /// The sum of all weights.
    pub(crate) fn total(&self) -> i64 {
        let mut sum = 0i64;
        for pixel in &self.pixels {
            sum = sum.wrapping_add(i64::from(pixel.weight));
        }
        sum
    }

    /// The least box of the pixels.
    pub(crate) fn bounds(&self) -> Option<Box4> {
        let mut bounds = None;
        for pixel in &self.pixels {
            bounds = Some(pixel.widen(bounds));
        }
        bounds
    }

    /// The picture of its pixels of positive weight, which have weight 1 there.
    fn black(&self, alloc: Global) -> Result<SlowPicture, OutOfMemory> {
        let mut black = SlowPicture::blank(alloc);
        for pixel in &self.pixels {
            if pixel.weight > 0 {
                black.push_pixel(pixel.x, pixel.y, 1)?;
            }
        }
        Ok(black)
    }

    /// The maximal runs: each begins at a pixel whose left neighbour has another weight.
    pub(crate) fn runs(&self, alloc: Global) -> Result<Vec<Run>, OutOfMemory> {
        let mut runs = Vec::new(alloc);
        for pixel in &self.pixels {
            if self.weight(pixel.x.wrapping_sub(1), pixel.y) != pixel.weight {
                runs.push(self.run_from(pixel))?;
            }
        }
        Ok(runs)
    }

    /// The run from a pixel to the right, up to the first pixel of another weight.
    fn run_from(&self, first: &Pixel) -> Run {
        let mut len = 0;
        for column in 0..ROW_LEN {
            if self.weight(first.x.wrapping_add(column as i32), first.y) != first.weight {
                break;
            }
            len = column + 1;
        }
        Run {
            y: first.y,
            x: first.x,
            len,
            weight: first.weight,
        }
    }

    /// Asserts that a picture answers all calls as this one does.
    pub(crate) fn assert_answers_of<R: Abort + AllocGlobal>(
        &self,
        rt: &R,
        case: usize,
        picture: &Picture,
    ) {
        self.assert_weights_of(rt, case, picture);
        self.assert_equality_of(rt, case, picture);
        assert_same(rt, picture.total(), self.total(), ("total in case", case));
        assert_same(
            rt,
            picture.bounds(),
            self.bounds(),
            ("bounds in case", case),
        );
        self.assert_black_of(rt, case, picture);
        let runs = self
            .runs(rt.alloc())
            .expect(rt, "there is room for the runs");
        assert_runs_in(rt, case, picture, &runs);
    }

    /// Asserts that the black pixels of a picture are those of this one.
    fn assert_black_of<R: Abort + AllocGlobal>(&self, rt: &R, case: usize, picture: &Picture) {
        let black = self
            .black(rt.alloc())
            .expect(rt, "there is room for the black pixels");
        assert_same(
            rt,
            picture.black_bounds(),
            black.bounds(),
            ("black bounds in case", case),
        );
        let runs = black
            .runs(rt.alloc())
            .expect(rt, "there is room for the black runs");
        assert_stretches(rt, case, picture, &runs);
    }

    /// Asserts that a picture is equal to that of the pixels, and not to that of all but the last of them.
    fn assert_equality_of<R: Abort + AllocGlobal>(&self, rt: &R, case: usize, picture: &Picture) {
        let same = picture_of_pixels(rt, &self.pixels);
        assert_equality(rt, picture, &same, true, ("equality in case", case));
        if let Some((_, others)) = self.pixels.split_last() {
            let other = picture_of_pixels(rt, others);
            assert_equality(rt, picture, &other, false, ("difference in case", case));
        }
    }

    /// Asserts that a picture has the weights of this one: at its pixels, near them, and at some others.
    fn assert_weights_of(&self, rt: &impl Abort, case: usize, picture: &Picture) {
        for (x, y) in FIXED {
            self.assert_weight_of(rt, case, picture, x, y);
        }
        for pixel in &self.pixels {
            self.assert_weights_near(rt, case, picture, pixel);
        }
    }

    /// Asserts that a picture has the weights of this one near a pixel.
    fn assert_weights_near(&self, rt: &impl Abort, case: usize, picture: &Picture, pixel: &Pixel) {
        for up in NEAR {
            for right in NEAR {
                let (x, y) = (pixel.x.wrapping_add(right), pixel.y.wrapping_add(up));
                self.assert_weight_of(rt, case, picture, x, y);
            }
        }
    }

    /// Asserts that a picture has the weight of this one at the pixel (x, y).
    fn assert_weight_of(&self, rt: &impl Abort, case: usize, picture: &Picture, x: i32, y: i32) {
        let weight = self.weight(x, y);
        assert_same(
            rt,
            picture.weight(x, y),
            weight,
            ("weight at", x, y, "in case", case),
        );
    }
}

/// The picture of pixels, each of which is pushed as a run of its own.
fn picture_of_pixels<R: Abort + AllocGlobal>(rt: &R, pixels: &[Pixel]) -> Picture {
    let mut builder = RowBuilder::new(rt.alloc());
    for pixel in pixels {
        push_if_it_fits(rt, &mut builder, pixel.as_run());
    }
    expect_picture(rt, builder.finish())
}

/// Pushes a run on a builder if it fits. Answers whether it does.
fn push_if_it_fits(rt: &impl Abort, builder: &mut RowBuilder, run: Run) -> bool {
    let fits = builder.fits(&run);
    if fits {
        builder
            .push_run(run)
            .expect(rt, "there is room for the run");
    }
    fits
}

/// The picture of those of these runs that lie in the field, and its slow form. The runs must come in reading order.
pub(crate) fn both_forms<R: Abort + AllocGlobal>(rt: &R, runs: &[Run]) -> (Picture, SlowPicture) {
    let mut builder = RowBuilder::new(rt.alloc());
    let mut slow = SlowPicture::blank(rt.alloc());
    for run in runs {
        let in_field = i64::from(run.x) + i64::from(run.len) <= 4095;
        let fits = push_if_it_fits(rt, &mut builder, *run);
        assert_same(rt, fits, in_field, ("fits", *run));
        if fits {
            slow.push_run(run).expect(rt, "there is room for pixels");
        }
    }
    (expect_picture(rt, builder.finish()), slow)
}
