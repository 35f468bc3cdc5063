//! Images whose allocations are refused, one after another. Each test asserts that the picture stays as it was, and that with
//! ample memory it then has its image.

use super::{SPOTS, SPOTS_PGM, SPOTS_SVG};
use crate::tests::assertions::assert_same;
use crate::tests::{Runs, picture_of};
use mf_rows::{Picture, Run};
use mf_testing::{grow_again, refuse_all_growths, refuse_growths};
use mf_view_image::{ImageFault, pgm, svg};
use std::alloc::Global;
use std::process::Abort;

/// Asserts that a picture has exactly these runs.
fn assert_picture(rt: &impl Abort, picture: &Picture, runs: Runs) {
    for (k, (y, x, len, weight)) in runs.iter().enumerate() {
        let run = Run {
            y: *y,
            x: *x,
            len: *len,
            weight: *weight,
        };
        assert_same(rt, picture.run(k), Some(run), ("run", k));
    }
    assert_same(rt, picture.run(runs.len()), None, "the last run");
}

#[test]
fn an_svg_image_is_written(rt: HostRuntime) {
    let alloc = rt.alloc();
    let picture = picture_of(&rt, alloc, SPOTS);
    refuse_growths(alloc);
    let image = svg(alloc, &picture);
    grow_again(alloc);
    assert_picture(&rt, &picture, SPOTS);
    let image = match image {
        Ok(image) => image,
        Err(fault) => {
            assert_same(&rt, fault, ImageFault::OutOfMemory, "the refusal");
            svg(alloc, &picture).expect(&rt, "there is room for the image")
        }
    };
    assert_same(&rt, image.as_slice(), SPOTS_SVG.as_bytes(), "SVG");
}

#[test]
fn a_pgm_image_is_written(rt: HostRuntime) {
    let alloc = rt.alloc();
    let picture = picture_of(&rt, alloc, SPOTS);
    refuse_growths(alloc);
    let image = pgm(alloc, &picture);
    grow_again(alloc);
    assert_picture(&rt, &picture, SPOTS);
    let image = match image {
        Ok(image) => image,
        Err(fault) => {
            assert_same(&rt, fault, ImageFault::OutOfMemory, "the refusal");
            pgm(alloc, &picture).expect(&rt, "there is room for the image")
        }
    };
    assert_same(&rt, image.as_slice(), SPOTS_PGM, "PGM");
}

/// A run that is too long for an image is refused with `ImageTooLarge`, also where every allocation is refused.
#[test]
fn an_image_that_is_too_large_comes_before_out_of_memory(rt: HostRuntime) {
    let (alloc, long): (Global, Runs) = (rt.alloc(), &[(0, -2, 4097, 1)]);
    let picture = picture_of(&rt, alloc, long);
    refuse_all_growths(alloc);
    let text = svg(alloc, &picture);
    let bytes = pgm(alloc, &picture);
    grow_again(alloc);
    let too_large = Some(ImageFault::ImageTooLarge);
    assert_same(&rt, text.err(), too_large, "SVG without memory");
    assert_same(&rt, bytes.err(), too_large, "PGM without memory");
    assert_picture(&rt, &picture, long);
}
