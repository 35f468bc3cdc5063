//! SVG and PGM images.

mod growths;

use super::{LETTER, Runs, picture_of};
use crate::tests::assertions::assert_same;
use mf_rows::Picture;
use mf_view_image::{ImageFault, pgm, svg};
use std::alloc::Global;
use std::process::Abort;

/// Three weights, of which one is negative, around the origin.
pub(super) const SPOTS: Runs = &[(0, -3, 2, -2), (0, 1, 1, 1), (-2, -1, 1, 7)];

/// The SVG image of the blank picture: the pixel at the origin with a margin of one pixel, so columns -1..=1 and rows -1..=1, whose upper
/// edge is at -2 in SVG.
const BLANK_SVG: &str = "\
<svg xmlns=\"http://www.w3.org/2000/svg\" viewBox=\"-1 -2 3 3\">\n\
<pattern id=\"grid\" width=\"1\" height=\"1\" patternUnits=\"userSpaceOnUse\"><path d=\"M0 0h1M0 0v1\" stroke=\"#999\" stroke-width=\".06\"/></pattern>\n\
<rect x=\"-1\" y=\"-2\" width=\"3\" height=\"3\" fill=\"#fff\"/>\n\
<g shape-rendering=\"crispEdges\">\n\
</g>\n\
<rect x=\"-1\" y=\"-2\" width=\"3\" height=\"3\" fill=\"url(#grid)\"/>\n\
<path d=\"M0 -2v3M-1 0h3\" stroke=\"#c00\" stroke-width=\".12\"/>\n\
</svg>\n";

/// The SVG image of the letter. Its box is columns 0..=7 and rows 0..=5. Row 5 is from -6 to -5 in SVG.
const LETTER_SVG: &str = "\
<svg xmlns=\"http://www.w3.org/2000/svg\" viewBox=\"-1 -7 10 8\">\n\
<pattern id=\"grid\" width=\"1\" height=\"1\" patternUnits=\"userSpaceOnUse\"><path d=\"M0 0h1M0 0v1\" stroke=\"#999\" stroke-width=\".06\"/></pattern>\n\
<rect x=\"-1\" y=\"-7\" width=\"10\" height=\"8\" fill=\"#fff\"/>\n\
<g shape-rendering=\"crispEdges\">\n\
<path id=\"weight1\" fill=\"#444\" d=\"\n\
M0 -6h3v1h-3z\n\
M5 -6h3v1h-3z\n\
M0 -5h3v1h-3z\n\
M5 -5h3v1h-3z\n\
M3 -4h2v1h-2z\n\
M3 -3h2v1h-2z\n\
M3 -2h2v1h-2z\n\
M3 -1h2v1h-2z\n\
\"/>\n\
<path id=\"weight2\" fill=\"#05a\" d=\"\n\
M3 -6h2v1h-2z\n\
M3 -5h2v1h-2z\n\
\"/>\n\
</g>\n\
<rect x=\"-1\" y=\"-7\" width=\"10\" height=\"8\" fill=\"url(#grid)\"/>\n\
<path d=\"M0 -7v8M-1 0h10\" stroke=\"#c00\" stroke-width=\".12\"/>\n\
</svg>\n";

/// The SVG image of the spots. Their box is columns -3..=1 and rows -2..=0. Row -2 is from 1 to 2 in SVG.
pub(super) const SPOTS_SVG: &str = "\
<svg xmlns=\"http://www.w3.org/2000/svg\" viewBox=\"-4 -2 7 5\">\n\
<pattern id=\"grid\" width=\"1\" height=\"1\" patternUnits=\"userSpaceOnUse\"><path d=\"M0 0h1M0 0v1\" stroke=\"#999\" stroke-width=\".06\"/></pattern>\n\
<rect x=\"-4\" y=\"-2\" width=\"7\" height=\"5\" fill=\"#fff\"/>\n\
<g shape-rendering=\"crispEdges\">\n\
<path id=\"weight-2\" fill=\"#f80\" d=\"\n\
M-3 -1h2v1h-2z\n\
\"/>\n\
<path id=\"weight1\" fill=\"#444\" d=\"\n\
M1 -1h1v1h-1z\n\
\"/>\n\
<path id=\"weight7\" fill=\"#000\" d=\"\n\
M-1 1h1v1h-1z\n\
\"/>\n\
</g>\n\
<rect x=\"-4\" y=\"-2\" width=\"7\" height=\"5\" fill=\"url(#grid)\"/>\n\
<path d=\"M0 -2v5M-4 0h7\" stroke=\"#c00\" stroke-width=\".12\"/>\n\
</svg>\n";

/// Heads and bytes of PGM images. In bytes, 120 is `x` and 80 is `P`.
const BLANK_PGM: &[u8] = b"P5\n# left 0 top 0\n1 1\n255\n\xff";

const LETTER_PGM: &[u8] = b"P5\n# left 0 top 5\n8 6\n255\n\
xxxPPxxx\
xxxPPxxx\
\xff\xff\xffxx\xff\xff\xff\
\xff\xff\xffxx\xff\xff\xff\
\xff\xff\xffxx\xff\xff\xff\
\xff\xff\xffxx\xff\xff\xff";

/// -2 is 201, and 7 is 36, in bytes `$`.
pub(super) const SPOTS_PGM: &[u8] = b"P5\n# left -3 top 0\n5 3\n255\n\
\xc9\xc9\xff\xffx\
\xff\xff\xff\xff\xff\
\xff\xff$\xff\xff";

/// Asserts that a picture has this SVG image and this PGM image.
fn assert_images(rt: &impl Abort, alloc: Global, picture: &Picture, text: &str, bytes: &[u8]) {
    let found = svg(alloc, picture).expect(rt, "the SVG image is not too large");
    assert_same(rt, found.as_slice(), text.as_bytes(), "SVG");
    let found = pgm(alloc, picture).expect(rt, "the PGM image is not too large");
    assert_same(rt, found.as_slice(), bytes, "PGM");
}

#[test]
fn images_of_the_blank_picture(rt: HostRuntime) {
    let alloc = rt.alloc();
    assert_images(&rt, alloc, &Picture::blank(alloc), BLANK_SVG, BLANK_PGM);
}

#[test]
fn images_of_a_letter(rt: HostRuntime) {
    let alloc = rt.alloc();
    let letter = picture_of(&rt, alloc, LETTER);
    assert_images(&rt, alloc, &letter, LETTER_SVG, LETTER_PGM);
}

#[test]
fn images_of_spots(rt: HostRuntime) {
    let alloc = rt.alloc();
    let spots = picture_of(&rt, alloc, SPOTS);
    assert_images(&rt, alloc, &spots, SPOTS_SVG, SPOTS_PGM);
}

/// Asserts that the picture of these runs is too large for images, or that it is not.
fn assert_too_large(rt: &impl Abort, alloc: Global, runs: Runs, too_large: bool) {
    let picture = picture_of(rt, alloc, runs);
    let fault = if too_large {
        Some(ImageFault::ImageTooLarge)
    } else {
        None
    };
    assert_same(rt, svg(alloc, &picture).err(), fault, ("SVG", runs.len()));
    assert_same(rt, pgm(alloc, &picture).err(), fault, ("PGM", runs.len()));
}

#[test]
fn images_have_4096_columns_and_rows_at_most(rt: HostRuntime) {
    let alloc = rt.alloc();
    assert_too_large(&rt, alloc, &[(0, -1, 4096, 1)], false);
    assert_too_large(&rt, alloc, &[(0, -2, 4097, 1)], true);
    assert_too_large(&rt, alloc, &[(4094, 0, 1, 1), (-1, 0, 1, 1)], false);
    assert_too_large(&rt, alloc, &[(4094, 0, 1, 1), (-2, 0, 1, 1)], true);
}
