//! The numbers of fonts, worked out by hand: units of 2^-20 point, and pixels per point in 1/65536, for points of 1/72.27 inch.
ghost use Rattle.std.specs.Prelude.{◌≤◌};

use super::assertions::assert_same;
use mf_view::font_words;
use std::process::Abort;

/// Asserts the numbers of a font with this design size in points and this resolution in dots per inch.
fn assert_numbers(rt: &impl Abort, points: u32, dots: u32, size: i32, pixels: i32)
    requires points { points ≤ 2047 }
    requires dots { dots ≤ 100000 }
{
    let words = font_words(points, dots);
    assert_same(rt, (words.ds, words.cs), (size, 0), "design size");
    assert_same(rt, (words.hppp, words.vppp), (pixels, pixels), "pixels");
}

/// 300 * 65536 / 72.27 is 272046.49.., 600 give 544092.98.., and 100,000 give 90682164.10..
#[test]
fn numbers_of_fonts(rt: HostRuntime) {
    assert_numbers(&rt, 0, 0, 0, 0);
    assert_numbers(&rt, 10, 300, 10_485_760, 272_046);
    assert_numbers(&rt, 1, 600, 1_048_576, 544_093);
    assert_numbers(&rt, 2047, 100_000, 2_146_435_072, 90_682_164);
}
