//! The numbers of the font file.
ghost use Rattle.std.specs.Prelude.{◌≡◌, ◌≤◌, pos};
ghost use Rattle.mf_view.specs.Fonts.{font_words, pixels_per_point};
ghost use Rattle.mf_view_words.specs.CommandLine.{greatest_design_size, greatest_resolution};

use mf_gf::FontWords;

/// Units of the design size in a point (gftype.web).
const UNITS_PER_POINT: u32 = 1_048_576;

/// The numbers of a font with this design size in points and this resolution in dots per inch. A point is 1/72.27 inch. The check
/// sum is 0. Requires at most 2,047 points and 100,000 dots.
pub fn font_words(design_size: u32, resolution: u32) -> FontWords
    requires points { design_size ≤ greatest_design_size }
    requires dots { resolution ≤ greatest_resolution }
    ensures { result ≡ font_words design_size resolution }
{
    let pixels = pixels_per_point(resolution);
    FontWords {
        ds: (design_size * UNITS_PER_POINT) as i32,
        cs: 0,
        hppp: pixels,
        vppp: pixels,
    }
}

/// The pixels per point at this resolution, in units of 1/65536 pixel, rounded to the nearest integer.
fn pixels_per_point(resolution: u32) -> i32
    requires { resolution ≤ greatest_resolution }
    ensures { result ≡ pos (pixels_per_point resolution) }
{
    // The integer nearest to n / d is (2 * n + d) / (2 * d), where n is resolution * 65536 * 100 and d is 7227.
    ((resolution as u64 * 13_107_200 + 7_227) / 14_454) as i32
}
