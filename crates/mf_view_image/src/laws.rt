//! Laws of images. Each is the contract of a function that does nothing, because the toolchain proves a statement only where the
//! contract of a function names it.
ghost use Rattle.std.specs.Prelude.{◌≡◌, ◌<◌, ◌+◌, ◌*◌, ℕ, ℤ, ◌≤ℤ◌, List, Some, drop, get_or, length};
ghost use Rattle.mf_rows.specs.Dots.{Dot, IsPicture, weight_at};
ghost use Rattle.mf_rows.specs.Boxes.{extent};
ghost use Rattle.mf_view_image.specs.Boxes.{image_box};
ghost use Rattle.mf_view_image.specs.Pgm.{gray_value, greatest_distinct_weight, least_distinct_weight, pgm_bytes, pgm_head, place_in_image, weight_in_box};
ghost use Rattle.mf_view_image.specs.Reading.{graymap_of, read_pgm, read_svg, weight_of_gray_value};
ghost use Rattle.mf_view_image.specs.Svg.{svg_text};

/// After its head, a PGM image has the gray value of each pixel of its box, rows in order from the top and columns from the left, and
/// nothing else.
pub fn pgm_has_each_pixel()
    ensures pixels { (ds : List Dot) (i j : ℕ) → let b = image_box ds in
        i < extent b.min_x b.max_x → j < extent b.min_y b.max_y
        → get_or (pgm_bytes ds) (place_in_image b i j) 0 ≡ gray_value (weight_in_box ds b i j) }
    ensures whole { (ds : List Dot)
        → let b = image_box ds in
        length (pgm_bytes ds)
        ≡ length (pgm_head b) + extent b.min_y b.max_y * extent b.min_x b.max_x }
{}

/// The head of a PGM image is read back: the left column and the top row in its comment, the numbers of columns and rows, and 255, the
/// greatest gray value. The gray values come after it.
#[tactic(auto, using(crate::proofs::ReadHeads::pgm_read))]
pub fn pgm_head_is_read_back()
    ensures { (ds : List Dot) → IsPicture ds → let b = image_box ds in
        read_pgm (pgm_bytes ds) ≡ Some (graymap_of b (drop (length (pgm_head b)) (pgm_bytes ds))) }
{}

/// The gray value of a weight in -54..=42 gives the weight back.
#[tactic(auto, using(crate::proofs::GrayValues::weight_of_its_gray_value))]
pub fn gray_values_are_read_back()
    ensures { (w : ℤ) → least_distinct_weight ≤ℤ w → w ≤ℤ greatest_distinct_weight
        → weight_of_gray_value (gray_value w) ≡ w }
{}

/// An image is read back: a reader of its text, which passes all lines but those that begin a path and those of rectangles, finds
/// the weight of each pixel.
#[tactic(auto, using(crate::proofs::ReadPaths::svg_read))]
pub fn svg_is_read_back()
    ensures { (ds : List Dot) (x y : ℤ) → IsPicture ds
        → weight_at (read_svg (svg_text ds)) x y ≡ weight_at ds x y }
{}
