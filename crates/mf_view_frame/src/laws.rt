//! Laws of frames. Each is the contract of a function that does nothing, because the toolchain proves a statement only where the
//! contract of a function names it.
ghost use Rattle.std.specs.Prelude.{◌↔◌, ◌<ℤ◌, ◌≤ℤ◌, ℤ, pos, IsTrue, IsFalse, List};
ghost use Rattle.mf_rows.specs.Dots.{Dot, IsPicture};
ghost use Rattle.mf_rows.specs.declared.bounds.Box4.{Box4};
ghost use Rattle.mf_rows.specs.Boxes.{IsBoxOfField};
ghost use Rattle.mf_view_frame.specs.Canvases.{IsSize, Size};
ghost use Rattle.mf_view_frame.specs.Cells.{HasPositivePixel, cell_shade, is_dark};
ghost use Rattle.mf_view_frame.specs.Windows.{fits_on, scale_of, window_at};

/// A cell is dark exactly where one of its pixels has positive weight.
#[tactic(auto, using(crate::proofs::DarkCells::pixel_of_dark, crate::proofs::DarkCells::dark_from_pixel))]
pub fn dark_where_positive()
    ensures { (s : ℤ) (ds : List Dot) (i j : ℤ) → IsPicture ds
        → IsTrue (is_dark (cell_shade s ds i j)) ↔ HasPositivePixel s ds i j }
{}

/// The window of a box of the field fits on a canvas at its scale, which is at least 1, and at no lesser one.
#[tactic(auto, using(crate::proofs::Windows::scale_fits, crate::proofs::Windows::no_lesser_scale, crate::proofs::Windows::is_scale))]
pub fn scale_is_least()
    ensures fits { (canvas : Size) (b : Box4) → IsSize canvas → IsBoxOfField b
        → IsTrue (fits_on canvas (window_at b (scale_of canvas b))) }
    ensures least { (canvas : Size) (b : Box4) (s : ℤ) → pos 1 ≤ℤ s → s <ℤ scale_of canvas b
        → IsFalse (fits_on canvas (window_at b s)) }
    ensures positive { (canvas : Size) (b : Box4) → pos 1 ≤ℤ scale_of canvas b }
{}
