//! Laws of the texts of pictures. Each is the contract of a function that does nothing, because the toolchain proves a statement
//! only where the contract of a function names it.
ghost use Rattle.std.specs.Prelude.{◌≡◌, ◌<◌, ◌+◌, ◌*◌, ℕ, pos, ◌+ℤ◌, ◌-ℤ◌, List, [], ◌∷◌, None, Some, codes, length};
ghost use Rattle.mf_rows.specs.declared.bounds.Box4.{Box4};
ghost use Rattle.mf_rows.specs.Bounds.{IsLeastBox};
ghost use Rattle.mf_rows.specs.Dots.{Dot, weight_at};
ghost use Rattle.mf_rows.specs.Boxes.{box_of, box_of_dots, extent};
ghost use Rattle.mf_text_show.specs.Grid.{box_text, byte_in_line, grid_character, grid_text, line_feed};

/// The box of a picture that is computed from its dots, for grids, images and frames, is its least box, and there is no other least
/// box. The blank picture has none.
pub fn box_of_dots_is_least()
    ensures least { (d : Dot) (ds : List Dot) → IsLeastBox (d ∷ ds) (box_of_dots d ds) }
    ensures one { (ds : List Dot) (b : Box4) → IsLeastBox ds b → box_of ds ≡ Some b }
    ensures blank { box_of [] ≡ None }
{}

/// The grid text of a picture is that of its least box, and the blank picture's is the line `blank`.
#[tactic(auto, using(crate::proofs::GridTexts::grid_of_blank, crate::proofs::GridTexts::grid_of_box))]
pub fn grid_is_of_the_least_box()
    ensures drawn { (ds : List Dot) (b : Box4) → IsLeastBox ds b → grid_text ds ≡ box_text ds b }
    ensures blank { grid_text [] ≡ codes "blank\n" }
{}

/// The text of a box has a line for each of its rows, from the top, and nothing else. A line has the character of the weight of each
/// pixel, from the left, and a line feed.
#[tactic(auto, using(crate::proofs::ShownPixels::box_length, crate::proofs::ShownPixels::end_at, crate::proofs::ShownPixels::pixel_at))]
pub fn grid_has_each_pixel()
    ensures pixels { (ds : List Dot) (b : Box4) (i j : ℕ) → i < extent b.min_x b.max_x
        → j < extent b.min_y b.max_y
        → byte_in_line ds b j i
        ≡ grid_character (weight_at ds (b.min_x +ℤ pos i) (b.max_y -ℤ pos j)) }
    ensures line_feeds { (ds : List Dot) (b : Box4) (j : ℕ) → j < extent b.min_y b.max_y
        → byte_in_line ds b j (extent b.min_x b.max_x) ≡ line_feed }
    ensures whole { (ds : List Dot) (b : Box4)
        → length (box_text ds b) ≡ extent b.min_y b.max_y * (extent b.min_x b.max_x + 1) }
{}
