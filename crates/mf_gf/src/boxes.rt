//! Boxes of characters.
ghost use Rattle.std.specs.Prelude.{◌≡◌};
ghost use Rattle.mf_gf.specs.Boxes.{box_of_pixels, no_box, widen};
ghost use Rattle.mf_gf.specs.Pixels.{black};
ghost use Rattle.mf_rows.specs.Dots.{IsPicture};

use mf_rows::Picture;

/// The box of a character, in pixels: `min_m..=max_m` are the columns of its black pixels and one more column at the right, where
/// the painting position is after the last pixel; `min_n..=max_n` are their rows.
#[derive(Clone, Copy, Debug, PartialEq, Eq)]
pub(crate) struct CharacterBox {
    pub min_m: i32,
    pub max_m: i32,
    pub min_n: i32,
    pub max_n: i32,
}

impl CharacterBox {
    /// The box of a character with no black pixel.
    pub(crate) fn none() -> CharacterBox
        ensures { result ≡ no_box }
    {
        CharacterBox {
            min_m: 0,
            max_m: 0,
            min_n: 0,
            max_n: 0,
        }
    }

    /// The least box around an earlier box, if there is one, and another box.
    pub(crate) fn widen(bounds: Option<CharacterBox>, other: CharacterBox) -> CharacterBox
        ensures { result ≡ widen bounds other }
    {
        match bounds {
            Some(before) => CharacterBox {
                min_m: before.min_m.min(other.min_m),
                max_m: before.max_m.max(other.max_m),
                min_n: before.min_n.min(other.min_n),
                max_n: before.max_n.max(other.max_n),
            },
            None => other,
        }
    }

    /// The box of the black pixels of a picture: those of positive weight.
    #[tactic(auto, using(crate::proofs::BlackBoxes::no_black_box))]
    pub(crate) fn of_black(picture: &Picture) -> CharacterBox
        ensures value { result ≡ box_of_pixels (black picture.now) }
        ensures lawful { IsPicture picture.now }
    {
        let Some(bounds) = picture.black_bounds() else {
            return CharacterBox::none();
        };
        CharacterBox {
            min_m: bounds.min_x,
            max_m: bounds.max_x + 1,
            min_n: bounds.min_y,
            max_n: bounds.max_y,
        }
    }
}
