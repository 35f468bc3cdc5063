//! The box of an image.
ghost use Rattle.std.specs.Prelude.{◌↔◌, IfSome, IsNone};
ghost use Rattle.mf_view_image.specs.Boxes.{IsImageBox, IsTooLargeForImage};

use mf_rows::{Box4, Picture};

/// The greatest number of columns, and of rows, of an image.
const MAX_IMAGE_SIDE: u32 = 4096;

/// The box of the image of the blank picture: the pixel at the origin.
const ORIGIN: Box4 = Box4 {
    min_x: 0,
    max_x: 0,
    min_y: 0,
    max_y: 0,
};

/// The box of a picture's image: the least box or, where the picture is blank, that of the pixel at the origin. `None` where it is
/// wider or higher than an image may be.
#[tactic(auto, using(crate::proofs::ImageBoxes::box_of_blank, crate::proofs::ImageBoxes::blank_fits, mf_text_show::proofs::GridTexts::neither))]
pub(crate) fn image_box(picture: &Picture) -> Option<Box4>
    ensures bounds { IfSome result (IsImageBox picture.now) }
    ensures too_large { IsTooLargeForImage picture.now ↔ IsNone result }
{
    let Some(bounds) = picture.bounds() else {
        return Some(ORIGIN);
    };
    if bounds.is_larger_than(MAX_IMAGE_SIDE) {
        return None;
    }
    Some(bounds)
}
