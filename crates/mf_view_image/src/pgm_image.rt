//! PGM images.
ghost use Rattle.std.specs.Prelude.{◌≡◌, ◌↔◌, ◌≤ℤ◌, ◌++◌, Err, IfOk};
ghost use Rattle.mf_geom.specs.Coordinates.{least_coordinate, last_in_field};
ghost use Rattle.mf_rows.specs.Boxes.{IsBoxOfField, extent};
ghost use Rattle.mf_text_show.specs.Grid.{shown_at, shown_row};
ghost use Rattle.mf_view_image.specs.Boxes.{IsImageBox, IsTooLargeForImage};
ghost use Rattle.mf_view_image.specs.Pgm.{gray_value, pgm_bytes, pgm_head};

use crate::bounds::image_box;
use crate::fault::ImageFault;
use mf_base::OutOfMemory;
use mf_rows::{Box4, Picture, extent};
use mf_text_show::push_number;
use std::alloc::Global;

/// The PGM image of a picture (Netpbm's portable graymap, `P5`, maxval 255): the gray value of each pixel of its least box in a
/// byte, rows in order from the top. A comment has the column of the left edge and the row of the top. The gray value of weight 0
/// is 255 (white); 1, 2 and 3 are 120, 80 and 40; 4 to 42 are 39 to 1, and what is above is 0; -1 to -54 are 200 to 253, and what
/// is below is 254. The image of the blank picture is one white pixel at the origin. Refused with `ImageTooLarge` exactly where the
/// least box is wider or higher than 4,096 pixels, and with `OutOfMemory` where an allocation fails.
pub fn pgm(alloc: Global, picture: &Picture) -> Result<Vec<u8>, ImageFault>
    ensures bytes { IfOk result (λ bytes. bytes.items ≡ pgm_bytes picture.now) }
    ensures too_large { IsTooLargeForImage picture.now ↔ (result ≡ Err ImageFault.ImageTooLarge) }
{
    let Some(bounds) = image_box(picture) else {
        return Err(ImageFault::ImageTooLarge);
    };
    Ok(pgm_bytes(alloc, picture, &bounds)?)
}

/// The PGM image of a picture in its box.
fn pgm_bytes(alloc: Global, picture: &Picture, bounds: &Box4) -> Result<Vec<u8>, OutOfMemory>
    requires { IsImageBox picture.now bounds.now }
    ensures { IfOk result (λ bytes. bytes.items ≡ pgm_bytes picture.now) }
{
    let mut bytes = Vec::new(alloc);
    push_head(&mut bytes, bounds)?;
    for y in (bounds.min_y..bounds.max_y + 1).rev() {
        push_row(&mut bytes, picture, y, bounds.min_x, bounds.max_x)?;
    }
    Ok(bytes)
}

/// Appends what comes before the gray values.
fn push_head(bytes: &mut Vec<u8>, bounds: &Box4) -> Result<(), OutOfMemory>
    requires { IsBoxOfField bounds.now }
    ensures { IfOk result (λ _. bytes.new.items ≡ bytes.old.items ++ pgm_head bounds.now) }
{
    let columns = extent(bounds.min_x, bounds.max_x);
    let rows = extent(bounds.min_y, bounds.max_y);
    bytes.extend_from_slice(b"P5\n# left ")?;
    push_number(bytes, bounds.min_x, b" top ")?;
    push_number(bytes, bounds.max_y, b"\n")?;
    push_number(bytes, columns as i32, b" ")?;
    push_number(bytes, rows as i32, b"\n255\n")
}

/// Appends the gray values of a row, from the first to the last column.
fn push_row(
    bytes: &mut Vec<u8>,
    picture: &Picture,
    y: i32,
    first: i32,
    last: i32,
) -> Result<(), OutOfMemory>
    requires least { least_coordinate ≤ℤ first }
    requires greatest { last ≤ℤ last_in_field }
    requires columns { first ≤ℤ last }
    ensures { IfOk result (λ _.
        bytes.new.items
        ≡ bytes.old.items
        ++ shown_row (shown_at gray_value picture.now y) first (extent first last)) }
{
    for x in first..last + 1 {
        bytes.push(gray_value(picture.weight(x, y)))?;
    }
    Ok(())
}

/// The gray value of a weight. A byte cannot hold every weight. So each weight in -54 to 42 has a gray value of its own, those of 1, 2
/// and 3 are easily told apart, and all weights above share one, as do all below.
fn gray_value(weight: i32) -> u8
    ensures { result ≡ gray_value weight }
{
    match weight {
        0 => 255,
        1 => 120,
        2 => 80,
        3 => 40,
        4..=42 => 43 - weight as u8,
        -54..=-1 => 199 + weight.unsigned_abs() as u8,
        _ if weight > 0 => 0,
        _ => 254,
    }
}
