//! SVG images.
ghost use Rattle.std.specs.Prelude.{◌≡◌, ◌↔◌, ◌++◌, ◌<◌, ◌≤ℤ◌, Err, IfOk, flat_map, length, pos};
ghost use Rattle.mf_rows_edges.specs.LawfulWeights.{least_weight, greatest_weight};
ghost use Rattle.mf_rows.specs.Order.{IsRun};
ghost use Rattle.mf_rows.specs.Runs.{runs_of};
ghost use Rattle.mf_rows.specs.Boxes.{IsBoxOfField};
ghost use Rattle.mf_view_image.specs.Boxes.{IsImageBox, IsTooLargeForImage};
ghost use Rattle.mf_view_image.specs.Svg.{HasImageNumbers, axes, color, cover, greatest_weight_of, least_weight_of, opening, path_of_weight};
ghost use Rattle.mf_view_image.specs.Svg.{paths, rectangle, rectangle_of, svg_text, view_box_of};

use crate::bounds::image_box;
use crate::fault::ImageFault;
use mf_base::OutOfMemory;
use mf_rows::{Box4, Picture, Run, extent};
use mf_text_show::push_number;
use std::alloc::Global;

/// What ends the line with the size of the image, and the pattern of the grid.
const GRID: &[u8] =
    b"\">\n<pattern id=\"grid\" width=\"1\" height=\"1\" patternUnits=\"userSpaceOnUse\">\
      <path d=\"M0 0h1M0 0v1\" stroke=\"#999\" stroke-width=\".06\"/></pattern>\n";

/// The SVG image of a picture (Scalable Vector Graphics 1.1): for each weight a path of rectangles, one for each maximal run, the
/// least weight first. The pixel (x, y) is the unit square with its upper left corner at (x, -(y + 1)), since y points down in SVG, and
/// the image has the least box with a margin of one pixel. Over the paths lie a grid of pixel borders, and the axes in red. Negative
/// weights are orange, 1 is dark gray, 2 blue, and 3 and more are black. The image of the blank picture has the box of the pixel at the
/// origin, and no path of a weight. Refused with `ImageTooLarge` exactly where the least box is wider or higher than 4,096 pixels, and
/// with `OutOfMemory` where an allocation fails.
pub fn svg(alloc: Global, picture: &Picture) -> Result<Vec<u8>, ImageFault>
    ensures text { IfOk result (λ text. text.items ≡ svg_text picture.now) }
    ensures too_large { IsTooLargeForImage picture.now ↔ (result ≡ Err ImageFault.ImageTooLarge) }
{
    let Some(bounds) = image_box(picture) else {
        return Err(ImageFault::ImageTooLarge);
    };
    Ok(svg_text(alloc, picture, &bounds)?)
}

/// The part of the plane that an image shows, in pixels and in SVG's coordinates: its attribute `viewBox`.
#[derive(Clone, Copy)]
struct ViewBox {
    left: i32,
    top: i32,
    width: i32,
    height: i32,
}

impl ViewBox {
    /// The view box around a box: the box with a margin of one pixel.
    fn around(bounds: &Box4) -> ViewBox
        requires { IsBoxOfField bounds.now }
        ensures value { result ≡ view_box_of bounds.now }
        ensures numbers { HasImageNumbers result }
    {
        let columns = extent(bounds.min_x, bounds.max_x);
        let rows = extent(bounds.min_y, bounds.max_y);
        ViewBox {
            left: bounds.min_x - 1,
            top: -(bounds.max_y + 2),
            width: columns as i32 + 2,
            height: rows as i32 + 2,
        }
    }

    /// Appends the size of the image, and the pattern of the grid.
    fn push_opening(&self, text: &mut Vec<u8>) -> Result<(), OutOfMemory>
        requires { HasImageNumbers self.now }
        ensures { IfOk result (λ _. text.new.items ≡ text.old.items ++ opening self.now) }
    {
        text.extend_from_slice(b"<svg xmlns=\"http://www.w3.org/2000/svg\" viewBox=\"")?;
        push_number(text, self.left, b" ")?;
        push_number(text, self.top, b" ")?;
        push_number(text, self.width, b" ")?;
        push_number(text, self.height, GRID)
    }

    /// Appends a rectangle over the whole view box that is filled with this.
    fn push_cover(&self, text: &mut Vec<u8>, fill: &[u8]) -> Result<(), OutOfMemory>
        requires { HasImageNumbers self.now }
        ensures { IfOk result (λ _. text.new.items ≡ text.old.items ++ cover self.now fill.now) }
    {
        text.extend_from_slice(b"<rect x=\"")?;
        push_number(text, self.left, b"\" y=\"")?;
        push_number(text, self.top, b"\" width=\"")?;
        push_number(text, self.width, b"\" height=\"")?;
        push_number(text, self.height, b"\" fill=\"")?;
        text.extend_from_slice(fill)?;
        text.extend_from_slice(b"\"/>\n")?;
        Ok(())
    }

    /// Appends the axes, as high and as wide as the view box. One that does not meet the view box lies outside of it.
    fn push_axes(&self, text: &mut Vec<u8>) -> Result<(), OutOfMemory>
        requires { HasImageNumbers self.now }
        ensures { IfOk result (λ _. text.new.items ≡ text.old.items ++ axes self.now) }
    {
        text.extend_from_slice(b"<path d=\"M0 ")?;
        push_number(text, self.top, b"v")?;
        push_number(text, self.height, b"M")?;
        push_number(text, self.left, b" 0h")?;
        push_number(
            text,
            self.width,
            b"\" stroke=\"#c00\" stroke-width=\".12\"/>\n",
        )
    }
}

/// The SVG image of a picture in its box.
fn svg_text(alloc: Global, picture: &Picture, bounds: &Box4) -> Result<Vec<u8>, OutOfMemory>
    requires { IsImageBox picture.now bounds.now }
    ensures { IfOk result (λ text. text.items ≡ svg_text picture.now) }
{
    let view_box = ViewBox::around(bounds);
    let mut text = Vec::new(alloc);
    view_box.push_opening(&mut text)?;
    view_box.push_cover(&mut text, b"#fff")?;
    text.extend_from_slice(b"<g shape-rendering=\"crispEdges\">\n")?;
    push_paths(alloc, &mut text, picture)?;
    text.extend_from_slice(b"</g>\n")?;
    view_box.push_cover(&mut text, b"url(#grid)")?;
    view_box.push_axes(&mut text)?;
    text.extend_from_slice(b"</svg>\n")?;
    Ok(text)
}

/// Appends the paths of all weights, the least first.
fn push_paths(alloc: Global, text: &mut Vec<u8>, picture: &Picture) -> Result<(), OutOfMemory>
    ensures { IfOk result (λ _. text.new.items ≡ text.old.items ++ paths (runs_of picture.now)) }
{
    let (least, greatest) = weights(picture);
    for weight in least..greatest + 1 {
        push_path(alloc, text, picture, weight)?;
    }
    Ok(())
}

/// The least and the greatest weight of a picture, that of blank pixels included.
fn weights(picture: &Picture) -> (i32, i32)
    ensures least { result.0 ≡ least_weight_of (runs_of picture.now) }
    ensures greatest { result.1 ≡ greatest_weight_of (runs_of picture.now) }
    ensures lawful { (least_weight ≤ℤ result.0) × (result.0 ≤ℤ pos 0) × (pos 0 ≤ℤ result.1)
        × (result.1 ≤ℤ greatest_weight) }
{
    let mut least = 0i32;
    let mut greatest = 0i32;
    for run in picture.runs() {
        least = least.min(run.weight);
        greatest = greatest.max(run.weight);
    }
    (least, greatest)
}

/// Appends the path of a weight, if a run has it.
fn push_path(
    alloc: Global,
    text: &mut Vec<u8>,
    picture: &Picture,
    weight: i32,
) -> Result<(), OutOfMemory>
    ensures { IfOk result (λ _.
        text.new.items
        ≡ text.old.items
        ++ path_of_weight weight (flat_map (rectangle_of weight) (runs_of picture.now))) }
{
    let mut rectangles = Vec::new(alloc);
    push_rectangles(&mut rectangles, picture, weight)?;
    if rectangles.is_empty() {
        return Ok(());
    }
    push_path_element(text, weight, &rectangles)
}

/// Appends the `path` element of a weight, which draws these rectangles. Requires at least one rectangle.
fn push_path_element(text: &mut Vec<u8>, weight: i32, rectangles: &[u8]) -> Result<(), OutOfMemory>
    requires { 0 < length rectangles.now }
    ensures { IfOk result (λ _.
        text.new.items ≡ text.old.items ++ path_of_weight weight rectangles.now) }
{
    text.extend_from_slice(b"<path id=\"weight")?;
    push_number(text, weight, b"\" fill=\"")?;
    text.extend_from_slice(color(weight).as_bytes())?;
    text.extend_from_slice(b"\" d=\"\n")?;
    text.extend_from_slice(rectangles)?;
    text.extend_from_slice(b"\"/>\n")?;
    Ok(())
}

/// Appends the rectangles of the runs of a weight.
fn push_rectangles(text: &mut Vec<u8>, picture: &Picture, weight: i32) -> Result<(), OutOfMemory>
    ensures { IfOk result (λ _.
        text.new.items ≡ text.old.items ++ flat_map (rectangle_of weight) (runs_of picture.now)) }
{
    for run in picture.runs() {
        push_if_weight(text, &run, weight)?;
    }
    Ok(())
}

/// Appends the rectangle of a run, if it has this weight.
fn push_if_weight(text: &mut Vec<u8>, run: &Run, weight: i32) -> Result<(), OutOfMemory>
    requires { IsRun run.now }
    ensures { IfOk result (λ _. text.new.items ≡ text.old.items ++ rectangle_of weight run.now) }
{
    if run.weight != weight {
        return Ok(());
    }
    push_rectangle(text, run)
}

/// Appends the rectangle of a run.
fn push_rectangle(text: &mut Vec<u8>, run: &Run) -> Result<(), OutOfMemory>
    requires { IsRun run.now }
    ensures { IfOk result (λ _. text.new.items ≡ text.old.items ++ rectangle run.now) }
{
    let width = run.len as i32;
    text.extend_from_slice(b"M")?;
    push_number(text, run.x, b" ")?;
    push_number(text, -(run.y + 1), b"h")?;
    push_number(text, width, b"v1h-")?;
    push_number(text, width, b"z\n")
}

/// The color of a weight.
fn color(weight: i32) -> &'static str
    ensures { result.now ≡ color weight }
{
    match weight {
        i32::MIN..=-1 => "#f80",
        0 | 1 => "#444",
        2 => "#05a",
        _ => "#000",
    }
}
