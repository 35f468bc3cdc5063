//! Frames.
ghost use Rattle.std.specs.Prelude.{◌≡◌, ◌≤◌, ◌<◌, ◌*◌, ◌++◌, pos, ◌+ℤ◌, length, IfOk};
ghost use Rattle.mf_rows.specs.Bounds.{IsLeastBox};
ghost use Rattle.mf_rows.specs.Boxes.{IsBoxOfField};
ghost use Rattle.mf_view_frame.specs.Canvases.{picture_lines};
ghost use Rattle.mf_view_frame.specs.Cells.{shade_in};
ghost use Rattle.mf_view_frame.specs.Frames.{blank_frame, empty_lines, frame_text, heading, measures, empty_lines_above, range};
ghost use Rattle.mf_view_frame.specs.Frames.{window_line, window_lines};
ghost use Rattle.mf_view_frame.specs.declared.tile.Style.TheVariants.{Colored};
ghost use Rattle.mf_view_frame.specs.Windows.{IsWindow};

use crate::canvas::Canvas;
use crate::cells::cells_of;
use crate::shade::Shade;
use crate::tile::{Style, push, push_line_start, push_tile, push_tile_end};
use crate::window::Window;
use itoa::Buffer;
use mf_base::OutOfMemory;
use mf_rows::{Box4, Picture};
use std::alloc::Global;

/// A picture as a frame of characters, in UTF-8. Each line of a picture shows two rows of cells by half blocks. A cell is a square of
/// pixels, as many each way as the scale says: the least scale, from 1 up, with which the picture fits on the canvas. It has the shade
/// of its darkest pixel, so that nothing positive is lost: blank, negative, 1, 2, or 3 and more. Borders of cells lie on the
/// axes, which are marked where nothing else is. Below come a line `revision R  totalweight T`, and a line
/// `columns X1..X2  rows Y1..Y2  scale S` with the least box of the picture in pixels, or `blank  scale 1`. Refused with
/// `OutOfMemory` where an allocation fails.
#[tactic(auto, using(mf_rows::proofs::BoxesOfDots::no_box), unfolding(crate::specs::Frames::frame_text))]
pub fn draw(
    alloc: Global,
    picture: &Picture,
    revision: u32,
    canvas: Canvas,
    style: Style,
) -> Result<Vec<u8>, OutOfMemory>
    ensures text { IfOk result (λ text. text.items ≡ frame_text style canvas revision picture.now) }
{
    match picture.bounds() {
        Some(bounds) => draw_box(alloc, picture, revision, canvas, style, &bounds),
        None => draw_blank(alloc, picture, revision, canvas, style),
    }
}

/// The frame of a picture whose least box is this one.
fn draw_box(
    alloc: Global,
    picture: &Picture,
    revision: u32,
    canvas: Canvas,
    style: Style,
    bounds: &Box4,
) -> Result<Vec<u8>, OutOfMemory>
    requires { IsLeastBox picture.now bounds.now }
    ensures { IfOk result (λ text. text.items ≡ frame_text style canvas revision picture.now) }
{
    let total = picture.total();
    let window = Window::fitting(bounds, canvas);
    let shades = cells_of(alloc, picture, &window)?;
    let mut text = Vec::new(alloc);
    push_empty_lines_above(&mut text, style, canvas, window.lines)?;
    push_lines(&mut text, style, &shades, &window)?;
    push_heading(&mut text, style, revision, total)?;
    push_measures(&mut text, style, bounds, window.scale)?;
    Ok(text)
}

/// The frame of this picture, which is blank: no pixel is drawn, and its total weight is printed as that of any other.
#[tactic(auto, using(std::proofs::lemmas::Int::ints), unfolding(crate::specs::Frames::blank_frame))]
fn draw_blank(
    alloc: Global,
    picture: &Picture,
    revision: u32,
    canvas: Canvas,
    style: Style,
) -> Result<Vec<u8>, OutOfMemory>
    ensures { IfOk result (λ text. text.items ≡ blank_frame style canvas revision picture.now) }
{
    let total = picture.total();
    let mut text = Vec::new(alloc);
    push_empty_lines_above(&mut text, style, canvas, 0)?;
    push_heading(&mut text, style, revision, total)?;
    push_line_start(&mut text, style)?;
    push(&mut text, b"blank  scale 1\n")?;
    Ok(text)
}

/// Appends the empty lines above this number of lines of a picture.
#[tactic(auto, using(crate::proofs::FrameLines::empty_none))]
fn push_empty_lines_above(
    text: &mut Vec<u8>,
    style: Style,
    canvas: Canvas,
    lines: u32,
) -> Result<(), OutOfMemory>
    requires { lines ≤ picture_lines canvas }
    ensures { IfOk result (λ _.
        text.new.items ≡ text.old.items ++ empty_lines_above style canvas lines) }
{
    match style {
        Style::Plain => Ok(()),
        Style::Colored => push_empty_lines(text, canvas.picture_lines() - lines),
    }
}

/// Appends this number of empty lines of a colored frame.
fn push_empty_lines(text: &mut Vec<u8>, count: u32) -> Result<(), OutOfMemory>
    ensures { IfOk result (λ _. text.new.items ≡ text.old.items ++ empty_lines Colored count) }
{
    for _ in 0..count {
        push_line_start(text, Style::Colored)?;
        push(text, b"\n")?;
    }
    Ok(())
}

/// Appends the lines of a window whose cells have these shades, from the highest.
#[tactic(auto, using(crate::proofs::FrameLines::lines_none))]
fn push_lines(
    text: &mut Vec<u8>,
    style: Style,
    shades: &[Shade],
    window: &Window,
) -> Result<(), OutOfMemory>
    requires window { IsWindow window.now }
    requires count { length shades.now ≡ 2 * window.now.lines * window.now.columns }
    ensures { IfOk result (λ _.
        text.new.items
        ≡ text.old.items ++ window_lines style (shade_in window.now shades.now) window.now) }
{
    for above in (0..window.lines).rev() {
        push_line(text, style, shades, window, above)?;
    }
    Ok(())
}

/// Appends the line this far above the lowest.
fn push_line(
    text: &mut Vec<u8>,
    style: Style,
    shades: &[Shade],
    window: &Window,
    above: u32,
) -> Result<(), OutOfMemory>
    requires window { IsWindow window.now }
    requires count { length shades.now ≡ 2 * window.now.lines * window.now.columns }
    requires above { above < window.now.lines }
    ensures { IfOk result (λ _.
        text.new.items
        ≡ text.old.items
        ++ window_line style (shade_in window.now shades.now) window.now
        (window.now.line +ℤ pos above)) }
{
    let columns = window.columns as usize;
    let lower = 2 * above as usize * columns;
    let upper = lower + columns;
    let line = window.line + above as i32;
    push_line_start(text, style)?;
    for place in 0..columns {
        let column = window.column + place as i32;
        push_tile(
            text,
            style,
            shades[upper + place],
            shades[lower + place],
            column,
            line,
        )?;
    }
    push_tile_end(text, style)
}

/// Appends the line with the revision and the total weight.
fn push_heading(
    text: &mut Vec<u8>,
    style: Style,
    revision: u32,
    total: i64,
) -> Result<(), OutOfMemory>
    ensures { IfOk result (λ _. text.new.items ≡ text.old.items ++ heading style revision total) }
{
    let mut buffer = Buffer::new();
    push_line_start(text, style)?;
    push(text, b"revision ")?;
    push(text, buffer.format(revision).as_bytes())?;
    push(text, b"  totalweight ")?;
    push(text, buffer.format(total).as_bytes())?;
    push(text, b"\n")
}

/// Appends the line with a box and its scale.
fn push_measures(
    text: &mut Vec<u8>,
    style: Style,
    bounds: &Box4,
    scale: i32,
) -> Result<(), OutOfMemory>
    requires { IsBoxOfField bounds.now }
    ensures { IfOk result (λ _.
        text.new.items ≡ text.old.items ++ measures style bounds.now scale) }
{
    push_line_start(text, style)?;
    push_range(text, b"columns ", bounds.min_x, bounds.max_x)?;
    push_range(text, b"  rows ", bounds.min_y, bounds.max_y)?;
    let mut buffer = Buffer::new();
    push(text, b"  scale ")?;
    push(text, buffer.format(scale).as_bytes())?;
    push(text, b"\n")
}

/// Appends a name and the two ends of a range.
fn push_range(text: &mut Vec<u8>, name: &[u8], first: i32, last: i32) -> Result<(), OutOfMemory>
    ensures { IfOk result (λ _. text.new.items ≡ text.old.items ++ name.now ++ range first last) }
{
    let mut buffer = Buffer::new();
    push(text, name)?;
    push(text, buffer.format(first).as_bytes())?;
    push(text, b"..")?;
    push(text, buffer.format(last).as_bytes())
}
