//! Tiles, the characters of a frame. Each shows two cells, one above the other.
ghost use Rattle.std.specs.Prelude.{◌≡◌, ◌++◌, ◌&&◌, IfOk};
ghost use Rattle.mf_view_frame.specs.Tiles.{axis_mark, color_of, colored_tile, colors, is_blank_shade, light_tile, line_start, plain_tile, tile, tile_end};

use crate::shade::Shade;
use mf_base::OutOfMemory;

/// How a frame is drawn.
#[derive(Clone, Copy, Debug, PartialEq, Eq)]
pub enum Style {
    /// In colors, each line erasing what stood there before (ECMA-48), with empty lines above the picture where it is lower than the
    /// canvas: the frame has `Canvas::lines` lines.
    Colored,
    /// Without control codes, and without empty lines.
    Plain,
}

/// Appends the tile in this column and line whose cells have these shades.
pub(crate) fn push_tile(
    text: &mut Vec<u8>,
    style: Style,
    upper: Shade,
    lower: Shade,
    column: i32,
    line: i32,
) -> Result<(), OutOfMemory>
    ensures { IfOk result (λ _.
        text.new.items ≡ text.old.items ++ tile style (upper, lower) column line) }
{
    match style {
        Style::Plain => push(text, plain_tile(upper, lower, column, line)),
        Style::Colored => push_colored(text, upper, lower, column, line),
    }
}

/// Appends the start of a line. In colors, that erases what stood there before. It comes first, since after a character in the last
/// column of the terminal it would erase that one.
pub(crate) fn push_line_start(text: &mut Vec<u8>, style: Style) -> Result<(), OutOfMemory>
    ensures { IfOk result (λ _. text.new.items ≡ text.old.items ++ line_start style) }
{
    match style {
        Style::Plain => push(text, b""),
        Style::Colored => push(text, b"\x1B[K"),
    }
}

/// Appends the end of a line of tiles.
pub(crate) fn push_tile_end(text: &mut Vec<u8>, style: Style) -> Result<(), OutOfMemory>
    ensures { IfOk result (λ _. text.new.items ≡ text.old.items ++ tile_end style) }
{
    match style {
        Style::Plain => push(text, b"\n"),
        Style::Colored => push(text, b"\x1B[0m\n"),
    }
}

/// Appends bytes.
pub(crate) fn push(text: &mut Vec<u8>, bytes: &[u8]) -> Result<(), OutOfMemory>
    ensures { IfOk result (λ _. text.new.items ≡ text.old.items ++ bytes.now) }
{
    text.extend_from_slice(bytes)?;
    Ok(())
}

/// A tile without colors.
fn plain_tile(upper: Shade, lower: Shade, column: i32, line: i32) -> &'static [u8]
    ensures { result.now ≡ plain_tile upper lower column line }
{
    match (upper.is_dark(), lower.is_dark()) {
        (true, true) => b"\xE2\x96\x88",
        (true, false) => b"\xE2\x96\x80",
        (false, true) => b"\xE2\x96\x84",
        (false, false) => light_tile(upper, lower, column, line),
    }
}

/// A tile without colors whose cells are not dark.
fn light_tile(upper: Shade, lower: Shade, column: i32, line: i32) -> &'static [u8]
    ensures { result.now ≡ light_tile upper lower column line }
{
    if upper == Shade::Negative || lower == Shade::Negative {
        return b"\xE2\x96\x91";
    }
    axis_mark(column, line)
}

/// What marks the axis in a tile without dark cells.
fn axis_mark(column: i32, line: i32) -> &'static [u8]
    ensures { result.now ≡ axis_mark column line }
{
    if column == 0 {
        return b"\xE2\x96\x8F";
    }
    if line == 0 {
        return b"\xE2\x96\x81";
    }
    b" "
}

/// Appends a tile in colors.
fn push_colored(
    text: &mut Vec<u8>,
    upper: Shade,
    lower: Shade,
    column: i32,
    line: i32,
) -> Result<(), OutOfMemory>
    ensures { IfOk result (λ _.
        text.new.items ≡ text.old.items ++ colored_tile upper lower column line) }
{
    if are_blank(upper, lower) && (column == 0 || line == 0) {
        push_colors(text, b"250", b"255")?;
        return push(text, axis_mark(column, line));
    }
    push_colors(text, color_of(upper), color_of(lower))?;
    push(text, b"\xE2\x96\x80")
}

/// Whether two shades are both blank.
fn are_blank(upper: Shade, lower: Shade) -> bool
    ensures { result ≡ (is_blank_shade upper && is_blank_shade lower) }
{
    upper == Shade::Blank && lower == Shade::Blank
}

/// Appends what sets the color of a character and that of its background.
fn push_colors(text: &mut Vec<u8>, foreground: &[u8], background: &[u8]) -> Result<(), OutOfMemory>
    ensures { IfOk result (λ _.
        text.new.items ≡ text.old.items ++ colors foreground.now background.now) }
{
    push(text, b"\x1B[38;5;")?;
    push(text, foreground)?;
    push(text, b";48;5;")?;
    push(text, background)?;
    push(text, b"m")
}

/// The number of the color of a shade, among the 256 colors of a terminal.
fn color_of(shade: Shade) -> &'static [u8]
    ensures { result.now ≡ color_of shade }
{
    match shade {
        Shade::Blank => b"255",
        Shade::Negative => b"208",
        Shade::One => b"238",
        Shade::Two => b"25",
        Shade::More => b"16",
    }
}
