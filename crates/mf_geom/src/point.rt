//! Points of the plane, in pixels.

/// The greatest absolute value of a vertex's coordinate, in pixels (mf.web: 4095).
pub const MAX_COORDINATE: i32 = 4095;

/// A point of the plane, with integer coordinates in pixels. The pixel (x, y) is the unit square from (x, y) to (x + 1,
/// y + 1).
#[derive(Clone, Copy, Debug, PartialEq, Eq)]
pub struct Point {
    /// In pixels, increasing to the right.
    pub x: i32,
    /// In pixels, increasing upwards.
    pub y: i32,
}
