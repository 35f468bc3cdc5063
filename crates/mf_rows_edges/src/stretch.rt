//! Stretches of an axis.

/// A stretch of the columns, or of the rows, of a picture. It takes the point `x` of the axis to `x * factor + offset`,
/// in pixels, so each column becomes `factor` columns. A picture is stretched by factors in 1..=4095, and by offsets
/// that keep its pixels in the field. A negative factor says where a reflection and a stretch together take a point.
#[derive(Clone, Copy, Debug, PartialEq, Eq)]
pub struct Stretch {
    pub factor: i32,
    pub offset: i32,
}
