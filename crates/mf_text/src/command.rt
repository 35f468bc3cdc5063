//! The commands of the language.
use mf_geom::{Check, Cycle};
use mf_ops::{Cull, Quarter, Scale, Weight};
use mf_rows::Sign;

/// The picture that a command names.
#[derive(Clone, Copy, Debug, PartialEq, Eq)]
pub enum Name {
    /// `currentpicture`
    Current,
    /// A register `a`..`z`, by its number in 0..=25.
    Register(u8),
}

/// The picture that a command reads: `nullpicture` or a named one.
#[derive(Clone, Copy, Debug, PartialEq, Eq)]
pub enum Source {
    /// `nullpicture`
    Null,
    /// `currentpicture` or a register
    Named(Name),
}

/// What a line of a script asks for, with its values checked.
#[derive(Debug, Drop)]
pub enum Command {
    /// No command: a line without tokens, such as an empty one or a comment, or `;` alone
    Nothing,
    /// `addto p contour ..`; its cycle has not passed the turning check yet
    Contour(Name, Cycle, Weight),
    /// `addto p also q`, or `-q`
    Also(Name, Source, Sign),
    /// `cull p ..`
    Cull(Name, Cull),
    /// `p := nullpicture`
    Clear(Name),
    /// `p := p shifted (dx, dy)`: dx pixels to the right and dy upwards, both in -999,999,999..=999,999,999, as all ints of a
    /// line are
    Shift(Name, i32, i32),
    /// `p := p scaled s`, `xscaled s`, `yscaled s`
    Scale(Name, Scale),
    /// `p := p rotated d`
    Quarter(Name, Quarter),
    /// `show totalweight p`
    Total(Source),
    /// `show p`
    Show(Source),
    /// `proof p`
    Proof(Source),
    /// `shipout p code c dx d width w`: the code, in 0..=255, the escapement in 1/65536 pixel, and the width in 1/1048576 of
    /// the design size, both in -999,999,999..=999,999,999
    Ship(Source, u8, i32, i32),
    /// `turningcheck := n`: the check is on exactly where n is positive
    Turning(Check),
    /// `publish`
    Publish,
}
