//! Shades of cells.
ghost use Rattle.std.specs.Prelude.{◌≡◌};
ghost use Rattle.mf_view_frame.specs.Cells.{is_dark, shade_of};

/// The shades of cells, from light to dark: a darker one is greater.
#[derive(Clone, Copy, Debug, PartialEq, Eq, PartialOrd, Ord)]
pub(crate) enum Shade {
    /// Weight 0.
    Blank,
    /// Any negative weight.
    Negative,
    /// Weight 1.
    One,
    /// Weight 2.
    Two,
    /// Any weight from 3 on.
    More,
}

impl Shade {
    /// The shade of a weight.
    pub(crate) fn of(weight: i32) -> Shade
        ensures { result ≡ shade_of weight }
    {
        match weight {
            0 => Shade::Blank,
            1 => Shade::One,
            2 => Shade::Two,
            _ if weight < 0 => Shade::Negative,
            _ => Shade::More,
        }
    }

    /// Whether it is the shade of a positive weight.
    pub(crate) fn is_dark(self) -> bool
        ensures { result ≡ is_dark self }
    {
        match self {
            Shade::Blank | Shade::Negative => false,
            Shade::One | Shade::Two | Shade::More => true,
        }
    }
}
