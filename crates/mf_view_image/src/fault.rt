//! Why a picture has no image.
use mf_base::OutOfMemory;
use std::error::Error;
use std::fmt;

/// The refusals of an image.
#[derive(Clone, Copy, Debug, PartialEq, Eq)]
pub enum ImageFault {
    /// The least box is wider or higher than 4,096 pixels.
    ImageTooLarge,
    /// An allocation failed. This never comes instead of `ImageTooLarge`.
    OutOfMemory,
}

impl fmt::Display for ImageFault {
    ghost use Rattle.std.specs.Prelude.{Some};
    ghost use Rattle.mf_view_image.specs.Names.{image_fault_text};

    ghost output = { λ fault. Some (image_fault_text fault) };

    fn fmt<W: fmt::Write>(&self, f: &mut fmt::Formatter<W>) -> fmt::Result {
        match self {
            ImageFault::ImageTooLarge => write!(f, "ImageTooLarge"),
            ImageFault::OutOfMemory => write!(f, "{OutOfMemory}"),
        }
    }
}

impl Error for ImageFault {}

impl From<OutOfMemory> for ImageFault {
    ghost use Rattle.std.specs.Prelude.{◌≡◌};
    ghost use Rattle.mf_view_image.specs.declared.fault.ImageFault.TheVariants.{OutOfMemory};

    ghost from_gives = { λ _ fault. fault ≡ OutOfMemory };

    fn from(_fault: OutOfMemory) -> ImageFault {
        ImageFault::OutOfMemory
    }
}
