//! Layouts of images, one for each version that is read.
ghost use Rattle.std.specs.Prelude.{◌≡◌};
ghost use Rattle.image_parts.specs.Layouts.{layout_for, widths, is_wide};

use frames::Version;
use ids::Shape;

/// The layout of an image. It says of which kind the node's space is, and how many bytes a
/// generation has.
#[derive(Clone, Copy)]
pub enum Layout {
    /// Version 1, of a plain space. It is only read.
    First,
    /// Version 2, of a plain space.
    Second,
    /// Version 4, of a wide space whose objects have at most this many places and bytes.
    Wide { places: u8, bytes: u32 },
}

impl Layout {
    /// The layout in which the nodes of a space are written.
    pub fn of(shape: Shape) -> Layout
        ensures { result ≡ layout_for shape }
    {
        if shape.is_wide() {
            Layout::Wide {
                places: shape.places(),
                bytes: shape.bytes(),
            }
        } else {
            Layout::Second
        }
    }

    // How the references and the messages of such an image are spelled.
    pub(crate) fn widths(self) -> Version
        ensures { result ≡ widths self }
    {
        match self {
            Layout::First => Version::First,
            Layout::Second | Layout::Wide { .. } => Version::Second,
        }
    }

    // Whether it is that of a wide space, whose objects may have bytes.
    pub(crate) fn is_wide(self) -> bool
        ensures { result ≡ is_wide self }
    {
        matches!(self, Layout::Wide { .. })
    }
}
