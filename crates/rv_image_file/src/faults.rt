// Why bytes are no image file, and why reading one stops.

ghost use Rattle.std.specs.Prelude.{◌≡◌};
ghost use Rattle.rv_image_file.specs.Reasons.{number_of, text_of};

use base::NoMemory;
use thiserror::Error;

/// Why bytes are no image file.
#[derive(Clone, Copy, Debug, PartialEq, Eq)]
pub enum BadImage {
    /// The first four bytes are missing, or are not `ISLI`.
    Magic,
    /// Bytes 4 to 7 are missing, or neither 1 nor 2.
    Version,
    /// There are fewer bytes than the numbers of words and of sites say.
    Short,
    /// There are more than 16,777,216 words or 100,000 sites, or more bytes than these need.
    Long,
    /// The entry is not a multiple of 4, or not in the words.
    Entry,
}

impl BadImage {
    /// The number of the reason, from 1 to 5.
    pub fn number(self) -> u8
        ensures { result ≡ number_of self }
    {
        match self {
            BadImage::Magic => 1,
            BadImage::Version => 2,
            BadImage::Short => 3,
            BadImage::Long => 4,
            BadImage::Entry => 5,
        }
    }

    /// The name of the reason, as the enum spells it.
    pub fn text(self) -> &'static str
        ensures { result.now ≡ text_of self }
    {
        match self {
            BadImage::Magic => "Magic",
            BadImage::Version => "Version",
            BadImage::Short => "Short",
            BadImage::Long => "Long",
            BadImage::Entry => "Entry",
        }
    }
}

/// Why no image was read: the bytes are no image file, or memory was wanting.
#[derive(Clone, Copy, Debug, PartialEq, Eq, Error)]
pub enum ImageStop {
    #[error("bad image")]
    Bad(BadImage),
    #[error("no memory")]
    NoMemory,
}

impl From<NoMemory> for ImageStop {
    ghost use Rattle.rv_image_file.specs.declared.faults.ImageStop.TheVariants as stop;

    ghost from_gives = { λ _ e. e ≡ stop.NoMemory };

    fn from(_: NoMemory) -> ImageStop {
        ImageStop::NoMemory
    }
}
