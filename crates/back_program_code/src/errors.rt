// Why no image of a program is made.

ghost use Rattle.std.specs.Prelude.{◌≡◌};

use back_emit::EmitError;
use base::NoMemory;
use thiserror::Error;

/// Why no image of a program is made: for want of memory; because it is too large; or because the frame of a procedure is not found at each
/// of its lines.
#[derive(Clone, Copy, Debug, PartialEq, Eq, Error)]
pub enum ImageError {
    #[error("no memory")]
    NoMemory,
    #[error("the program is too large")]
    TooLarge,
    #[error("a frame is not found")]
    FrameNotFound,
}

impl From<NoMemory> for ImageError {
    ghost use Rattle.back_program_code.specs.declared.errors.ImageError.TheVariants as image;

    ghost from_gives = { λ _ e. e ≡ image.NoMemory };

    fn from(_: NoMemory) -> ImageError {
        ImageError::NoMemory
    }
}

impl From<EmitError> for ImageError {
    ghost use Rattle.back_program_code.specs.Errors.{image_error};

    ghost from_gives = { λ from e. e ≡ image_error from };

    fn from(error: EmitError) -> ImageError {
        match error {
            EmitError::NoMemory => ImageError::NoMemory,
            EmitError::TooLarge => ImageError::TooLarge,
        }
    }
}
