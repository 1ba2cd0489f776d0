// Why no image is made.

ghost use Rattle.std.specs.Prelude.{◌≡◌};

use base::NoMemory;
use thiserror::Error;

/// Why no image is made: for want of memory, or because the program is too large.
#[derive(Clone, Copy, Debug, PartialEq, Eq, Error)]
pub enum EmitError {
    #[error("no memory")]
    NoMemory,
    #[error("the program is too large")]
    TooLarge,
}

impl From<NoMemory> for EmitError {
    ghost use Rattle.back_emit.specs.declared.errors.EmitError.TheVariants as emit;

    ghost from_gives = { λ _ e. e ≡ emit.NoMemory };

    fn from(_: NoMemory) -> EmitError {
        EmitError::NoMemory
    }
}
