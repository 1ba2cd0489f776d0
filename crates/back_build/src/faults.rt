// Why no image is built.

use back_lowered::LoweringFault;
use back_program_code::ImageError;
use base::NoMemory;

/// Why no image is built: for want of memory; because no arena can have as many words; because a frame has too few words for what has to
/// outlast the calls in it, as the entry of a function of hundreds of parameters; or because a test fails that the profile does not promise
/// yet, though no program of the front is known that does not pass it (names that are in the table, boxes that are captured, code in form).
#[derive(Clone, Copy, Debug)]
pub enum BuildFault {
    NoMemory,
    TooLarge,
    FrameTooSmall,
    NotInForm,
}

impl From<NoMemory> for BuildFault {
    ghost use Rattle.std.specs.Prelude.{◌≡◌};
    ghost use Rattle.back_build.specs.declared.faults.BuildFault.TheVariants as fault;

    ghost from_gives = { λ _ e. e ≡ fault.NoMemory };

    fn from(_want: NoMemory) -> BuildFault {
        BuildFault::NoMemory
    }
}

impl From<LoweringFault> for BuildFault {
    ghost use Rattle.back_build.specs.Faults.{IsFaultOfLowering};

    ghost from_gives = { λ given e. IsFaultOfLowering given e };

    fn from(given: LoweringFault) -> BuildFault {
        match given {
            LoweringFault::NoMemory => BuildFault::NoMemory,
            LoweringFault::TooLarge => BuildFault::TooLarge,
        }
    }
}

impl From<ImageError> for BuildFault {
    ghost use Rattle.back_build.specs.Faults.{IsFaultOfImage};

    ghost from_gives = { λ given e. IsFaultOfImage given e };

    fn from(given: ImageError) -> BuildFault {
        match given {
            ImageError::NoMemory => BuildFault::NoMemory,
            ImageError::TooLarge => BuildFault::TooLarge,
            ImageError::FrameNotFound => BuildFault::FrameTooSmall,
        }
    }
}
