// Why a program is not laid.

use back_laying::LayingFault;
use base::NoMemory;
use mid_start::StaticDataFault;

/// Why a program is not laid: for want of memory, or because its words are more than an arena can
/// have, or an address does not fit into its word.
#[derive(Clone, Copy, Debug)]
pub enum LoweringFault {
    NoMemory,
    TooLarge,
}

impl From<NoMemory> for LoweringFault {
    ghost use Rattle.std.specs.Prelude.{◌≡◌};
    ghost use Rattle.back_lowered.specs.declared.faults.LoweringFault.TheVariants as fault;

    ghost from_gives = { λ _ e. e ≡ fault.NoMemory };

    fn from(_want: NoMemory) -> LoweringFault {
        LoweringFault::NoMemory
    }
}

impl From<StaticDataFault> for LoweringFault {
    ghost use Rattle.back_lowered.specs.Faults.{IsFaultOfData};

    ghost from_gives = { λ given e. IsFaultOfData given e };

    fn from(given: StaticDataFault) -> LoweringFault {
        match given {
            StaticDataFault::NoMemory => LoweringFault::NoMemory,
            StaticDataFault::TooLarge => LoweringFault::TooLarge,
        }
    }
}

impl From<LayingFault> for LoweringFault {
    ghost use Rattle.back_lowered.specs.Faults.{IsFaultOfLaying};

    ghost from_gives = { λ given e. IsFaultOfLaying given e };

    fn from(given: LayingFault) -> LoweringFault {
        match given {
            LayingFault::NoMemory => LoweringFault::NoMemory,
            LayingFault::TooLarge => LoweringFault::TooLarge,
        }
    }
}
