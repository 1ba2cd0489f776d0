// Why an evaluation stops on its way.

use base::NoMemory as MemoryFault;

/// Memory was wanting, or the source failed, or the sink.
#[derive(Clone, Copy)]
pub enum Stop {
    NoMemory,
    ReadFault,
    WriteFault,
}

impl From<MemoryFault> for Stop {
    ghost use Rattle.std.specs.Prelude.{◌≡◌};
    ghost use Rattle.eval_run.specs.declared.stop.Stop.TheVariants as stop;

    ghost from_gives = { λ _ stopped. stopped ≡ stop.NoMemory };

    fn from(_: MemoryFault) -> Stop {
        Stop::NoMemory
    }
}
