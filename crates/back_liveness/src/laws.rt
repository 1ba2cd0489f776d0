// The law of liveness, as the contract of a function that does nothing.

ghost use Rattle.back_liveness.specs.Liveness.{LawOfAlive};

/// A register is alive at a line only where each test that goes along with lines tells it.
pub fn law_alive()
    ensures { LawOfAlive }
{}
