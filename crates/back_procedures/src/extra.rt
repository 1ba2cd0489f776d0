// What the body of a function takes behind its variables.

ghost use Rattle.std.specs.Prelude.{◌≡◌, ◌≤◌};
ghost use Rattle.back_lowering.specs.Program as lowering;
ghost use Rattle.back_procedures.specs.Extras.{meant};

/// What the body of a function takes behind its variables.
#[derive(Clone, Copy)]
pub enum Extra {
    Nothing,
    /// The chain, how many arguments there are, and where they are.
    Method,
    /// The function.
    Itself,
}

// How many registers it takes.
pub(crate) fn extra_count(extra: Extra) -> usize
    ensures count { result ≡ lowering.extra_count (meant extra) }
    ensures few { result ≤ 3 }
{
    match extra {
        Extra::Nothing => 0,
        Extra::Method => 3,
        Extra::Itself => 1,
    }
}
