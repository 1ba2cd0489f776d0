// Worked code: the instructions of lines that are written out, as the contracts of functions that do nothing.

ghost use Rattle.back_places.specs.Worked.{FibonacciCode, RecordCode};

/// The lines of a Fibonacci function have these instructions.
pub fn worked_fib()
    ensures { FibonacciCode }
{}

/// The lines that lay a control record, cut to it, land and give it back have these instructions.
pub fn worked_record()
    ensures { RecordCode }
{}
