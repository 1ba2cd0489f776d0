// A worked program on the machine, as the contract of a function that does nothing.

ghost use Rattle.back_images.specs.Worked.{BytesPrinted};

/// A loop that prints three bytes, emitted and run in an arena of 128 words, prints them and halts with the word that it returns.
pub fn worked_printing()
    ensures { BytesPrinted }
{}
