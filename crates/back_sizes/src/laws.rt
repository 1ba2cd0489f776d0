// The laws of sizes, as the contracts of functions that do nothing.

ghost use Rattle.back_sizes.specs.Laws.{LawOfSizes, LawOfPlacedSize};

/// Whatever was decided of places, code takes no more words than it costs; with its tables, and besides the words in front of it.
pub fn law_sizes()
    ensures { LawOfSizes }
{}

/// So it is with places that fit the program.
pub fn law_placed_size()
    ensures { LawOfPlacedSize }
{}
