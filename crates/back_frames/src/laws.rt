// The laws of frames, as the contracts of functions that do nothing.

ghost use Rattle.back_frames.specs.Laws.{LawOfBodiesPaid, LawOfFramesPaid, LawOfMainsPaid};

/// The words that are charged for an application, and the reserve, are enough for any body.
pub fn law_bodies_paid()
    ensures { LawOfBodiesPaid }
{}

/// Those of a main form, with three words more, are enough for any that fits.
pub fn law_mains_paid()
    ensures { LawOfMainsPaid }
{}

/// So it is for all bodies and main forms of a program.
pub fn law_frames_paid()
    ensures { LawOfFramesPaid }
{}
