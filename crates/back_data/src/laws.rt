// The laws of starts with data, as the contracts of functions that do nothing.

ghost use Rattle.back_data.specs.Laws.{LawOfStartsFromData, LawOfBeginningsWithData};

/// A state that begins with words that an image has at its front, and whose heap is behind the image, is one with which a run of the image
/// begins.
pub fn law_starts_from_data()
    ensures { LawOfStartsFromData }
{}

/// In each arena that has room for an image there is such a state.
pub fn law_begins_with_data()
    ensures { LawOfBeginningsWithData }
{}
