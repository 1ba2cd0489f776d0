// What a class definition says of its own slots.

use base::{ItemList, Name, NameList, Place};
use lang_meaning::ProcedureId;

/// A slot of a class definition: where it stands, its name, the names that give it a value when an
/// instance is made, and the procedure that does so otherwise.
#[derive(Drop)]
pub struct SlotSpec {
    pub place: Place,
    pub name: Name,
    pub initargs: NameList,
    pub initform: Option<ProcedureId>,
}

/// Slots, in the order of the definition.
pub type SlotSpecs = ItemList<SlotSpec>;
