// The place of a slot among those of its class.

ghost use Rattle.std.specs.Prelude.{◌≡◌, ◌<◌, length, IfSome};
ghost use Rattle.lang_classes.specs.InheritedClasses.{place_of_slot};

use base::Name;
use lang_meaning::SlotRow;

/// The place of the slot of a name; none exactly where no slot has it.
pub fn place_of_slot(slots: &[SlotRow], name: Name) -> Option<usize>
    ensures place { result ≡ place_of_slot slots.now name }
    ensures below { IfSome result (λ place. place < length slots.now) }
{
    for (at, slot) in slots.iter().enumerate() {
        if name.0 == slot.name.0 {
            return Some(at);
        }
    }
    None
}
