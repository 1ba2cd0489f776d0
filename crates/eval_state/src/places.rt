// Places in lists.

ghost use Rattle.std.specs.Prelude.{◌≡◌, suc, IfOk};

use base::NoMemory;

/// The place behind one.
pub fn place_behind(place: usize) -> Result<usize, NoMemory>
    ensures { IfOk result (λ next. next ≡ suc place) }
{
    place.checked_add(1).ok_or(NoMemory)
}
