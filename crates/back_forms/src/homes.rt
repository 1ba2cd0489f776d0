// Where the variables of bindings live.

ghost use Rattle.std.specs.Prelude.{◌≡◌, map, IfOk};
ghost use Rattle.back_forms.specs.Inside.{home_of};

use base::NoMemory;
use flat_language::{FlatBindingList, HomeList};
use std::alloc::Global;

// Where new variables live.
pub(crate) fn homes_of(alloc: Global, list: &FlatBindingList) -> Result<HomeList, NoMemory>
    ensures { IfOk result (λ homes. homes ≡ map home_of list.now) }
{
    let mut homes = HomeList::new(alloc);
    for binding in list.as_slice() {
        homes.push(binding.home)?;
    }
    Ok(homes)
}
