// The depth of a core form: how many forms stand inside one another.

ghost use Rattle.std.specs.Prelude.{◌≡◌, min, map};
ghost use Rattle.lang_meaning.specs.Counts.{greatest, own_depth, depth};

use crate::core_form::subforms::Subforms;
use crate::core_form::{Core, CoreForm};

impl Core {
    /// Its depth: the greatest number of forms inside one another, where a `lambda` counts one and
    /// its body begins anew, and the place of a form counts nothing; 2^32 - 1 where that is more.
    /// Takes no memory.
    #[cycle(depth)]
    #[tactic(auto, using(crate::specs::bridge::Smaller::outer_is_smaller, crate::specs::bridge::Smaller::inner_is_smaller))]
    pub fn depth(&self) -> u32
        ensures { result ≡ min (depth self.now) 4294967295 }
    {
        let inner = if self.is_function() {
            0
        } else {
            deepest(self.inner())
        };
        deepest(self.outer())
            .max(inner)
            .saturating_add(self.own_depth())
    }

    // How much deeper it is than the forms right inside it.
    fn own_depth(&self) -> u32
        ensures { result ≡ own_depth self.now }
    {
        match &self.form {
            CoreForm::Sited(_, _) => 0,
            _ => 1,
        }
    }
}

// The depth of the deepest of these forms; 0 where there is none.
#[cycle(depth)]
fn deepest(forms: Subforms<'_>) -> u32
    ensures { result ≡ min (greatest (map depth forms.entry)) 4294967295 }
{
    let mut deepest: u32 = 0;
    for form in forms {
        deepest = deepest.max(form.depth());
    }
    deepest
}
