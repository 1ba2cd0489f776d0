// What was found of the parts of a form, each kind on its own.

ghost use Rattle.std.specs.Prelude.{◌≡◌, ◌+◌, ◌<◌, ◌∷◌, ◌++◌, option_to_list, length, drop, IfOk, OnOk};
ghost use Rattle.lang_meaning.specs.model.View.{bindings_of};
ghost use Rattle.front_profile.specs.Elaborations.{form_found, variable_found, forms_found, variables_found, bindings_found};
ghost use Rattle.front_elaboration.specs.Sorted.{binding_found};

use base::NoMemory;
use front_profile::{ElaboratedPart, ElaboratedParts};
use lang_meaning::{Binding, BindingList, CoreList, VarList};
use std::alloc::Global;

/// Forms, parameters, and variables with their values.
#[derive(Drop)]
pub(crate) struct Sorted {
    pub(crate) forms: CoreList,
    pub(crate) variables: VarList,
    pub(crate) bindings: BindingList,
}

impl Sorted {
    // Puts it behind those of its kind.
    fn add(&mut self, found: ElaboratedPart) -> Result<(), NoMemory>
        ensures forms { OnOk result (self.new.forms ≡ self.old.forms ++ option_to_list (form_found found)) }
        ensures variables { OnOk result (self.new.variables ≡ self.old.variables ++ option_to_list (variable_found found)) }
        ensures bindings { OnOk result (self.new.bindings ≡ self.old.bindings ++ binding_found found) }
    {
        match found {
            ElaboratedPart::Value(form) => self.forms.push(form),
            ElaboratedPart::Binding(var, value) => self.bindings.push(Binding { var, value }),
            ElaboratedPart::Parameter(var) => self.variables.push(var),
        }
    }
}

// Takes what stands there; takes no memory.
#[tactic(auto, using(crate::proofs::MakingLists::taken_out))]
fn take_out(found: &mut ElaboratedParts, at: usize) -> ElaboratedPart
    requires { at < length found.old }
    ensures item { drop at found.old ≡ result ∷ drop (at + 1) found.new }
    ensures length { length found.new ≡ length found.old }
{
    found.replace(at, ElaboratedPart::Parameter(0))
}

/// Forms, parameters and bindings, each in their order; after `NoMemory` all of it is dropped.
#[tactic(auto, using(crate::proofs::MakingFound::forms_go_on, crate::proofs::MakingFound::variables_go_on, crate::proofs::MakingFound::bindings_go_on, crate::proofs::MakingFound::forms_end, crate::proofs::MakingFound::variables_end, crate::proofs::MakingFound::bindings_end))]
pub(crate) fn sort_found(alloc: Global, found: ElaboratedParts) -> Result<Sorted, NoMemory>
    ensures forms { IfOk result (λ s. s.forms ≡ forms_found found) }
    ensures variables { IfOk result (λ s. s.variables ≡ variables_found found) }
    ensures bindings { IfOk result (λ s. bindings_of s.bindings ≡ bindings_found found) }
{
    let mut found = found;
    let mut sorted = Sorted {
        forms: CoreList::new(alloc),
        variables: VarList::new(alloc),
        bindings: BindingList::new(alloc),
    };
    for at in 0..found.len() {
        let item = take_out(&mut found, at);
        sorted.add(item)?;
    }
    Ok(sorted)
}
