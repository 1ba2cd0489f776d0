// Nodes of core forms, which bound a program and charge its applications.

ghost use Rattle.std.specs.Prelude.{◌≡◌, min, map};
ghost use Rattle.std.specs.List.{sum};
ghost use Rattle.lang_meaning.specs.Subforms.{inner};
ghost use Rattle.lang_meaning.specs.Counts.{own_nodes, is_function, parameters, of_inner, nodes_with};

use crate::core_form::subforms::Subforms;
use crate::core_form::{Core, CoreForm};
use crate::nodes::{Bodies, parameter_count};

impl Core {
    // Its nodes: its own and those of the forms inside, and the bodies of functions as that says; 2^64 - 1 where
    // that is more.
    #[cycle(nodes)]
    #[tactic(auto, using(crate::specs::bridge::Smaller::outer_is_smaller))]
    pub(crate) fn nodes(&self, bodies: Bodies) -> u64
        ensures { result ≡ min (nodes_with bodies self.now) 18446744073709551615 }
    {
        self.own_nodes()
            .saturating_add(all_nodes(self.outer(), bodies))
            .saturating_add(self.inner_nodes(bodies))
    }

    // The nodes of the inner forms, as the body of a function counts.
    #[cycle(nodes)]
    #[tactic(auto, using(crate::specs::bridge::Smaller::inner_is_smaller))]
    fn inner_nodes(&self, bodies: Bodies) -> u64
        ensures { result ≡ min (of_inner bodies self.now (sum (map (nodes_with bodies) (inner self.now)))) 18446744073709551615 }
    {
        if self.is_function() {
            match bodies {
                Bodies::Apart => 0,
                Bodies::Inside => all_nodes(self.inner(), bodies)
                    .saturating_add(self.parameters())
                    .saturating_add(4),
            }
        } else {
            all_nodes(self.inner(), bodies)
        }
    }

    // What it counts by itself.
    #[tactic(auto, using(crate::specs::bridge::Lengths::forms_counted, crate::specs::bridge::Lengths::clauses_counted, crate::specs::bridge::Lengths::bindings_counted, crate::specs::bridge::Lengths::dynamics_counted))]
    fn own_nodes(&self) -> u64
        ensures { result ≡ min (own_nodes self.now) 18446744073709551615 }
    {
        match &self.form {
            CoreForm::Global(_)
            | CoreForm::SetGlobal(_, _)
            | CoreForm::DefGlobal(_, _)
            | CoreForm::Dynamic(_)
            | CoreForm::SetDynamic(_, _)
            | CoreForm::DefDynamic(_, _)
            | CoreForm::Block(_, _)
            | CoreForm::Catch(_, _)
            | CoreForm::Unwind(_, _)
            | CoreForm::WithHandler(_, _) => 2,
            CoreForm::Lambda(_, _, _, parts) => (parts.len() as u64).saturating_add(1),
            CoreForm::Clauses(list) => (list.len() as u64).saturating_add(1),
            CoreForm::Let(list, _) => (list.len() as u64).saturating_add(1),
            CoreForm::DynamicLet(list, _) => (list.len() as u64).saturating_add(1),
            CoreForm::Call(_, list) => (list.len() as u64).saturating_add(2),
            CoreForm::CallValue(list) | CoreForm::Prim(_, list) => {
                (list.len() as u64).saturating_add(1)
            }
            CoreForm::Tagbody(_, list) => (list.len().saturating_sub(1) as u64).saturating_add(2),
            CoreForm::Sited(_, _) => 0,
            _ => 1,
        }
    }

    // The parameters of a `lambda`.
    fn parameters(&self) -> u64
        ensures { result ≡ min (parameters self.now) 18446744073709551615 }
    {
        match &self.form {
            CoreForm::Lambda(required, rest, _, _) => parameter_count(required, *rest),
            _ => 0,
        }
    }

    // Whether it is a `lambda`.
    pub(crate) fn is_function(&self) -> bool
        ensures { result ≡ is_function self.now }
    {
        match &self.form {
            CoreForm::Lambda(_, _, _, _) => true,
            _ => false,
        }
    }
}

// The nodes of these forms together.
#[cycle(nodes)]
fn all_nodes(forms: Subforms<'_>, bodies: Bodies) -> u64
    ensures { result ≡ min (sum (map (nodes_with bodies) forms.entry)) 18446744073709551615 }
{
    let mut total: u64 = 0;
    for form in forms {
        total = total.saturating_add(form.nodes(bodies));
    }
    total
}
