// The variables that a body binds: where each lives, and whether it keeps its first value.

ghost use Rattle.std.specs.Prelude.{◌≡◌, ◌≤◌, take, length, slice_get, true, IfOk};
ghost use Rattle.lang_meaning.specs.Form.{parameters};
ghost use Rattle.lang_meaning.specs.Meaning.{bound_variables};
ghost use Rattle.lang_meaning.specs.model.View.{bindings_of};
ghost use Rattle.flat_language.specs.Scope.{homes_of};
ghost use Rattle.flat_conversion.specs.NewVariables.{homes_of_new, home_or_slot};

use base::{ItemList, NoMemory};
use flat_language::{Home, HomeList};
use lang_meaning::{BindingList, Var, VarList};
use std::alloc::Global;

/// A variable where it is bound: where it lives, and whether it keeps its first value, since nothing sets it.
#[derive(Clone, Copy)]
pub(crate) struct NewVariable {
    pub(crate) var: Var,
    pub(crate) home: Home,
    pub(crate) fixed: bool,
}

/// Variables that a body binds, in their order.
pub(crate) type NewVariables = ItemList<NewVariable>;

/// A body in which variables are bound: these variables, and whether a function made in it captures the method.
#[derive(Drop)]
pub(crate) struct Binder {
    pub(crate) variables: NewVariables,
    pub(crate) keeps_method: bool,
}

/// The binders of a form, in the order in which a walk meets them.
pub(crate) type BinderList = ItemList<Binder>;

// The variables of a function: the required ones, and the rest variable.
pub(crate) fn parameters(
    alloc: Global,
    required: &VarList,
    rest: Option<Var>,
) -> Result<VarList, NoMemory>
    ensures { IfOk result (λ variables. variables ≡ parameters required.now rest) }
{
    let mut variables = VarList::new(alloc);
    for var in required.as_slice() {
        variables.push(*var)?;
    }
    if let Some(var) = rest {
        variables.push(var)?;
    }
    Ok(variables)
}

// The variables that bindings bind.
pub(crate) fn bound(alloc: Global, list: &BindingList) -> Result<VarList, NoMemory>
    ensures { IfOk result (λ variables. variables ≡ bound_variables (bindings_of list.now)) }
{
    let mut variables = VarList::new(alloc);
    for at in 0..list.len() {
        let Some(binding) = list.get(at) else {
            unreachable!()
        };
        variables.push(binding.var)?;
    }
    Ok(variables)
}

// Where the first of these live, as many as are asked if there are as many.
pub(crate) fn first_homes(
    alloc: Global,
    news: &NewVariables,
    count: usize,
) -> Result<HomeList, NoMemory>
    ensures { IfOk result (λ homes. homes ≡ take count (homes_of_new news.now)) }
{
    let mut homes = HomeList::new(alloc);
    for at in 0..count.min(news.len()) {
        let Some(new) = news.get(at) else {
            unreachable!()
        };
        homes.push(new.home)?;
    }
    Ok(homes)
}

// Where the variable behind those lives, if there is one.
pub(crate) fn home_at(news: &NewVariables, at: usize) -> Option<Home>
    ensures { result ≡ slice_get (homes_of_new news.now) at }
{
    match news.get(at) {
        None => None,
        Some(new) => Some(new.home),
    }
}

// Where the variable of that binding lives; in a slot where there is none.
pub(crate) fn home_of_binding(news: &NewVariables, at: usize) -> Home
    ensures { result ≡ home_or_slot (slice_get (homes_of_new news.now) at) }
{
    match home_at(news, at) {
        None => Home::Slot,
        Some(home) => home,
    }
}
