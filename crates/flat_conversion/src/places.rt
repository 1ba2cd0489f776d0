// What is bound around a form that is made flat: where the code of its procedure finds variables, exits and the method.

ghost use Rattle.std.specs.Prelude.{◌≡◌, ◌+◌, ◌-◌, ◌≤◌, [], ◌∷◌, ◌++◌, length, drop, Some, None, OnOk, IfOk};
ghost use Rattle.flat_language.specs.Scope.{no_scope, place_of, exit_place_of, method_place_of, flat_part, flat_parts, kind_of, kinds_of, captured_variables, captured_exits, captured_method, slot_at, captured_known, known_of, seen};
ghost use Rattle.flat_language.specs.FlatState.{kind_of_place};
ghost use Rattle.flat_conversion.specs.NewVariables.{known_in_slot, slots_of};
ghost use Rattle.flat_conversion.specs.Places.{scope_of, places_with, places_around};

use crate::variables::{NewVariable, NewVariables};
use base::{NameMap, NoMemory};
use flat_language::{
    CapturedKind, CapturedKinds, ExitPlace, FlatCapture, FlatCaptureList, Home, Known, MethodPlace,
    VariablePlace,
};
use lang_meaning::{Capture, CaptureList, ExitVar, Var};
use std::alloc::Global;

/// The variables and exits around, the innermost first, and the method around; and how many slots and exits of the same
/// procedure there are.
#[derive(Drop)]
pub(crate) struct Places {
    pub(crate) variables: NameMap<Var, Known>,
    pub(crate) exits: NameMap<ExitVar, ExitPlace>,
    pub(crate) method: Option<MethodPlace>,
    pub(crate) slots: usize,
    pub(crate) own_exits: usize,
}

impl Places {
    // Those of a procedure that has captured nothing. Takes no memory.
    pub(crate) fn outermost(alloc: Global) -> Places
        ensures { scope_of result ≡ no_scope }
    {
        Places {
            variables: NameMap::new(alloc),
            exits: NameMap::new(alloc),
            method: Some(MethodPlace::Own),
            slots: 0,
            own_exits: 0,
        }
    }

    #[tactic(auto, using(crate::proofs::Names::found_under))]
    // What is known of a variable; slot 0 where it is not bound.
    fn known(&self, var: Var) -> Known
        ensures { result ≡ known_of (scope_of self.now) var }
    {
        match self.variables.find(var) {
            Some(known) => known,
            None => Known {
                place: VariablePlace::Slot(0),
                fixed: false,
            },
        }
    }

    // The place of a variable.
    pub(crate) fn variable(&self, var: Var) -> VariablePlace
        ensures { result ≡ place_of (scope_of self.now) var }
    {
        self.known(var).place
    }

    #[tactic(auto, using(crate::proofs::Names::found_under))]
    // The place of an exit; the first own one where it is not bound.
    pub(crate) fn exit(&self, exit: ExitVar) -> ExitPlace
        ensures { result ≡ exit_place_of (scope_of self.now) exit }
    {
        match self.exits.find(exit) {
            Some(place) => place,
            None => ExitPlace::Own(0),
        }
    }

    // The place of the method's arguments and of the other methods.
    pub(crate) fn method(&self) -> MethodPlace
        ensures { result ≡ method_place_of (scope_of self.now) }
    {
        match self.method {
            Some(place) => place,
            None => MethodPlace::Own,
        }
    }

    // A captured part, by its place here.
    fn part(&self, part: Capture) -> FlatCapture
        ensures { result ≡ flat_part (scope_of self.now) part }
    {
        match part {
            Capture::Variable(var) => FlatCapture::Variable(self.variable(var)),
            Capture::Exit(exit) => FlatCapture::Exit(self.exit(exit)),
            Capture::Method => FlatCapture::Method(self.method()),
        }
    }

    // Captured parts, by their places here.
    pub(crate) fn parts(
        &self,
        alloc: Global,
        parts: &CaptureList,
    ) -> Result<FlatCaptureList, NoMemory>
        ensures { IfOk result (λ made. made ≡ flat_parts (scope_of self.now) parts.now) }
    {
        let mut made = FlatCaptureList::new(alloc);
        for at in 0..parts.len() {
            let Some(part) = parts.get(at) else {
                unreachable!()
            };
            made.push(self.part(*part))?;
        }
        Ok(made)
    }

    // What a captured part is.
    fn kind(&self, part: Capture) -> CapturedKind
        ensures { result ≡ kind_of (scope_of self.now) part }
    {
        match part {
            Capture::Variable(var) => kind_of_place(self.variable(var)),
            Capture::Exit(_) => CapturedKind::Exit,
            Capture::Method => CapturedKind::Method,
        }
    }

    // What captured parts are.
    pub(crate) fn kinds(
        &self,
        alloc: Global,
        parts: &CaptureList,
    ) -> Result<CapturedKinds, NoMemory>
        ensures { IfOk result (λ kinds. kinds ≡ kinds_of (scope_of self.now) parts.now) }
    {
        let mut kinds = CapturedKinds::new(alloc);
        for at in 0..parts.len() {
            let Some(part) = parts.get(at) else {
                unreachable!()
            };
            kinds.push(self.kind(*part))?;
        }
        Ok(kinds)
    }

    // What a function sees of where it is made: just what it captures.
    pub(crate) fn seen(&self, alloc: Global, parts: &CaptureList) -> Result<Places, NoMemory>
        ensures { IfOk result (λ inner. scope_of inner ≡ seen (scope_of self.now) parts.now) }
    {
        let variables = self.captured_variables(alloc, parts)?;
        let exits = captured_exits(alloc, parts)?;
        Ok(Places {
            variables,
            exits,
            method: captured_method(parts),
            slots: 0,
            own_exits: 0,
        })
    }

    // Captured variables, by their places inside.
    fn captured_variables(
        &self,
        alloc: Global,
        parts: &CaptureList,
    ) -> Result<NameMap<Var, Known>, NoMemory>
        ensures { IfOk result (λ made. made ≡ captured_variables (scope_of self.now) parts.now 0) }
    {
        let mut made = NameMap::new(alloc);
        for at in (0..parts.len()).rev() {
            let Some(part) = parts.get(at) else {
                unreachable!()
            };
            self.captured_variable(&mut made, *part, at)?;
        }
        Ok(made)
    }

    // A captured variable, by its number inside; nothing where the part is none.
    fn captured_variable(
        &self,
        made: &mut NameMap<Var, Known>,
        part: Capture,
        at: usize,
    ) -> Result<(), NoMemory>
        ensures { OnOk result (made.new ≡ captured_variables (scope_of self.now) (part ∷ []) at ++ made.old) }
    {
        match part {
            Capture::Variable(var) => made.bind(var, captured_known(self.known(var), at)),
            Capture::Exit(_) | Capture::Method => Ok(()),
        }
    }

    // New variables in the next slots. After `NoMemory` what is bound here is of no use.
    pub(crate) fn bind(&mut self, news: &NewVariables) -> Result<(), NoMemory>
        ensures { OnOk result (self.new ≡ places_with news.now self.old) }
    {
        let Some(slots) = self.slots.checked_add(news.len()) else {
            return Err(NoMemory);
        };
        bind_new(&mut self.variables, news, slots)?;
        self.slots = slots;
        Ok(())
    }

    // The innermost variables are bound no more, and so many slots are left. Takes no memory.
    pub(crate) fn release(&mut self, count: usize, slots: usize)
        requires { count ≤ length self.old.variables }
        ensures { self.new ≡ record self.old { variables = drop count self.old.variables; slots = slots } }
    {
        self.variables.release(count);
        self.slots = slots;
    }

    // An exit more. After `NoMemory` what is bound here is of no use.
    pub(crate) fn enter(&mut self, exit: ExitVar) -> Result<(), NoMemory>
        ensures { OnOk result (self.new ≡ places_around exit self.old) }
    {
        let Some(exits) = self.own_exits.checked_add(1) else {
            return Err(NoMemory);
        };
        self.exits.bind(exit, ExitPlace::Own(self.own_exits))?;
        self.own_exits = exits;
        Ok(())
    }

    // The innermost exit is bound no more, and so many own ones are left. Takes no memory.
    pub(crate) fn leave(&mut self, own_exits: usize)
        requires { 1 ≤ length self.old.exits }
        ensures { self.new ≡ record self.old { exits = drop 1 self.old.exits; own_exits = own_exits } }
    {
        self.exits.release(1);
        self.own_exits = own_exits;
    }
}

// What is captured of a variable at that place.
fn kind_of_place(place: VariablePlace) -> CapturedKind
    ensures { result ≡ kind_of_place place }
{
    match place {
        VariablePlace::Slot(_) | VariablePlace::CapturedValue(_) => CapturedKind::Value,
        VariablePlace::SlotBox(_) | VariablePlace::CapturedBox(_) => CapturedKind::Boxed,
    }
}

// A captured variable, by its number inside.
fn captured_known(known: Known, at: usize) -> Known
    ensures { result ≡ captured_known known at }
{
    let place = match known.place {
        VariablePlace::Slot(_) | VariablePlace::CapturedValue(_) => {
            VariablePlace::CapturedValue(at)
        }
        VariablePlace::SlotBox(_) | VariablePlace::CapturedBox(_) => {
            VariablePlace::CapturedBox(at)
        }
    };
    Known {
        place,
        fixed: known.fixed,
    }
}

// A new variable in a slot.
fn in_slot(new: NewVariable, slot: usize) -> Known
    ensures { result ≡ known_in_slot new slot }
{
    let place = match new.home {
        Home::Slot => VariablePlace::Slot(slot),
        Home::Boxed => VariablePlace::SlotBox(slot),
    };
    Known {
        place,
        fixed: new.fixed,
    }
}

// New variables in the slots that end at that one.
fn bind_new(
    variables: &mut NameMap<Var, Known>,
    news: &NewVariables,
    end: usize,
) -> Result<(), NoMemory>
    requires { length news.now ≤ end }
    ensures { OnOk result (variables.new ≡ slots_of news.now (end - length news.now) ++ variables.old) }
{
    let mut slot = end;
    for at in (0..news.len()).rev() {
        let Some(new) = news.get(at) else {
            unreachable!()
        };
        slot -= 1;
        variables.bind(new.var, in_slot(*new, slot))?;
    }
    Ok(())
}

// Captured exits, by their places inside.
fn captured_exits(
    alloc: Global,
    parts: &CaptureList,
) -> Result<NameMap<ExitVar, ExitPlace>, NoMemory>
    ensures { IfOk result (λ made. made ≡ captured_exits parts.now 0) }
{
    let mut made = NameMap::new(alloc);
    for at in (0..parts.len()).rev() {
        let Some(part) = parts.get(at) else {
            unreachable!()
        };
        captured_exit(&mut made, *part, at)?;
    }
    Ok(made)
}

// A captured exit, by its number inside; nothing where the part is none.
fn captured_exit(
    made: &mut NameMap<ExitVar, ExitPlace>,
    part: Capture,
    at: usize,
) -> Result<(), NoMemory>
    ensures { OnOk result (made.new ≡ captured_exits (part ∷ []) at ++ made.old) }
{
    match part {
        Capture::Exit(exit) => made.bind(exit, ExitPlace::Captured(at)),
        Capture::Variable(_) | Capture::Method => Ok(()),
    }
}

// The captured method, by its place inside: the first one.
fn captured_method(parts: &CaptureList) -> Option<MethodPlace>
    ensures { result ≡ captured_method parts.now 0 }
{
    for at in 0..parts.len() {
        let Some(part) = parts.get(at) else {
            unreachable!()
        };
        if let Some(place) = method_at(*part, at) {
            return Some(place);
        }
    }
    None
}

fn method_at(part: Capture, at: usize) -> Option<MethodPlace>
    ensures { result ≡ captured_method (part ∷ []) at }
{
    match part {
        Capture::Method => Some(MethodPlace::Captured(at)),
        Capture::Variable(_) | Capture::Exit(_) => None,
    }
}
