// New variables of the activation that runs, and the words of their boxes.

ghost use Rattle.std.specs.Prelude.{◌≡◌, ◌≤◌, ◌+◌, ◌++◌, ◌∷◌, [], OnOk, IfOk, length, slice_get};
ghost use Rattle.lang_meaning.specs.Values.{nil};
ghost use Rattle.flat_language.specs.FlatMeaning.{binding_homes};
ghost use Rattle.flat_language.specs.FlatState.{gives, charged, request};
ghost use Rattle.flat_language.specs.model.View.{bindings_of};
ghost use Rattle.eval_machine.specs.Applications.{boxes_requested};
ghost use Rattle.eval_store.specs.View.{limit_of};
ghost use Rattle.eval_state.specs.Doing.{IsEffectDone};
ghost use Rattle.eval_state.specs.Frames.{last_of};
ghost use Rattle.eval_state.specs.Variables.{IsSlotted, AreSlotted};

use crate::machine::Machine;
use crate::slot::Slot;
use base::NoMemory;
use eval_store::Word;
use flat_language::{FlatBindingList, Home};

impl<'p> Machine<'p> {
    /// A word and a unit for each variable of bindings that lives in a box; whether they are granted.
    pub fn take_binding_boxes(&mut self, list: &FlatBindingList) -> Result<bool, NoMemory>
        ensures { IfOk result (IsEffectDone self.old self.new (λ names z. boxes_requested (limit_of self.old.given.limit) (binding_homes (bindings_of list.now)) z)) }
    {
        for at in 0..list.len() {
            let Some(home) = binding_home(list, at) else {
                unreachable!()
            };
            if !self.take_home(home)? {
                return Ok(false);
            }
        }
        Ok(true)
    }

    /// A word and a unit for a variable, where it lives in a box; whether they are granted.
    pub fn take_home(&mut self, home: Home) -> Result<bool, NoMemory>
        ensures { IfOk result (IsEffectDone self.old self.new (λ names z. boxes_requested (limit_of self.old.given.limit) (home ∷ []) z)) }
    {
        match home {
            Home::Slot => Ok(true),
            Home::Boxed => self.take_heap(1),
        }
    }

    /// So many words of the heap are asked for, and as many units counted; whether they are granted.
    pub fn take_heap(&mut self, words: u64) -> Result<bool, NoMemory>
        ensures { IfOk result (IsEffectDone self.old self.new (λ names z. request (limit_of self.old.given.limit) words 0 z (λ entered. gives nil (charged words entered)))) }
    {
        if !self.ask(words, 0)? {
            return Ok(false);
        }
        self.charge(words)?;
        Ok(true)
    }

    /// The variables of bindings, with the values of the last operands, so many as that.
    pub fn add_bindings(&mut self, list: &FlatBindingList, count: usize) -> Result<(), NoMemory>
        requires { count ≤ length self.old.operands.items }
        ensures { OnOk result (AreSlotted self.old self.new (binding_homes (bindings_of list.now)) (last_of count self.old.operands.items)) }
    {
        let first = self.operands.len() - count;
        for at in 0..count {
            let Some(home) = binding_home(list, at) else {
                return Ok(());
            };
            let word = self.operand_at(first + at);
            self.add_variable(home, word)?;
        }
        Ok(())
    }

    /// A new variable, behind those of the activation that runs.
    pub fn add_variable(&mut self, home: Home, word: Word) -> Result<(), NoMemory>
        ensures { OnOk result (IsSlotted self.old self.new home word) }
    {
        match home {
            Home::Slot => self.add_slot(Slot::Value(word)),
            Home::Boxed => {
                let number = self.store.add_variable(word)?;
                self.add_slot(Slot::Boxed(number))
            }
        }
    }

    // A slot more.
    fn add_slot(&mut self, slot: Slot) -> Result<(), NoMemory>
        ensures slots { OnOk result (self.new.slots.items ≡ self.old.slots.items ++ slot ∷ []) }
        ensures count { OnOk result (self.new.current.slots ≡ self.old.current.slots + 1) }
        ensures same { OnOk result (self.new ≡ record self.old { slots = self.new.slots; current = record self.old.current { slots = self.new.current.slots } }) }
    {
        let Some(count) = self.current.slots.checked_add(1) else {
            return Err(NoMemory);
        };
        self.slots.push(slot)?;
        self.current.slots = count;
        Ok(())
    }
}

// Where the variable of a binding lives.
fn binding_home(list: &FlatBindingList, at: usize) -> Option<Home>
    ensures { result ≡ slice_get (binding_homes (bindings_of list.now)) at }
{
    match list.get(at) {
        Some(binding) => Some(binding.home),
        None => None,
    }
}
