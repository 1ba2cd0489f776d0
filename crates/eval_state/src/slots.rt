// The slots of the activation that runs.

ghost use Rattle.std.specs.Prelude.{◌≡◌, ◌-◌, List, ℕ, length, slice_get, slice_set};
ghost use Rattle.flat_language.specs.FlatState.{value_held, box_held};
ghost use Rattle.eval_store.specs.Words.{value_of_word};
ghost use Rattle.eval_state.specs.Frames.{last_of, slot_of, frame_slots};
ghost use Rattle.eval_state.specs.Slots.{IsChanged};

use crate::machine::Machine;
use crate::slot::Slot;
use eval_store::Word;

impl<'p> Machine<'p> {
    // The place of its first slot.
    fn first_slot(&self) -> usize
        ensures { result ≡ length self.now.slots.items - self.now.current.slots }
    {
        self.slots
            .as_slice()
            .len()
            .saturating_sub(self.current.slots)
    }

    /// How many slots it has.
    pub fn slot_count(&self) -> usize
        ensures { (names : List (List ℕ)) → result ≡ length (frame_slots names self.now.current self.now.slots.items) }
    {
        self.slots.as_slice().len() - self.first_slot()
    }

    // The slot of that number.
    fn slot(&self, number: usize) -> Option<Slot>
        ensures { result ≡ slice_get (last_of self.now.current.slots self.now.slots.items) number }
    {
        let first = self.first_slot();
        let slots = self.slots.as_slice();
        if number < slots.len() - first {
            Some(slots[first + number])
        } else {
            None
        }
    }

    /// The value that a slot holds.
    pub fn slot_value(&self, number: usize) -> Word
        ensures { (names : List (List ℕ)) → value_of_word names result ≡ value_held (slice_get (frame_slots names self.now.current self.now.slots.items) number) }
    {
        match self.slot(number) {
            Some(Slot::Value(word)) => word,
            Some(Slot::Boxed(_)) => Word::Nil,
            None => Word::Nil,
        }
    }

    /// The box of a slot.
    pub fn slot_box(&self, number: usize) -> Option<usize>
        ensures { (names : List (List ℕ)) → result ≡ box_held (slice_get (frame_slots names self.now.current self.now.slots.items) number) }
    {
        match self.slot(number) {
            Some(Slot::Value(_)) => None,
            Some(Slot::Boxed(boxed)) => Some(boxed),
            None => None,
        }
    }

    /// A slot is set, where it is there.
    pub fn set_slot(&mut self, number: usize, slot: Slot)
        ensures { IsChanged self.old self.new (λ names z. record z { frame = slice_set z.frame number (slot_of names slot) }) }
    {
        let first = self.first_slot();
        let count = self.slots.as_slice().len() - first;
        if number < count {
            self.slots[first + number] = slot;
        }
    }
}
