// Slots that are given back: those of intervals that have ended.

ghost use Rattle.std.specs.Prelude.{◌≡◌, length};

use crate::entries::Entry;
use crate::spot::Spot;
use base::NoMemory;

/// The entries by their ends, the first of them that may not have ended, and the slots that were given back.
#[derive(Drop)]
pub struct Leaving {
    pub entries: Vec<Entry>,
    pub next: usize,
    pub free: Vec<usize>,
}

impl Leaving {
    /// A slot of an interval that has ended before the line, and that was not asked for again; none if there is none.
    pub fn slot_before(
        &mut self,
        spots: &[Option<Spot>],
        line: usize,
    ) -> Result<Option<usize>, NoMemory> {
        for at in self.next..self.entries.len() {
            let entry = self.entries[at];
            if line <= entry.interval.to {
                break;
            }
            self.next = at + 1;
            self.give_back(slot_of(spots, entry))?;
        }
        Ok(self.free.pop())
    }

    fn give_back(&mut self, slot: Option<usize>) -> Result<(), NoMemory>
        ensures { length self.new.entries.items ≡ length self.old.entries.items }
    {
        if let Some(slot) = slot {
            self.free.push(slot)?;
        }
        Ok(())
    }
}

// The slot in which the register of an entry stands, if it is in one.
fn slot_of(spots: &[Option<Spot>], entry: Entry) -> Option<usize> {
    if entry.register < spots.len() {
        let spot = spots[entry.register];
        match spot {
            Some(Spot::Slot(slot)) => Some(slot),
            _ => None,
        }
    } else {
        None
    }
}
