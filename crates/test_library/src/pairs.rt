// Numbers that are matched one to one.

use base::ItemList;
use std::alloc::Global;

/// Pairs of a number of the laws and one of the library: each number stands in one pair.
#[derive(Drop)]
pub struct Pairs {
    list: ItemList<(usize, usize)>,
}

impl Pairs {
    /// No pairs.
    pub fn new(alloc: Global) -> Pairs {
        Pairs {
            list: ItemList::new(alloc),
        }
    }

    /// The pairs.
    pub fn as_slice(&self) -> &[(usize, usize)] {
        self.list.as_slice()
    }

    /// Whether both numbers are matched with each other, now if neither was before. Where there is no memory they are not.
    pub fn matches(&mut self, law: usize, library: usize) -> bool {
        for (ours, theirs) in self.list.as_slice() {
            if *ours == law || *theirs == library {
                return *ours == law && *theirs == library;
            }
        }
        self.list.push((law, library)).is_ok()
    }
}
