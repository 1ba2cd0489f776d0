// What a line does with registers and where it goes, and intervals of lines.

use base::ItemList;
use mid_code::{Register, RegisterList};
use mid_lines::TargetList;

/// A line, as far as the life of registers goes.
#[derive(Drop)]
pub struct Step {
    /// The registers that it reads.
    pub reads: RegisterList,
    /// The register to which it gives a word, where it goes on to the next line.
    pub written: Option<Register>,
    /// Whether it goes on to the next line.
    pub falls: bool,
    /// The other lines to which it goes, with all registers as they were.
    pub aside: TargetList,
}

/// The lines of a procedure, by their numbers.
pub type StepList = ItemList<Step>;

/// The lines from one to another, both of them too.
#[derive(Clone, Copy)]
pub struct Interval {
    pub from: usize,
    pub to: usize,
}

/// Intervals, by the numbers of registers; none where a register has no place in lines.
pub type IntervalList = ItemList<Option<Interval>>;

/// The parts of an interval, and those of registers by their numbers.
pub type PartList = ItemList<Interval>;

pub type PartLists = ItemList<PartList>;
