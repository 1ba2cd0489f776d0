// Which registers are alive at which lines: liveness by paths, and for each register one interval of lines outside of which it is not
// alive, with the parts of it in which it may be.
#![tactic(auto)]

pub mod barrier;
mod heads;
pub mod intervals;
pub mod laws;
mod lives;
mod parts;
mod points;
pub mod step;

pub use barrier::Barrier;
pub use intervals::{CrossedList, LiveIntervals, live_intervals};
pub use laws::law_alive;
pub use step::{Interval, IntervalList, PartList, PartLists, Step, StepList};
