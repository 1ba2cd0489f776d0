// The linear scan: a value register or a slot for each register, by the intervals in which registers are alive.
#![tactic(auto)]

mod choosing;
mod entries;
mod leaving;
mod placing;
pub mod scan;
pub mod spot;
mod windows;

pub use scan::linear_scan;
pub use spot::{Allocation, Hint, HintList, Spot, Wish, WishList};
