// What a form is before its parts are judged: its steps, and the row that its head decides on.
#![tactic(auto)]

pub mod forms;
pub mod steps;

pub use forms::plain_plan;
pub use steps::settle;
