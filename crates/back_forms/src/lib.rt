// The code of flat forms.
#![tactic(auto)]

pub mod forms;
mod homes;
mod judging;
mod kinds;
mod scopes;
mod shapes;
