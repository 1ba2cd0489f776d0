// The law of steps from those of the kinds of lines.
#![tactic(auto)]

pub mod laws;

pub use laws::{
    law_cuts, law_draws, law_entries, law_gets, law_lays, law_lends, law_requests, law_steps,
};
