// A transfer to the end of the program comes from a condition that is not handled alone.
#![tactic(auto)]

pub mod laws;

pub use laws::{
    law_ends, law_final_signals, law_made_exits, law_main_ends, law_signals_behind, law_sites,
    law_unnamed_exits,
};
