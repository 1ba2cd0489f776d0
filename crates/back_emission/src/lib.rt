// The law of steps: what a line does, its instructions do.
#![tactic(auto)]

pub mod laws;

pub use laws::{
    law_accesses, law_calls, law_choices, law_coming, law_computations, law_ends, law_given_back,
    law_instructions, law_landings, law_lent_words, law_loading, law_moving, law_new_blocks,
    law_puts, law_reach, law_reading, law_room,
};
