// Whole runs of the machine, from the steps of lines.
#![tactic(auto)]

pub mod laws;

pub use laws::{
    law_end, law_first, law_going_on, law_image_runs, law_known_runs, law_known_steps,
    law_machine_runs, law_program_runs, law_runs, law_start, law_weighing,
};
