// Where there is no limit of words, no evaluation of flat forms ends for want of them.
#![tactic(auto)]

pub mod laws;

pub use laws::{law_unlimited_forms, law_unlimited_runs};
