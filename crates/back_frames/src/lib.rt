// The frame of each body, with what its code lays at a time, is within the words that are charged for its application and the reserve.
#![tactic(auto)]

pub mod laws;

pub use laws::{law_bodies_paid, law_frames_paid, law_mains_paid};
