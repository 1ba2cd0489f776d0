// Where the registers of a program of lines stand, decided by the linear scan, and that such decisions are good.
#![tactic(auto)]

pub mod allocation;
pub mod barriers;
pub mod constants;
pub mod finding;
pub mod hints;
pub mod landings;
pub mod laws;
pub mod names;
pub mod placing;
pub mod steps;
pub mod wishes;

pub use allocation::allocate;
pub use laws::{
    law_allocated, law_fewer_slots, law_good_places, law_landings, law_places, law_program_places,
};
pub use placing::{PlaceList, RegisterPlaces, place_at, place_registers};
pub use steps::LandingsList;
