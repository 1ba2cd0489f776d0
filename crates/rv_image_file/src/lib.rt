// Image files: the bytes of an image with its sites, both ways.
#![tactic(auto)]

pub mod faults;
pub mod laws;
mod numbers;
mod parts;
pub mod reading;
mod rows;
pub mod writing;

pub use faults::{BadImage, ImageStop};
pub use laws::{law_one_reading, law_round_trip};
pub use reading::{ImageFile, read_image};
pub use writing::write_image;
