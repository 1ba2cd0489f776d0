// The image of a program of middle code: all positions, which jumps are near, and the words.
#![tactic(auto)]

pub mod entries;
pub mod errors;
pub mod front;
pub mod images;
pub mod laws;
pub mod lefts;
pub mod nears;
pub mod plans;
pub mod shapes;
pub mod words;

pub use errors::ImageError;
pub use front::Front;
pub use images::emit;
pub use laws::{law_first_of_image, law_runs_of_image, law_shaped_image};
pub use plans::Plan;
pub use shapes::{Shape, ShapeList};
