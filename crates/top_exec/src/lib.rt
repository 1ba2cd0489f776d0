// Files taken of the shelf, runs of images, and image files that are run.
#![tactic(auto)]

pub mod exec;
pub mod image_run;
pub mod loading;

pub use exec::exec_file;
pub use image_run::{Bounds, ImageEnd, ImageRun, run_image, run_machine};
pub use loading::{LoadStop, load};
