// The image of a program.

use back_build::{BuildFault, build};
use base::NoMemory;
use front_files::Whole;
use rv_machine::Image;
use test_rows::RowAnswer;

/// The image of a program; none where there is none, which is told.
pub fn image_of(got: &mut RowAnswer, whole: &Whole) -> Option<Image> {
    match build(got.alloc, &whole.program, &whole.names) {
        Ok(built) => Some(built.image),
        Err(BuildFault::NoMemory) => got.kept(Err(NoMemory)),
        Err(fault) => {
            got.put_debug(&fault);
            None
        }
    }
}
