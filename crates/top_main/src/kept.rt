// The image that a call of the program left.

ghost use Rattle.std.specs.Prelude.{◌≡◌, None};

use rv_machine::Image;

/// What a call keeps for its caller: the image that it built, if it built one.
#[derive(Drop)]
pub struct Kept {
    pub image: Option<Image>,
}

impl Kept {
    /// Nothing kept; takes no memory.
    pub fn new() -> Kept
        ensures { result.image ≡ None }
    {
        Kept { image: None }
    }
}
