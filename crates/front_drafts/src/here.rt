// Where a row judges a form.

ghost use Rattle.std.specs.Prelude.{◌≡◌, ◌+◌, ◌<◌, nat_le};
ghost use Rattle.front_profile.specs.RowWords as word;

use base::Place;
use front_context::Bindings;
use front_profile::{Spot, Tables};
use std::alloc::Global;

/// Where a form stands: what is bound there, and its place.
#[derive(Clone, Copy)]
pub struct Here<'b> {
    pub alloc: Global,
    pub bound: &'b Bindings,
    pub spot: Spot,
    pub place: Place,
}

/// Where a form stands, and what the forms judged so far gave.
#[derive(Clone, Copy)]
pub struct FormContext<'b> {
    pub alloc: Global,
    pub bound: &'b Bindings,
    pub spot: Spot,
    pub place: Place,
    pub tables: &'b Tables,
}

/// Whether so many core forms of the form's own may stand there: none stands inside 1,000 others.
pub fn fits_depth(spot: Spot, own: u32) -> bool
    ensures { result ≡ nat_le (spot.depth + own) 1000 }
{
    spot.depth as u64 + own as u64 <= 1000
}

/// So many core forms deeper, and below top level.
pub fn deeper(spot: Spot, by: u32) -> Spot
    requires { spot.depth + by < 4294967296 }
    ensures { result ≡ word.deeper_spot by spot }
{
    Spot {
        depth: spot.depth + by,
        top: false,
        in_method: spot.in_method,
        sited: spot.sited,
        in_row: 0,
    }
}

/// Where the parts of a `progn` stand: at top level where it does.
pub fn deeper_at_top(spot: Spot) -> Spot
    requires { spot.depth + 1 < 4294967296 }
    ensures { result ≡ word.deeper_at_top_spot spot }
{
    Spot {
        depth: spot.depth + 1,
        top: spot.top,
        in_method: spot.in_method,
        sited: spot.sited,
        in_row: 0,
    }
}
