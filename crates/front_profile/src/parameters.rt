// What lambda lists name.

use base::{FreshList, Symbol};

/// The variables of a lambda list (ISO/IEC 13816:2007, 12.7).
#[derive(Drop)]
pub struct Parameters {
    pub required: FreshList,
    pub rest: Option<Symbol>,
}
