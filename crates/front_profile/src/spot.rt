// Where a form stands, names aside.

/// Where a form stands: how many core forms of its top-level form it is inside of, whether it stands
/// at top level, whether in a body of a primary or around method, whether forms have sites there, as those
/// of a file have, and how many calls of macros in a row were expanded to give the form as a whole.
#[derive(Clone, Copy, Debug, PartialEq, Eq)]
pub struct Spot {
    pub depth: u32,
    pub top: bool,
    pub in_method: bool,
    pub sited: bool,
    pub in_row: u32,
}
